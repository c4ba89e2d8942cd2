//! The fields of a line, read one after another.
ghost use Rattle.std.specs.Prelude.{◌≡◌, ◌≤◌, ◌<◌, ◌∷◌, [], ℕ, true, false, IfOk, MatchOption, MatchResult, drop, decimal, codes, ◌++◌, length, if◌then◌else◌};
ghost use Rattle.sparse_poly.specs.Contributions.{IsPoly};
ghost use Rattle.poly_text.specs.Text.{poly_text};
ghost use Rattle.cert_text.specs.Fields.{item_text, reference_text, count_fields};
ghost use Rattle.cert_lines.specs.Forms.{Word, OneOf, UpTo, Item as item_shape, Reference, Variable, Polynomial, Ended, count_form};
ghost use Rattle.cert_text.specs.Numbers.{HasItemInRange, HasReferenceInRange};
ghost use Rattle.sparse_poly.specs.Reads.{HasVariablesBelow};
ghost use Rattle.cert_lines.specs.Words.{words, left};
ghost use Rattle.cert_lines.specs.LineReading.{nothing, first_has, IsFieldRead, AreFieldsRead, IsShapeFault, noted};

use crate::kind::is_word;
use crate::notes::Notes;
use decimal_text::{NumeralFault, read_number};
use derive_lines::Item;
use memchr::memchr;
use poly_text::{PolyTextFault, read_poly};
use sparse_poly::Poly;
use std::alloc::{AllocError, Global};

/// The fields of a line that are left to read, and what is wrong with those that were read. Where a field is not what it is to be, that is noted,
/// and a stand-in is its value.
#[derive(Drop)]
pub struct FieldReader<'a> {
    // The part of the line behind the last space that was passed, until all fields are read.
    pub part: Option<&'a [u8]>,
    pub notes: Notes,
}

impl<'a> FieldReader<'a> {
    /// All fields of a line.
    pub(crate) fn of(line: &'a [u8]) -> FieldReader<'a>
        ensures fields { left result.part ≡ words line.now }
        ensures notes { result.notes ≡ nothing }
    {
        FieldReader {
            part: Some(line),
            notes: Notes::none(),
        }
    }

    // The next field.
    fn next(&mut self) -> Option<&'a [u8]>
        ensures field { MatchOption result (left self.old.part ≡ []) (λ f. left self.old.part ≡ f.now ∷ left self.new.part) }
        ensures rest { left self.new.part ≡ drop 1 (left self.old.part) }
        ensures notes { self.new.notes ≡ self.old.notes }
    {
        let part = self.part?;
        let (field, rest) = split_field(part);
        self.part = rest;
        Some(field)
    }

    // Notes a fault.
    fn note(&mut self, fault: NumeralFault)
        ensures part { left self.new.part ≡ left self.old.part }
        ensures notes { self.new.notes ≡ noted fault self.old.notes }
    {
        match fault {
            NumeralFault::Form => self.notes.form = true,
            NumeralFault::Range => self.notes.range = true,
        }
    }

    /// Passes the next field where it is this word.
    pub(crate) fn passes(&mut self, word: &[u8]) -> bool
        ensures passed { result ≡ true → left self.old.part ≡ word.now ∷ left self.new.part }
        ensures other { result ≡ false → (first_has (Word word.now) (left self.old.part) ≡ false) × (left self.new.part ≡ left self.old.part) }
        ensures notes { self.new.notes ≡ self.old.notes }
    {
        let Some(part) = self.part else {
            return false;
        };
        let (field, rest) = split_field(part);
        if !is_word(field, word) {
            return false;
        }
        self.part = rest;
        true
    }

    // Passes a field that has not its form.
    fn skip(&mut self)
        ensures rest { left self.new.part ≡ drop 1 (left self.old.part) }
        ensures notes { self.new.notes ≡ noted NumeralFault.Form self.old.notes }
    {
        let _field = self.next();
        self.notes.form = true;
    }

    /// Reads a field that is to be this word.
    pub(crate) fn word(&mut self, word: &[u8])
        ensures { (u : ℕ) → IsFieldRead u (Word word.now) (left self.old.part) (left self.new.part) self.old.notes self.new.notes word.now (Unit {0}) }
    {
        if !self.passes(word) {
            self.skip();
        }
    }

    /// Reads a field that is to be one of two words: whether it is the first.
    pub(crate) fn one_of(&mut self, first: &[u8], second: &[u8]) -> bool
        ensures { (u : ℕ) → IsFieldRead u (OneOf first.now second.now) (left self.old.part) (left self.new.part) self.old.notes self.new.notes (if result then first.now else second.now) (Unit {0}) }
    {
        if self.passes(first) {
            return true;
        }
        if !self.passes(second) {
            self.skip();
        }
        false
    }

    /// Reads a number of at most `most`.
    pub(crate) fn number(&mut self, most: u64) -> u64
        ensures read { (u : ℕ) → IsFieldRead u (UpTo most) (left self.old.part) (left self.new.part) self.old.notes self.new.notes (decimal result) (result ≤ most) }
        ensures within { result ≤ most }
    {
        let Some(field) = self.next() else {
            self.notes.form = true;
            return 0;
        };
        match number_in(field, most) {
            Ok(number) => number,
            Err(fault) => {
                self.note(fault);
                0
            }
        }
    }

    /// Reads an item.
    pub(crate) fn item(&mut self) -> Item
        ensures { (u : ℕ) → IsFieldRead u item_shape (left self.old.part) (left self.new.part) self.old.notes self.new.notes (item_text result) (HasItemInRange result) }
    {
        let Some(field) = self.next() else {
            self.notes.form = true;
            return Item::Root(0);
        };
        match item_in(field) {
            Ok(item) => item,
            Err(fault) => {
                self.note(fault);
                Item::Root(0)
            }
        }
    }

    /// Reads an item that may be absent.
    pub(crate) fn reference(&mut self) -> Option<Item>
        ensures { (u : ℕ) → IsFieldRead u Reference (left self.old.part) (left self.new.part) self.old.notes self.new.notes (reference_text result) (HasReferenceInRange result) }
    {
        let Some(field) = self.next() else {
            self.notes.form = true;
            return None;
        };
        match reference_in(field) {
            Ok(item) => item,
            Err(fault) => {
                self.note(fault);
                None
            }
        }
    }

    /// Reads a variable below `unknowns`.
    pub(crate) fn variable(&mut self, unknowns: u32) -> u32
        ensures { IsFieldRead unknowns Variable (left self.old.part) (left self.new.part) self.old.notes self.new.notes (codes "x" ++ decimal result) (result < unknowns) }
    {
        let Some(field) = self.next() else {
            self.notes.form = true;
            return 0;
        };
        match variable_in(unknowns, field) {
            Ok(variable) => variable,
            Err(fault) => {
                self.note(fault);
                0
            }
        }
    }

    /// Reads a polynomial whose variables are below `unknowns`.
    pub(crate) fn poly(&mut self, alloc: Global, unknowns: u32) -> Result<Poly, AllocError>
        ensures { IfOk result (λ p. IsFieldRead unknowns Polynomial (left self.old.part) (left self.new.part) self.old.notes self.new.notes (poly_text p) (IsPoly p × HasVariablesBelow unknowns p)) }
    {
        let Some(field) = self.next() else {
            self.notes.form = true;
            return Ok(Poly::zero(alloc));
        };
        match read_poly(alloc, field, unknowns) {
            Ok(poly) => Ok(poly),
            Err(PolyTextFault::Syntax { .. }) => {
                self.notes.form = true;
                Ok(Poly::zero(alloc))
            }
            Err(PolyTextFault::Number { .. }) => {
                self.notes.range = true;
                Ok(Poly::zero(alloc))
            }
            Err(PolyTextFault::Order { .. }) => {
                self.notes.order = true;
                Ok(Poly::zero(alloc))
            }
            Err(PolyTextFault::OutOfMemory) => Err(AllocError),
        }
    }

    /// Reads all fields of a line that is to be this word and a number of at most `most`.
    pub(crate) fn count(&mut self, word: &[u8], most: u64) -> u64
        ensures read { (u : ℕ) → AreFieldsRead u (count_form word.now most) (left self.old.part) self.old.notes self.new.notes (count_fields word.now result) (result ≤ most) }
        ensures within { result ≤ most }
    {
        self.word(word);
        let number = self.number(most);
        self.end();
        number
    }

    /// Notes it where a field is left.
    pub(crate) fn end(&mut self)
        ensures { (u : ℕ) → AreFieldsRead u Ended (left self.old.part) self.old.notes self.new.notes [] (Unit {0}) }
    {
        if let Some(_part) = self.part {
            self.notes.form = true;
        }
    }
}

/// The first field of a line, and what is behind the first space, if there is one.
pub fn split_field(line: &[u8]) -> (&[u8], Option<&[u8]>)
    ensures { words line.now ≡ result.0.now ∷ left result.1 }
{
    match memchr(b' ', line) {
        None => (line, None),
        Some(i) => (&line[..i], Some(behind(line, i + 1))),
    }
}

/// The text without this many of its first bytes.
pub fn behind(text: &[u8], count: usize) -> &[u8]
    requires { count ≤ length text.now }
    ensures { result.now ≡ drop count text.now }
{
    &text[count..]
}

// The number of at most `most` that a field is.
fn number_in(field: &[u8], most: u64) -> Result<u64, NumeralFault>
    ensures { (u : ℕ) → MatchResult result (λ n. (field.now ≡ decimal n) × (n ≤ most)) (IsShapeFault u (UpTo most) field.now) }
{
    read_number(field, most)
}

// The item that a field is.
fn item_in(field: &[u8]) -> Result<Item, NumeralFault>
    ensures { (u : ℕ) → MatchResult result (λ x. (field.now ≡ item_text x) × HasItemInRange x) (IsShapeFault u item_shape field.now) }
{
    let [letter, digits @ ..] = field else {
        return Err(NumeralFault::Form);
    };
    match *letter {
        b'r' => Ok(Item::Root(read_number(digits, u64::MAX)?)),
        b'd' => Ok(Item::Decision(read_number(digits, u64::MAX)?)),
        b'l' => Ok(Item::Line(read_number(digits, u64::MAX)?)),
        _ => Err(NumeralFault::Form),
    }
}

// The item that a field is, if it is not `-`.
fn reference_in(field: &[u8]) -> Result<Option<Item>, NumeralFault>
    ensures { (u : ℕ) → MatchResult result (λ x. (field.now ≡ reference_text x) × HasReferenceInRange x) (IsShapeFault u Reference field.now) }
{
    if is_word(field, b"-") {
        return Ok(None);
    }
    match item_in(field) {
        Ok(item) => Ok(Some(item)),
        Err(fault) => Err(fault),
    }
}

// The variable below `unknowns` that a field is.
fn variable_in(unknowns: u32, field: &[u8]) -> Result<u32, NumeralFault>
    ensures { MatchResult result (λ v. (field.now ≡ codes "x" ++ decimal v) × (v < unknowns)) (IsShapeFault unknowns Variable field.now) }
{
    let [letter, digits @ ..] = field else {
        return Err(NumeralFault::Form);
    };
    match *letter {
        b'x' => variable_below(unknowns, digits),
        _ => Err(NumeralFault::Form),
    }
}

// The variable below `unknowns` whose number, behind the `x`, these digits are.
fn variable_below(unknowns: u32, digits: &[u8]) -> Result<u32, NumeralFault>
    ensures { MatchResult result (λ v. (120 ∷ digits.now ≡ codes "x" ++ decimal v) × (v < unknowns)) (IsShapeFault unknowns Variable (120 ∷ digits.now)) }
{
    match read_number(digits, u64::MAX) {
        Err(fault) => Err(fault),
        Ok(number) => {
            if number >= unknowns as u64 {
                return Err(NumeralFault::Range);
            }
            Ok(number as u32)
        }
    }
}
