//! The terms of a text, with terms and factors in any order.

ghost use Rattle.std.specs.Prelude.{◌≡◌, ◌≤◌, ◌<◌, [], ◌++◌, ◌∷◌, ℕ, List, true, None, Ok, Err, OnOk, IfOk, MatchResult, map, length, drop, if◌then◌else◌};
ghost use Rattle.std.specs.List.{AllByRecursion};
ghost use Rattle.sparse_poly.specs.Contributions.{max_coeff};
ghost use Rattle.poly_text.specs.Raw.{raw};
ghost use Rattle.poly_text.specs.State.{Start, Signed, Times, Letter, FactorEnd};
ghost use Rattle.poly_text.specs.Numbers.{IsFactorInRange};
ghost use Rattle.poly_text.specs.Scan.{first_of, scan, scan_end, scan_terms, IsStop};
ghost use Rattle.poly_text.specs.Fronts.{IsLive, IsFactorFront, IsFactorsFront, IsBodyFront, IsTermFront, begins_with, ends_term};
ghost use Rattle.poly_text.specs.Places.{is_falling, last_monomial, next_place, IsFactorPlace, IsAtSign, IsReadTo, IsReading};

use crate::form::{Stop, SyntaxFault, after_sign, begins_with, behind, ends_term, note};
use crate::numbers::{split_coefficient, split_exponent, split_variable};
use crate::order::{is_falling, is_term_below, last_powers};
use std::alloc::{AllocError, Global};

/// A term as it stands in a text, with its factors in their order there.
#[derive(Drop)]
pub(crate) struct RawTerm {
    pub(crate) coeff: i128,
    pub(crate) powers: Vec<(u32, u16)>,
}

/// What reading has found in a text, with some value in place of each number out of range. A place is
/// told by the number of bytes that are left there.
#[derive(Drop)]
pub(crate) struct Reading {
    pub(crate) terms: Vec<RawTerm>,
    /// The start of the first number out of range.
    pub(crate) number_fault: Option<usize>,
    /// The start of the first term or factor out of order.
    pub(crate) disorder: Option<usize>,
}

/// The factor behind an `x`, and what follows it.
fn split_factor<'a>(
    unknowns: u32,
    text: &'a [u8],
    fault: &mut Option<usize>,
) -> Result<((u32, u16), &'a [u8]), SyntaxFault>
    ensures scan { MatchResult result (λ r. scan unknowns fault.old Letter text.now ≡ scan unknowns fault.new FactorEnd r.1.now) (λ e. scan unknowns fault.old Letter text.now ≡ Err e.left) }
    ensures front { IfOk result (λ r. IsLive unknowns Letter text.now → IsFactorFront unknowns text.now r.0 r.1.now) }
    ensures shorter { IfOk result (λ r. length r.1.now ≤ length text.now) }
{
    let (variable, rest) = split_variable(unknowns, text, fault)?;
    if begins_with(rest, b'^') {
        let (exponent, further) = split_exponent(behind(rest, 1), fault)?;
        Ok(((variable, exponent), further))
    } else {
        Ok(((variable, 1), rest))
    }
}

/// The factor behind a `*`, and what follows it.
fn split_further_factor<'a>(
    unknowns: u32,
    text: &'a [u8],
    fault: &mut Option<usize>,
) -> Result<((u32, u16), &'a [u8]), SyntaxFault>
    ensures scan { MatchResult result (λ r. scan unknowns fault.old Times text.now ≡ scan unknowns fault.new FactorEnd r.1.now) (λ e. scan unknowns fault.old Times text.now ≡ Err e.left) }
    ensures begins { IfOk result (λ r. begins_with text.now 120 ≡ true) }
    ensures front { IfOk result (λ r. IsLive unknowns Letter (drop 1 text.now) → IsFactorFront unknowns (drop 1 text.now) r.0 r.1.now) }
    ensures shorter { IfOk result (λ r. length r.1.now ≤ length text.now) }
{
    if !begins_with(text, b'x') {
        return Err(SyntaxFault { left: text.len() });
    }
    split_factor(unknowns, behind(text, 1), fault)
}

/// Appends a factor that starts where `left` bytes are left. Keeps that place where the factor's variable
/// is not below the one before, and no such place is kept.
fn push_factor(
    power: (u32, u16),
    left: usize,
    powers: &mut Vec<(u32, u16)>,
    disorder: &mut Option<usize>,
) -> Result<(), AllocError>
    ensures powers { OnOk result (powers.new.items ≡ powers.old.items ++ power ∷ []) }
    ensures place { OnOk result (disorder.new ≡ (if is_falling powers.old.items power.0 then disorder.old else first_of disorder.old left)) }
{
    if !is_falling(powers, power.0) {
        note(disorder, left);
    }
    powers.push(power)?;
    Ok(())
}

/// Appends the factors at the front of a text, each behind a `*`, and gives what follows them. Keeps
/// the place of the first factor whose variable is not below the one before.
fn push_factors<'a>(
    unknowns: u32,
    text: &'a [u8],
    powers: &mut Vec<(u32, u16)>,
    fault: &mut Option<usize>,
    disorder: &mut Option<usize>,
) -> Result<&'a [u8], Stop>
    ensures scan { MatchResult result (λ rest. scan unknowns fault.old FactorEnd text.now ≡ scan_end unknowns fault.new rest.now) (IsStop (scan unknowns fault.old FactorEnd text.now)) }
    ensures front { IfOk result (λ rest. IsLive unknowns FactorEnd text.now → AllByRecursion (IsFactorInRange unknowns) powers.old.items → IsFactorsFront unknowns text.now powers.old.items powers.new.items rest.now) }
    ensures order { IfOk result (λ rest. IsLive unknowns FactorEnd text.now → AllByRecursion (IsFactorInRange unknowns) powers.old.items → IsFactorPlace powers.old.items text.now disorder.old → IsFactorPlace powers.new.items rest.now disorder.new) }
    ensures shorter { IfOk result (λ rest. length rest.now ≤ length text.now) }
{
    let mut rest = text;
    'factors: while begins_with(rest, b'*') {
        let factor = behind(rest, 1);
        let (power, further) = split_further_factor(unknowns, factor, fault)?;
        push_factor(power, factor.len(), powers, disorder)?;
        rest = further;
    }
    Ok(rest)
}

/// Puts the factors of the term behind a sign in `powers`, and gives its coefficient's absolute value and
/// what follows the term.
fn split_body<'a>(
    unknowns: u32,
    text: &'a [u8],
    powers: &mut Vec<(u32, u16)>,
    fault: &mut Option<usize>,
    disorder: &mut Option<usize>,
) -> Result<(u128, &'a [u8]), Stop>
    requires empty { powers.old.items ≡ [] }
    requires none { disorder.old ≡ None }
    ensures scan { MatchResult result (λ r. scan unknowns fault.old Signed text.now ≡ scan_end unknowns fault.new r.1.now) (IsStop (scan unknowns fault.old Signed text.now)) }
    ensures front { IfOk result (λ r. IsLive unknowns Signed text.now → IsBodyFront unknowns text.now r.0 powers.new.items r.1.now) }
    ensures order { IfOk result (λ r. IsLive unknowns Signed text.now → IsFactorPlace powers.new.items r.1.now disorder.new) }
    ensures small { IfOk result (λ r. r.0 ≤ max_coeff) }
    ensures shorter { IfOk result (λ r. length r.1.now < length text.now) }
{
    if begins_with(text, b'x') {
        let (power, further) = split_factor(unknowns, behind(text, 1), fault)?;
        push_factor(power, text.len(), powers, disorder)?;
        let rest = push_factors(unknowns, further, powers, fault, disorder)?;
        return Ok((1, rest));
    }
    let (size, further) = split_coefficient(text, fault)?;
    if size == 1 {
        return Ok((1, further));
    }
    let rest = push_factors(unknowns, further, powers, fault, disorder)?;
    Ok((size, rest))
}

/// The term behind a sign, the place of its first factor out of order, and what follows the term.
fn split_term<'a>(
    alloc: Global,
    unknowns: u32,
    negative: bool,
    text: &'a [u8],
    fault: &mut Option<usize>,
) -> Result<(RawTerm, Option<usize>, &'a [u8]), Stop>
    ensures scan { MatchResult result (λ r. scan unknowns fault.old Signed text.now ≡ scan_end unknowns fault.new r.2.now) (IsStop (scan unknowns fault.old Signed text.now)) }
    ensures ends { IfOk result (λ r. ends_term r.2.now ≡ true) }
    ensures front { IfOk result (λ r. IsLive unknowns Signed text.now → IsTermFront unknowns negative text.now (raw r.0) r.2.now) }
    ensures order { IfOk result (λ r. IsLive unknowns Signed text.now → IsFactorPlace r.0.powers.items r.2.now r.1) }
    ensures shorter { IfOk result (λ r. length r.2.now < length text.now) }
{
    let mut powers = Vec::new(alloc);
    let mut disorder = None;
    let (size, rest) = split_body(unknowns, text, &mut powers, fault, &mut disorder)?;
    if !ends_term(rest) {
        return Err(Stop::Syntax { left: rest.len() });
    }
    let size = size as i128;
    let coeff = if negative { -size } else { size };
    Ok((RawTerm { coeff, powers }, disorder, rest))
}

/// Appends a term that starts where `left` bytes are left, and keeps what breaks the order in it.
fn push_term(
    alloc: Global,
    term: RawTerm,
    left: usize,
    factor: Option<usize>,
    reading: &mut Reading,
) -> Result<(), AllocError>
    ensures terms { OnOk result (map raw reading.new.terms.items ≡ map raw reading.old.terms.items ++ raw term ∷ []) }
    ensures fault { OnOk result (reading.new.number_fault ≡ reading.old.number_fault) }
    ensures place { OnOk result (reading.new.disorder ≡ next_place reading.old.disorder (last_monomial None (map raw reading.old.terms.items)) term.powers.items left factor) }
{
    if reading.disorder.is_none() {
        let below = is_term_below(alloc, last_powers(&reading.terms), &term.powers)?;
        reading.disorder = if below { factor } else { Some(left) };
    }
    reading.terms.push(term)?;
    Ok(())
}

/// Reads a term with its sign, and gives what follows it.
fn read_term<'a>(
    alloc: Global,
    unknowns: u32,
    text: &'a [u8],
    reading: &mut Reading,
) -> Result<&'a [u8], Stop>
    requires some { 0 < length text.now }
    requires at_sign { IsAtSign (map raw reading.old.terms.items) text.now }
    ensures scan { MatchResult result (λ rest. scan_terms unknowns reading.old.number_fault (map raw reading.old.terms.items) text.now ≡ scan_terms unknowns reading.new.number_fault (map raw reading.new.terms.items) rest.now) (IsStop (scan_terms unknowns reading.old.number_fault (map raw reading.old.terms.items) text.now)) }
    ensures at_sign { IfOk result (λ rest. IsAtSign (map raw reading.new.terms.items) rest.now) }
    ensures terms { IfOk result (λ rest. (whole : List ℕ) → IsReadTo unknowns whole (map raw reading.old.terms.items) reading.old.disorder text.now → IsReadTo unknowns whole (map raw reading.new.terms.items) reading.new.disorder rest.now) }
    ensures shorter { IfOk result (λ rest. length rest.now < length text.now) }
{
    let negative = begins_with(text, b'-');
    let (term, factor, rest) = split_term(
        alloc,
        unknowns,
        negative,
        after_sign(text),
        &mut reading.number_fault,
    )?;
    push_term(alloc, term, text.len(), factor, reading)?;
    Ok(rest)
}

/// Reads a text in one pass to its end, or to where it leaves the form.
pub(crate) fn read_terms(alloc: Global, unknowns: u32, text: &[u8]) -> Result<Reading, Stop>
    ensures scan { MatchResult result (λ r. scan unknowns None Start text.now ≡ Ok r.number_fault) (IsStop (scan unknowns None Start text.now)) }
    ensures terms { IfOk result (λ r. IsLive unknowns Start text.now → IsReading unknowns text.now (map raw r.terms.items) r.disorder) }
{
    let mut reading = Reading {
        terms: Vec::new(alloc),
        number_fault: None,
        disorder: None,
    };
    if begins_with(text, b'0') {
        return if text.len() == 1 {
            Ok(reading)
        } else {
            Err(Stop::Syntax {
                left: text.len() - 1,
            })
        };
    }
    if text.is_empty() || begins_with(text, b'+') {
        return Err(Stop::Syntax { left: text.len() });
    }
    let mut rest = text;
    'terms: while !rest.is_empty() {
        rest = read_term(alloc, unknowns, rest, &mut reading)?;
    }
    Ok(reading)
}
