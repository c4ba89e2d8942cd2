//! Lines as keys of hash maps.
ghost use Rattle.std.specs.Prelude.{◌≡◌, fold};
ghost use Rattle.std.specs.Option.{option_eq};
ghost use Rattle.cert_text.specs.Tables.{is_same_way, is_same_item, is_same};
ghost use Rattle.cert_text.specs.Hashing.{reference_input, line_input};

use derive_lines::{Item, Line, Way};
use std::hash::{Hash, Hasher};
use std::marker::Model;

/// A line as a key: two are equal where all their parts are.
#[derive(Drop)]
pub struct LineKey {
    line: Line,
}

impl Model for LineKey {
    ghost use Rattle.derive_lines.specs.declared.parts.Line.{Line};

    ghost Value = { Line };

    ghost view = { λ k. k.line };
}

impl LineKey {
    /// The key of a line.
    pub fn of(line: Line) -> LineKey
        ensures { result ≡ line }
    {
        LineKey { line }
    }

    /// The line.
    pub fn line(&self) -> &Line
        ensures { result.now ≡ self.now }
    {
        &self.line
    }
}

impl PartialEq for LineKey {
    ghost use Rattle.std.specs.Cmp.{partial_equiv_from_equiv};
    ghost use Rattle.cert_text.specs.Tables.{is_same};
    ghost use Rattle.cert_text.specs.TableLaws.{lines, equivalence};

    ghost eq = { is_same };

    ghost laws = { partial_equiv_from_equiv (equivalence lines) };

    fn eq(&self, other: &LineKey) -> bool {
        is_same_line(&self.line, &other.line)
    }
}

impl Eq for LineKey {
    ghost use Rattle.cert_text.specs.TableLaws.{lines, equivalence};

    ghost laws = { equivalence lines };
}

impl Hash for LineKey {
    ghost use Rattle.cert_text.specs.Hashing.{line_input, line_input-respects};

    ghost hash_input = { line_input };

    ghost respects_eq = { line_input-respects };

    fn hash<H: Hasher>(&self, state: &mut H) {
        hash_line(&self.line, state);
    }
}

/// A line as a key, where it stands: two are equal where all their parts are.
#[derive(Drop)]
pub struct BorrowedKey<'a> {
    line: &'a Line,
}

impl<'a> Model for BorrowedKey<'a> {
    ghost use Rattle.derive_lines.specs.declared.parts.Line.{Line};

    ghost Value = { Line };

    ghost view = { λ k. k.line.now };
}

impl<'a> BorrowedKey<'a> {
    /// The key of a line.
    pub fn of(line: &'a Line) -> BorrowedKey<'a>
        ensures { result ≡ line.now }
    {
        BorrowedKey { line }
    }

    /// The line.
    pub fn line(&self) -> &'a Line
        ensures { result.now ≡ self.now }
    {
        self.line
    }
}

impl<'a> PartialEq for BorrowedKey<'a> {
    ghost use Rattle.std.specs.Cmp.{partial_equiv_from_equiv};
    ghost use Rattle.cert_text.specs.Tables.{is_same};
    ghost use Rattle.cert_text.specs.TableLaws.{lines, equivalence};

    ghost eq = { is_same };

    ghost laws = { partial_equiv_from_equiv (equivalence lines) };

    fn eq(&self, other: &BorrowedKey<'a>) -> bool {
        is_same_line(self.line, other.line)
    }
}

impl<'a> Eq for BorrowedKey<'a> {
    ghost use Rattle.cert_text.specs.TableLaws.{lines, equivalence};

    ghost laws = { equivalence lines };
}

impl<'a> Hash for BorrowedKey<'a> {
    ghost use Rattle.cert_text.specs.Hashing.{line_input, line_input-respects};

    ghost hash_input = { line_input };

    ghost respects_eq = { line_input-respects };

    fn hash<H: Hasher>(&self, state: &mut H) {
        hash_line(self.line, state);
    }
}

// Whether two lines are the same.
fn is_same_line(first: &Line, second: &Line) -> bool
    ensures { result ≡ is_same first.now second.now }
{
    is_same_way(first.way, second.way)
        && is_same_reference(first.from, second.from)
        && is_same_reference(first.by, second.by)
        && first.l == second.l
        && first.a == second.a
        && first.m == second.m
        && first.made == second.made
}

fn is_same_way(first: Way, second: Way) -> bool
    ensures { result ≡ is_same_way first second }
{
    matches!(
        (first, second),
        (Way::Fwd, Way::Fwd) | (Way::Back, Way::Back)
    )
}

fn is_same_reference(first: Option<Item>, second: Option<Item>) -> bool
    ensures { result ≡ option_eq is_same_item first second }
{
    match (first, second) {
        (None, None) => true,
        (Some(Item::Root(i)), Some(Item::Root(j))) => i == j,
        (Some(Item::Decision(i)), Some(Item::Decision(j))) => i == j,
        (Some(Item::Line(i)), Some(Item::Line(j))) => i == j,
        _ => false,
    }
}

// What a line refers to, and its polynomials.
fn hash_line<H: Hasher>(line: &Line, state: &mut H)
    ensures { state.new ≡ fold H.write state.old (line_input line.now) }
{
    hash_reference(line.from, state);
    hash_reference(line.by, state);
    line.l.hash(state);
    line.a.hash(state);
    line.m.hash(state);
    line.made.hash(state);
}

fn hash_reference<H: Hasher>(item: Option<Item>, state: &mut H)
    ensures { state.new ≡ fold H.write state.old (reference_input item) }
{
    match item {
        None => state.write_u8(0),
        Some(Item::Root(i)) => {
            state.write_u8(1);
            state.write_u64(i);
        }
        Some(Item::Decision(i)) => {
            state.write_u8(2);
            state.write_u64(i);
        }
        Some(Item::Line(i)) => {
            state.write_u8(3);
            state.write_u64(i);
        }
    }
}
