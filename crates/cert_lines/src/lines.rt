//! What a line says, read by its kind.
ghost use Rattle.std.specs.Prelude.{ℕ, codes, IfOk, MatchResult};
ghost use Rattle.cert_text.specs.Fields.{version_text, way_text, step_word, stop_fields, cause_fields, leaf_end_fields};
ghost use Rattle.cert_lines.specs.Forms.{OneOf, stop_form, cause_form, end_form};
ghost use Rattle.cert_text.specs.Numbers.{HasStopInRange, HasCauseInRange, HasEndInRange};
ghost use Rattle.leaf_cert.specs.Variables.{HasStopVariablesBelow, HasCauseVariablesBelow, HasEndVariablesBelow};
ghost use Rattle.cert_lines.specs.Words.{left};
ghost use Rattle.cert_lines.specs.LineReading.{IsFieldRead, AreFieldsRead, IsSaid, IsLineFault};

use crate::fields::FieldReader;
use crate::kind::Kind;
use crate::notes::LineFault;
use cert_text::{Sentence, Version};
use derive_lines::{Decision, Line, Way};
use leaf_cert::{LeafEnd, OpenCause, StepKind, Stop};
use std::alloc::{AllocError, Global};

fn title(line: &[u8]) -> Result<Sentence, LineFault>
    ensures { (u : ℕ) → MatchResult result (IsSaid u line.now) (IsLineFault u Kind.Title line.now) }
{
    let mut fields = FieldReader::of(line);
    fields.word(b"braidcert");
    let version = version(&mut fields);
    fields.end();
    fields.notes.judge(Sentence::Title(version))
}

fn version(fields: &mut FieldReader<'_>) -> Version
    ensures { (u : ℕ) → IsFieldRead u (OneOf (codes "1") (codes "2")) (left fields.old.part) (left fields.new.part) fields.old.notes fields.new.notes (version_text result) (Unit {0}) }
{
    if fields.one_of(b"1", b"2") {
        Version::One
    } else {
        Version::Two
    }
}

fn unknowns(line: &[u8]) -> Result<Sentence, LineFault>
    ensures { (u : ℕ) → MatchResult result (IsSaid u line.now) (IsLineFault u Kind.Unknowns line.now) }
{
    let mut fields = FieldReader::of(line);
    let number = fields.count(b"unknowns", 4096);
    fields.notes.judge(Sentence::Unknowns(number as u32))
}

fn equations(line: &[u8]) -> Result<Sentence, LineFault>
    ensures { (u : ℕ) → MatchResult result (IsSaid u line.now) (IsLineFault u Kind.Equations line.now) }
{
    let mut fields = FieldReader::of(line);
    let number = fields.count(b"equations", 65_536);
    fields.notes.judge(Sentence::Equations(number as u32))
}

fn budget(line: &[u8]) -> Result<Sentence, LineFault>
    ensures { (u : ℕ) → MatchResult result (IsSaid u line.now) (IsLineFault u Kind.Budget line.now) }
{
    let mut fields = FieldReader::of(line);
    let number = fields.count(b"budget", 1_000_000);
    fields.notes.judge(Sentence::Budget(number as u32))
}

fn size(line: &[u8]) -> Result<Sentence, LineFault>
    ensures { (u : ℕ) → MatchResult result (IsSaid u line.now) (IsLineFault u Kind.Lines line.now) }
{
    let mut fields = FieldReader::of(line);
    let number = fields.count(b"lines", u64::MAX);
    fields.notes.judge(Sentence::Lines(number))
}

fn split(alloc: Global, unknowns: u32, line: &[u8]) -> Result<Sentence, LineFault>
    ensures { MatchResult result (IsSaid unknowns line.now) (IsLineFault unknowns Kind.Split line.now) }
{
    let mut fields = FieldReader::of(line);
    fields.word(b"split");
    let n = fields.number(u64::MAX);
    let by = fields.poly(alloc, unknowns)?;
    fields.end();
    fields.notes.judge(Sentence::Split { n, by })
}

fn post(line: &[u8]) -> Result<Sentence, LineFault>
    ensures { (u : ℕ) → MatchResult result (IsSaid u line.now) (IsLineFault u Kind.Post line.now) }
{
    let mut fields = FieldReader::of(line);
    fields.word(b"post");
    fields.end();
    fields.notes.judge(Sentence::Post)
}

fn close(line: &[u8]) -> Result<Sentence, LineFault>
    ensures { (u : ℕ) → MatchResult result (IsSaid u line.now) (IsLineFault u Kind.Close line.now) }
{
    let mut fields = FieldReader::of(line);
    fields.word(b"close");
    let n = fields.number(u64::MAX);
    let k = fields.number(u64::MAX);
    fields.end();
    fields.notes.judge(Sentence::Close { n, k })
}

fn step(fields: &mut FieldReader<'_>) -> StepKind
    ensures { (u : ℕ) → IsFieldRead u (OneOf (codes "reduce") (codes "tail")) (left fields.old.part) (left fields.new.part) fields.old.notes fields.new.notes (step_word result) (Unit {0}) }
{
    if fields.one_of(b"reduce", b"tail") {
        StepKind::Reduce
    } else {
        StepKind::Tail
    }
}

// The rest of a line of a leaf that is open for a stopped step.
fn stop(alloc: Global, unknowns: u32, fields: &mut FieldReader<'_>) -> Result<Stop, AllocError>
    ensures { IfOk result (λ s. AreFieldsRead unknowns stop_form (left fields.old.part) fields.old.notes fields.new.notes (stop_fields s) (HasStopInRange s × HasStopVariablesBelow unknowns s)) }
{
    let step = step(fields);
    let v = fields.variable(unknowns);
    let q = fields.poly(alloc, unknowns)?;
    let p = fields.poly(alloc, unknowns)?;
    fields.end();
    Ok(Stop { step, v, q, p })
}

// The rest of a line of a leaf that is open.
fn cause(
    alloc: Global,
    unknowns: u32,
    fields: &mut FieldReader<'_>,
) -> Result<OpenCause, AllocError>
    ensures { IfOk result (λ x. AreFieldsRead unknowns cause_form (left fields.old.part) fields.old.notes fields.new.notes (cause_fields x) (HasCauseInRange x × HasCauseVariablesBelow unknowns x)) }
{
    if fields.passes(b"budget") {
        fields.end();
        return Ok(OpenCause::Budget);
    }
    let coefficient = fields.one_of(b"coefficient", b"degree");
    let stopped = stop(alloc, unknowns, fields)?;
    if coefficient {
        Ok(OpenCause::Coefficient(stopped))
    } else {
        Ok(OpenCause::Degree(stopped))
    }
}

// The rest of a line of a leaf, behind its number.
fn leaf_end(
    alloc: Global,
    unknowns: u32,
    fields: &mut FieldReader<'_>,
) -> Result<LeafEnd, AllocError>
    ensures { IfOk result (λ x. AreFieldsRead unknowns end_form (left fields.old.part) fields.old.notes fields.new.notes (leaf_end_fields x) (HasEndInRange x × HasEndVariablesBelow unknowns x)) }
{
    if fields.passes(b"triangular") {
        fields.end();
        return Ok(LeafEnd::Triangular);
    }
    fields.word(b"open");
    let cause = cause(alloc, unknowns, fields)?;
    Ok(LeafEnd::Open(cause))
}

fn leaf(alloc: Global, unknowns: u32, line: &[u8]) -> Result<Sentence, LineFault>
    ensures { MatchResult result (IsSaid unknowns line.now) (IsLineFault unknowns Kind.Leaf line.now) }
{
    let mut fields = FieldReader::of(line);
    fields.word(b"leaf");
    let n = fields.number(u64::MAX);
    let end = leaf_end(alloc, unknowns, &mut fields)?;
    fields.notes.judge(Sentence::Leaf { n, end })
}

fn decided(alloc: Global, unknowns: u32, line: &[u8]) -> Result<Sentence, LineFault>
    ensures { MatchResult result (IsSaid unknowns line.now) (IsLineFault unknowns Kind.Decided line.now) }
{
    let mut fields = FieldReader::of(line);
    let zero = fields.one_of(b"zero", b"nonzero");
    let poly = fields.poly(alloc, unknowns)?;
    fields.end();
    fields
        .notes
        .judge(Sentence::Decided(Decision { poly, zero }))
}

fn derived(alloc: Global, unknowns: u32, line: &[u8]) -> Result<Sentence, LineFault>
    ensures { MatchResult result (IsSaid unknowns line.now) (IsLineFault unknowns Kind.Derived line.now) }
{
    let mut fields = FieldReader::of(line);
    let way = way(&mut fields);
    let from = fields.reference();
    let by = fields.reference();
    let l = fields.poly(alloc, unknowns)?;
    let a = fields.poly(alloc, unknowns)?;
    let m = fields.poly(alloc, unknowns)?;
    let made = fields.poly(alloc, unknowns)?;
    fields.end();
    fields.notes.judge(Sentence::Derived(Line {
        way,
        from,
        by,
        l,
        a,
        m,
        made,
    }))
}

fn way(fields: &mut FieldReader<'_>) -> Way
    ensures { (u : ℕ) → IsFieldRead u (OneOf (codes "fwd") (codes "back")) (left fields.old.part) (left fields.new.part) fields.old.notes fields.new.notes (way_text result) (Unit {0}) }
{
    if fields.one_of(b"fwd", b"back") {
        Way::Fwd
    } else {
        Way::Back
    }
}

fn placed(line: &[u8]) -> Result<Sentence, LineFault>
    ensures { (u : ℕ) → MatchResult result (IsSaid u line.now) (IsLineFault u Kind.Use line.now) }
{
    let mut fields = FieldReader::of(line);
    let place = fields.count(b"use", u64::MAX - 1);
    fields.notes.judge(Sentence::Use(place))
}

fn end(line: &[u8]) -> Result<Sentence, LineFault>
    ensures { (u : ℕ) → MatchResult result (IsSaid u line.now) (IsLineFault u Kind.End line.now) }
{
    let mut fields = FieldReader::of(line);
    fields.word(b"end");
    let item = fields.item();
    fields.end();
    fields.notes.judge(Sentence::End(item))
}

fn equation(alloc: Global, unknowns: u32, line: &[u8]) -> Result<Sentence, LineFault>
    ensures { MatchResult result (IsSaid unknowns line.now) (IsLineFault unknowns Kind.Equation line.now) }
{
    let mut fields = FieldReader::of(line);
    fields.word(b"eq");
    let poly = fields.poly(alloc, unknowns)?;
    fields.end();
    fields.notes.judge(Sentence::Equation(poly))
}

fn done(line: &[u8]) -> Result<Sentence, LineFault>
    ensures { (u : ℕ) → MatchResult result (IsSaid u line.now) (IsLineFault u Kind.Done line.now) }
{
    let mut fields = FieldReader::of(line);
    let number = fields.count(b"done", u64::MAX);
    fields.notes.judge(Sentence::Done(number))
}

/// What a line of this kind, without its LF, says, where there are `unknowns` unknowns. `Number` comes exactly where the line has the form of its
/// kind and a number in it is out of range, and `Syntax` exactly where it is not right for another cause: a field is missing, is too much or has
/// not its form, or a polynomial is not in its one spelling. `OutOfMemory` comes only where no memory is left.
pub fn read_sentence(
    alloc: Global,
    unknowns: u32,
    kind: Kind,
    line: &[u8],
) -> Result<Sentence, LineFault>
    ensures { MatchResult result (IsSaid unknowns line.now) (IsLineFault unknowns kind line.now) }
{
    match kind {
        Kind::Title => title(line),
        Kind::Unknowns => self::unknowns(line),
        Kind::Equations => equations(line),
        Kind::Budget => budget(line),
        Kind::Lines => size(line),
        Kind::Split => split(alloc, unknowns, line),
        Kind::Post => post(line),
        Kind::Close => close(line),
        Kind::Leaf => leaf(alloc, unknowns, line),
        Kind::Decided => decided(alloc, unknowns, line),
        Kind::Derived => derived(alloc, unknowns, line),
        Kind::Use => placed(line),
        Kind::End => end(line),
        Kind::Equation => equation(alloc, unknowns, line),
        Kind::Done => done(line),
    }
}
