//! The parts of lines, written.
ghost use Rattle.std.specs.Prelude.{◌≡◌, ◌++◌, ◌∷◌, [], OnOk, decimal, codes};
ghost use Rattle.sparse_poly.specs.Contributions.{IsPoly};
ghost use Rattle.poly_text.specs.Text.{poly_text};
ghost use Rattle.cert_text.specs.Fields.{further, ended, item_text, reference_text, way_text, step_word, decision_fields, line_fields, stop_fields, cause_fields, leaf_end_fields};
ghost use Rattle.cert_text.specs.Numbers.{HasItemInRange, HasReferenceInRange, HasDecisionInRange, HasLineInRange, HasStopInRange, HasCauseInRange, HasEndInRange};

use derive_lines::{Decision, Item, Line, Way};
use itoa::{Buffer, Integer};
use leaf_cert::{LeafEnd, OpenCause, StepKind, Stop};
use poly_text::write_poly;
use sparse_poly::Poly;
use std::alloc::AllocError;

pub(crate) fn push_text(text: &[u8], into: &mut Vec<u8>) -> Result<(), AllocError>
    ensures { OnOk result (into.new.items ≡ into.old.items ++ text.now) }
{
    into.extend_from_slice(text)?;
    Ok(())
}

pub(crate) fn push_number<I: Integer>(n: I, into: &mut Vec<u8>) -> Result<(), AllocError>
    ensures { OnOk result (into.new.items ≡ into.old.items ++ I.text n) }
{
    let mut buffer = Buffer::new();
    push_text(buffer.format(n).as_bytes(), into)
}

// A polynomial behind a space.
pub(crate) fn push_poly(p: &Poly, into: &mut Vec<u8>) -> Result<(), AllocError>
    ensures text { OnOk result (into.new.items ≡ into.old.items ++ (codes " " ++ poly_text p.now)) }
    ensures numbers { IsPoly p.now }
{
    let _terms = p.terms();
    push_text(b" ", into)?;
    write_poly(p, into)
}

// A line of a word and a number.
pub(crate) fn push_count<I: Integer>(
    word: &[u8],
    n: I,
    into: &mut Vec<u8>,
) -> Result<(), AllocError>
    ensures { OnOk result (into.new.items ≡ into.old.items ++ ended (word.now ∷ I.text n ∷ [])) }
{
    push_text(word, into)?;
    push_text(b" ", into)?;
    push_number(n, into)?;
    push_text(b"\n", into)
}

pub(crate) fn push_item(item: Item, into: &mut Vec<u8>) -> Result<(), AllocError>
    ensures text { OnOk result (into.new.items ≡ into.old.items ++ item_text item) }
    ensures numbers { OnOk result (HasItemInRange item) }
{
    match item {
        Item::Root(i) => {
            push_text(b"r", into)?;
            push_number(i, into)
        }
        Item::Decision(j) => {
            push_text(b"d", into)?;
            push_number(j, into)
        }
        Item::Line(k) => {
            push_text(b"l", into)?;
            push_number(k, into)
        }
    }
}

// A reference behind a space.
fn push_reference(item: Option<Item>, into: &mut Vec<u8>) -> Result<(), AllocError>
    ensures text { OnOk result (into.new.items ≡ into.old.items ++ (codes " " ++ reference_text item)) }
    ensures numbers { OnOk result (HasReferenceInRange item) }
{
    push_text(b" ", into)?;
    match item {
        None => push_text(b"-", into),
        Some(item) => push_item(item, into),
    }
}

pub(crate) fn push_decision(decision: &Decision, into: &mut Vec<u8>) -> Result<(), AllocError>
    ensures text { OnOk result (into.new.items ≡ into.old.items ++ ended (decision_fields decision.now)) }
    ensures numbers { OnOk result (HasDecisionInRange decision.now) }
{
    let word: &[u8] = if decision.zero { b"zero" } else { b"nonzero" };
    push_text(word, into)?;
    push_poly(&decision.poly, into)?;
    push_text(b"\n", into)
}

fn push_way(way: Way, into: &mut Vec<u8>) -> Result<(), AllocError>
    ensures { OnOk result (into.new.items ≡ into.old.items ++ way_text way) }
{
    match way {
        Way::Fwd => push_text(b"fwd", into),
        Way::Back => push_text(b"back", into),
    }
}

// What a line refers to.
fn push_references(line: &Line, into: &mut Vec<u8>) -> Result<(), AllocError>
    ensures text { OnOk result (into.new.items ≡ into.old.items ++ (codes " " ++ reference_text line.now.from ++ (codes " " ++ reference_text line.now.by))) }
    ensures from { OnOk result (HasReferenceInRange line.now.from) }
    ensures by { OnOk result (HasReferenceInRange line.now.by) }
{
    push_reference(line.from, into)?;
    push_reference(line.by, into)
}

// The polynomials of a line.
fn push_polys(line: &Line, into: &mut Vec<u8>) -> Result<(), AllocError>
    ensures text { OnOk result (into.new.items ≡ into.old.items ++ (codes " " ++ poly_text line.now.l ++ (codes " " ++ poly_text line.now.a ++ (codes " " ++ poly_text line.now.m ++ (codes " " ++ poly_text line.now.made))))) }
    ensures l { OnOk result (IsPoly line.now.l) }
    ensures a { OnOk result (IsPoly line.now.a) }
    ensures m { OnOk result (IsPoly line.now.m) }
    ensures made { OnOk result (IsPoly line.now.made) }
{
    push_poly(&line.l, into)?;
    push_poly(&line.a, into)?;
    push_poly(&line.m, into)?;
    push_poly(&line.made, into)
}

#[tactic(auto, using(crate::proofs::Joined::line_joined))]
pub(crate) fn push_line(line: &Line, into: &mut Vec<u8>) -> Result<(), AllocError>
    ensures text { OnOk result (into.new.items ≡ into.old.items ++ ended (line_fields line.now)) }
    ensures numbers { OnOk result (HasLineInRange line.now) }
{
    push_way(line.way, into)?;
    push_references(line, into)?;
    push_polys(line, into)?;
    push_text(b"\n", into)
}

fn push_step(step: StepKind, into: &mut Vec<u8>) -> Result<(), AllocError>
    ensures { OnOk result (into.new.items ≡ into.old.items ++ (codes " " ++ step_word step)) }
{
    match step {
        StepKind::Reduce => push_text(b" reduce", into),
        StepKind::Tail => push_text(b" tail", into),
    }
}

fn push_variable(v: u32, into: &mut Vec<u8>) -> Result<(), AllocError>
    ensures { OnOk result (into.new.items ≡ into.old.items ++ (codes " " ++ (codes "x" ++ decimal v))) }
{
    push_text(b" x", into)?;
    push_number(v, into)
}

// A stopped step without its polynomials.
fn push_place(stop: &Stop, into: &mut Vec<u8>) -> Result<(), AllocError>
    ensures { OnOk result (into.new.items ≡ into.old.items ++ (codes " " ++ step_word stop.now.step ++ (codes " " ++ (codes "x" ++ decimal stop.now.v)))) }
{
    push_step(stop.step, into)?;
    push_variable(stop.v, into)
}

#[tactic(auto, using(crate::proofs::Joined::stop_joined))]
fn push_stop(stop: &Stop, into: &mut Vec<u8>) -> Result<(), AllocError>
    ensures text { OnOk result (into.new.items ≡ into.old.items ++ further (stop_fields stop.now)) }
    ensures numbers { OnOk result (HasStopInRange stop.now) }
{
    push_place(stop, into)?;
    push_poly(&stop.q, into)?;
    push_poly(&stop.p, into)?;
    push_text(b"\n", into)
}

fn push_cause(cause: &OpenCause, into: &mut Vec<u8>) -> Result<(), AllocError>
    ensures text { OnOk result (into.new.items ≡ into.old.items ++ further (cause_fields cause.now)) }
    ensures numbers { OnOk result (HasCauseInRange cause.now) }
{
    match cause {
        OpenCause::Budget => push_text(b" budget\n", into),
        OpenCause::Coefficient(stop) => {
            push_text(b" coefficient", into)?;
            push_stop(stop, into)
        }
        OpenCause::Degree(stop) => {
            push_text(b" degree", into)?;
            push_stop(stop, into)
        }
    }
}

// The end of a leaf, behind its number.
pub(crate) fn push_leaf_end(end: &LeafEnd, into: &mut Vec<u8>) -> Result<(), AllocError>
    ensures text { OnOk result (into.new.items ≡ into.old.items ++ further (leaf_end_fields end.now)) }
    ensures numbers { OnOk result (HasEndInRange end.now) }
{
    match end {
        LeafEnd::Triangular => push_text(b" triangular\n", into),
        LeafEnd::Open(cause) => {
            push_text(b" open", into)?;
            push_cause(cause, into)
        }
    }
}
