//! The check of lines forwards.
ghost use Rattle.std.specs.Prelude.{◌≡◌, ◌↔◌, IfOk, IsTrue, MatchOption, MatchResult};
ghost use Rattle.derive_lines.specs.Lines.{conditions, multiplier, AreGoodLines, IsGoodLine, IsBadLine};
ghost use Rattle.sparse_poly.specs.Clearing.{IsUnit};
ghost use Rattle.derive_lines.specs.Answers.{IsLineStop};

use crate::parts::{Decision, Line, LineCause, LineStop, Way};
use crate::references::{before, conditions, fits_by, fits_from, operand};
use crate::sides::compare_sides;
use sparse_poly::Poly;
use std::alloc::{AllocError, Global};

/// Checks that all lines are good, each over the lines before it. `BadLine` comes exactly where a line is bad: it names the first one, and its
/// first cause in the order of `LineCause`. `Lost` never comes.
pub fn check_lines(
    alloc: Global,
    root: &[Poly],
    decisions: &[Decision],
    lines: &[Line],
) -> Result<(), LineStop>
    ensures { MatchResult result (λ _. AreGoodLines root.now decisions.now lines.now) (IsLineStop root.now decisions.now lines.now) }
{
    let units = conditions(alloc, decisions)?;
    for (k, line) in lines.iter().enumerate() {
        if let Some(cause) = bad_cause(alloc, root, decisions, before(lines, k), &units, line)? {
            return Err(LineStop::BadLine { k: k as u64, cause });
        }
    }
    Ok(())
}

// The first cause for which a line is bad, if it is.
fn bad_cause(
    alloc: Global,
    root: &[Poly],
    decisions: &[Decision],
    before: &[Line],
    units: &[Poly],
    line: &Line,
) -> Result<Option<LineCause>, AllocError>
    requires { units.now ≡ conditions decisions.now }
    ensures { IfOk result (λ o. MatchOption o (IsGoodLine root.now decisions.now before.now line.now) (IsBadLine root.now decisions.now before.now line.now)) }
{
    let zero = Poly::zero(alloc);
    let Some(from) = operand(root, decisions, before, &zero, line.from) else {
        return Ok(Some(LineCause::Reference));
    };
    let Some(by) = operand(root, decisions, before, &zero, line.by) else {
        return Ok(Some(LineCause::Reference));
    };
    if !fits_by(line) {
        return Ok(Some(LineCause::Reference));
    }
    if !fits_from(line) {
        return Ok(Some(LineCause::Reference));
    }
    if !multiplier_is_unit(line, units)? {
        return Ok(Some(LineCause::Multiplier));
    }
    match line.way {
        Way::Fwd => compare_sides(alloc, line, from, by, &line.made),
        Way::Back => compare_sides(alloc, line, &line.made, by, from),
    }
}

// Whether the multiplier of a line is a unit.
fn multiplier_is_unit(line: &Line, units: &[Poly]) -> Result<bool, AllocError>
    ensures { IfOk result (λ b. IsTrue b ↔ IsUnit units.now (multiplier line.now)) }
{
    match line.way {
        Way::Fwd => line.m.is_unit(units),
        Way::Back => line.l.is_unit(units),
    }
}
