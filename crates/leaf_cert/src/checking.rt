//! Whether parts are a leaf.
ghost use Rattle.std.specs.Prelude.{◌≡◌, MatchResult};
ghost use Rattle.leaf_cert.specs.Leaves.{GoodLeaf, IsLeafStop};

use crate::ending::end_checks;
use crate::ends::LeafEnd;
use crate::equations::first_bad_equation;
use crate::leaf::LeafStop;
use derive_lines::{Decision, Line, LineStop, check_back, check_lines, conditions};
use sparse_poly::Poly;
use std::alloc::Global;

/// Checks that parts are a good leaf over the root. The refusals come in the order of `LeafStop`, each exactly where it says.
pub fn check_leaf(
    alloc: Global,
    root: &[Poly],
    decisions: &[Decision],
    lines: &[Line],
    equations: &[Poly],
    end: &LeafEnd,
) -> Result<(), LeafStop>
    ensures { MatchResult result (λ _. GoodLeaf root.now (record { decisions = decisions.now; lines = lines.now; equations = equations.now; end = end.now })) (IsLeafStop root.now decisions.now lines.now equations.now end.now) }
{
    match check_lines(alloc, root, decisions, lines) {
        Ok(()) => {}
        Err(LineStop::BadLine { k, cause }) => return Err(LeafStop::Line { k, cause }),
        Err(LineStop::Lost { .. }) => unreachable!(),
        Err(LineStop::OutOfMemory) => return Err(LeafStop::OutOfMemory),
    }
    if let Some(i) = first_bad_equation(alloc, root, decisions, lines, equations)? {
        return Err(LeafStop::Equation { i: i as u64 });
    }
    match check_back(alloc, root, decisions, lines, equations) {
        Ok(()) => {}
        Err(LineStop::BadLine { .. }) => unreachable!(),
        Err(LineStop::Lost { item }) => return Err(LeafStop::Lost { item }),
        Err(LineStop::OutOfMemory) => return Err(LeafStop::OutOfMemory),
    }
    let units = conditions(alloc, decisions)?;
    if !end_checks(alloc, equations, &units, end)? {
        return Err(LeafStop::End);
    }
    Ok(())
}
