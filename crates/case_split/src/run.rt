//! The strategy on one case.
ghost use Rattle.std.specs.Prelude.{◌≤◌, IfOk};
ghost use Rattle.case_rules.specs.Belonging.{Belongs};
ghost use Rattle.case_rules.specs.Ends.{IsEnd};

use crate::conditions::settled;
use crate::dead::{dead_after, dead_at};
use crate::ends::{dead, leaf, split, stopped_reduction};
use crate::linear::{Passed, Progress, done_after, left_of, moved_by, passed_after, passed_left};
use crate::rules::{Operands, due_move};
use case_rules::{Move, Outcome, belongs_law, move_law};
use case_state::{Case, SharedCase};
use leaf_cert::{Leaf, LeafEnd, OpenCause};
use refute_cert::Refutation;
use sparse_poly::Poly;
use std::alloc::{AllocError, Global};

/// The end of the strategy on a case that belongs to a root, with a budget of moves. Moves are made while one is due: a reduction goes on, and a
/// split ends with both branches. A case that is dead, or in which no move is due and a known condition has the full remainder zero by the
/// equations, ends with its refutation. It ends as a leaf where no move is due, where the budget is used up, or where the step of the move is of
/// too high degree or heavy. It fails only where no memory is left.
pub fn run_case(
    alloc: Global,
    root: &[Poly],
    case: &Case,
    budget: u32,
) -> Result<Outcome<SharedCase, Refutation, Leaf>, AllocError>
    requires belongs { Belongs root.now case.now }
    requires within { case.now.moves ≤ budget }
    ensures { IfOk result (IsEnd root.now budget case.now) }
{
    belongs_law();
    move_law();
    let mut now = case.copy()?;
    if let Some(i) = dead_at(&now) {
        return dead(alloc, root, &now, i);
    }
    let mut progress = Progress {
        done: 0,
        passed: Passed { var: 0, first: 0 },
    };
    'moves: loop {
        let Some(due) = due_move(alloc, &now, &mut progress)? else {
            return settled(alloc, root, &now);
        };
        if now.moves() >= budget {
            let leaf = leaf(alloc, root, &now, LeafEnd::Open(OpenCause::Budget))?;
            return Ok(Outcome::Leaf(leaf));
        }
        let operands = match due {
            Move::Split { by, tail } => {
                now.share()?;
                return split(alloc, root, &now, by, tail);
            }
            Move::Reduce { q, p, v } => Operands { q, p, var: v },
        };
        let at = match now.reduce_at(operands.q, operands.p, operands.var) {
            Ok(at) => at,
            Err(fault) => return stopped_reduction(alloc, root, &now, operands, fault),
        };
        if let Some(i) = dead_after(&now, at) {
            return dead(alloc, root, &now, i);
        }
        progress = Progress {
            done: done_after(&now, moved_by(left_of(progress.done, operands.q), at), at),
            passed: passed_after(&now, passed_left(progress.passed, operands.q), at),
        };
    }
}
