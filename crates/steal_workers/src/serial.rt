//! A search on one worker.
ghost use Rattle.std.specs.Prelude.{◌≡◌, ◌<◌, ℕ, OnOk, OnErr};
ghost use Rattle.case_history.specs.History.{IsPending, IsLeastPending, IsComplete};
ghost use Rattle.legal_history.specs.Work.{work_left};
ghost use Rattle.case_ledger.specs.Board.{GoesOn, StepsOn};

use case_ledger::{Board, settle_law};
use case_split::run_case;
use legal_history::case_law;
use std::alloc::{AllocError, Global};

/// Settles the least pending case with its end, until no case is pending. So from a new board it makes the serial history. Where no memory is left,
/// the board has gone on so far, and some case is pending.
pub fn finish(alloc: Global, board: &mut Board) -> Result<(), AllocError>
    ensures goes_on { GoesOn IsLeastPending board.old board.new }
    ensures ok { OnOk result (IsComplete board.new.history) }
    ensures err { OnErr result ((n : ℕ) × IsPending board.new.history n) }
{
    settle_law();
    while let Some(n) = board.least_pending() {
        settle_least(alloc, board, n)?;
    }
    Ok(())
}

// Settles case n, which is the least pending one.
fn settle_least(alloc: Global, board: &mut Board, n: u64) -> Result<(), AllocError>
    requires { IsLeastPending board.old.history n }
    ensures ok { OnOk result (StepsOn IsLeastPending board.old board.new) }
    ensures less { OnOk result (work_left board.new.budget board.new.history < work_left board.old.budget board.old.history) }
    ensures err { OnErr result (board.new ≡ board.old) }
{
    settle_law();
    case_law();
    let Some(case) = board.pending_case(n) else {
        unreachable!();
    };
    let outcome = run_case(alloc, board.root().equations(), case, board.budget())?;
    match board.settle(alloc, n, outcome) {
        Ok(_) => Ok(()),
        Err(_) => Err(AllocError),
    }
}
