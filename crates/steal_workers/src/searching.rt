//! The whole search.
ghost use Rattle.std.specs.Prelude.{◌≡◌, ◌≤◌, IfOk};
ghost use Rattle.case_history.specs.History.{IsLeastPending, IsComplete};
ghost use Rattle.case_ledger.specs.Board.{GoesOn};
ghost use Rattle.case_ledger.specs.Origins.{Continues};

use crate::gate::Gate;
use crate::pool::run_workers;
use crate::serial::finish;
use case_ledger::Board;
use std::alloc::{AllocError, Global};
use std::sync::Wait;
use std::thread::Threads;

/// Searches on so many workers until no case is pending. The board goes on from the one that was handed in, and on one worker it is always the least
/// pending case that is settled next. It fails only where no memory is left.
pub fn search<R: Threads + Wait + Sync, G: Gate + Sync>(
    rt: &R,
    alloc: Global,
    board: Board,
    workers: u32,
    gate: &G,
) -> Result<Board, AllocError>
    requires { (1 ≤ workers) × (workers ≤ 64) }
    ensures goes_on { IfOk result (Continues board) }
    ensures complete { IfOk result (λ b. IsComplete b.history) }
    ensures serial { workers ≡ 1 → IfOk result (GoesOn IsLeastPending board) }
{
    let mut board = on_several(rt, alloc, board, workers, gate)?;
    finish(alloc, &mut board)?;
    Ok(board)
}

// What several workers make of the board; one worker leaves it as it is.
fn on_several<R: Threads + Wait + Sync, G: Gate + Sync>(
    rt: &R,
    alloc: Global,
    board: Board,
    workers: u32,
    gate: &G,
) -> Result<Board, AllocError>
    requires { workers ≤ 64 }
    ensures goes_on { IfOk result (Continues board) }
    ensures same { workers ≡ 1 → IfOk result (λ b. b ≡ board) }
{
    if workers < 2 {
        return Ok(board);
    }
    match run_workers(rt, alloc, board, workers, gate) {
        Ok(ran) => Ok(ran.board),
        Err(_) => Err(AllocError),
    }
}
