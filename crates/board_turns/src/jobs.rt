//! Jobs that leave the board as it is.
ghost use Rattle.std.specs.Prelude.{◌≡◌, [], IfOk, MatchOption, reverse};
ghost use Rattle.case_history.specs.History.{IsLeastPending, IsComplete};
ghost use Rattle.case_ledger.specs.Board.{IsLook};
ghost use Rattle.case_ledger.specs.Origins.{origin_of, board_after};

use crate::seen::SeenBoard;
use case_ledger::{Board, Look};
use std::alloc::AllocError;
use turn_lock::Job;

/// To look at case n. The reply is what became of it, with the case itself where it is pending.
#[derive(Drop)]
pub struct LookJob {
    pub seen: SeenBoard,
    pub n: u64,
}

impl Job<Board> for LookJob {
    type Reply = Result<Look, AllocError>;

    ghost from = { λ j. origin_of j.seen };

    ghost base = { λ _. [] };

    ghost test = { λ j found left reply. (left ≡ found) × IfOk reply (IsLook (board_after (origin_of j.seen) found) j.n) };

    fn act(&mut self, board: &mut Board) -> Result<Look, AllocError> {
        board.look(self.n)
    }
}

/// To find the least pending case. The reply is its number, and `None` exactly where no case is pending.
#[derive(Drop)]
pub struct LeastJob {
    pub seen: SeenBoard,
}

impl Job<Board> for LeastJob {
    type Reply = Option<u64>;

    ghost from = { λ j. origin_of j.seen };

    ghost base = { λ _. [] };

    ghost test = { λ _ found left reply. (left ≡ found) × MatchOption reply (IsComplete (reverse found)) (IsLeastPending (reverse found)) };

    fn act(&mut self, board: &mut Board) -> Option<u64> {
        board.least_pending()
    }
}
