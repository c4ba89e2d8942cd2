//! What a thread knows of the board under a lock.
ghost use Rattle.std.specs.Prelude.{◌≡◌};
ghost use Rattle.board_turns.specs.Seen.{seen_board};

use case_ledger::Board;
use std::marker::Model;
use std::snapshot::Snapshot;
use turn_lock::{TurnSeat, Turns};

/// The board as a seat has seen it: the root and the budget of its lock, and the history that the seat has seen. It takes no bytes.
#[derive(Drop)]
pub struct SeenBoard {
    lock: Snapshot<Turns<Board>>,
    seat: Snapshot<TurnSeat<Board>>,
}

impl Model for SeenBoard {
    ghost use Rattle.case_ledger.specs.State.{BoardState};
    ghost use Rattle.board_turns.specs.Seen.{seen_board};

    ghost Value = { BoardState };

    ghost view = { λ s. seen_board s.lock.value s.seat.value };
}

impl SeenBoard {
    /// The board as the seat has seen it now.
    pub fn of(turns: &Turns<Board>, seat: &TurnSeat<Board>) -> SeenBoard
        ensures { result ≡ seen_board turns.now seat.now }
    {
        SeenBoard {
            lock: Snapshot::of(turns),
            seat: Snapshot::of(seat),
        }
    }
}
