//! What a thread does with the board, at a turn each.
ghost use Rattle.std.specs.Prelude.{◌≡◌, IfOk, IfErr, MatchOption};
ghost use mathlib.Core.List.{IsPrefix};
ghost use Rattle.turn_lock.specs.Lock.{seat_seen};
ghost use Rattle.case_history.specs.History.{IsLeastPending, IsComplete};
ghost use Rattle.legal_history.specs.Legal.{IsEndOf};
ghost use Rattle.case_ledger.specs.Board.{IsLook};
ghost use Rattle.board_turns.specs.Seen.{seen_board, IsBoardSeat};
ghost use Rattle.board_turns.specs.Jobs.{SettlesLater};

use crate::jobs::{LeastJob, LookJob};
use crate::seen::SeenBoard;
use crate::settling::SettleJob;
use case_ledger::{Board, Look, Reply, Unsettled};
use case_rules::Outcome;
use case_state::SharedCase;
use leaf_cert::Leaf;
use refute_cert::Refutation;
use std::alloc::{AllocError, Global};
use std::sync::Wait;
use turn_lock::{TurnSeat, Turns};

/// What became of case n, with the case itself where it is pending, on the board that the seat has then seen. It fails only where no memory is left.
pub fn look<R: Wait>(
    rt: &R,
    turns: &Turns<Board>,
    seat: &mut TurnSeat<Board>,
    n: u64,
) -> Result<Look, AllocError>
    requires { IsBoardSeat turns.now seat.old }
    ensures seat { IsBoardSeat turns.now seat.new }
    ensures seen { IsPrefix (seat_seen seat.old) (seat_seen seat.new) }
    ensures look { IfOk result (IsLook (seen_board turns.now seat.new) n) }
{
    let seen = SeenBoard::of(turns, seat);
    turns.with_turn(rt, seat, &mut LookJob { seen, n })
}

/// The least pending case of the board that the seat has then seen, and `None` exactly where none is pending.
pub fn least_pending<R: Wait>(
    rt: &R,
    turns: &Turns<Board>,
    seat: &mut TurnSeat<Board>,
) -> Option<u64>
    requires { IsBoardSeat turns.now seat.old }
    ensures seat { IsBoardSeat turns.now seat.new }
    ensures seen { IsPrefix (seat_seen seat.old) (seat_seen seat.new) }
    ensures least { MatchOption result (IsComplete (seen_board turns.now seat.new).history) (IsLeastPending (seen_board turns.now seat.new).history) }
{
    let seen = SeenBoard::of(turns, seat);
    turns.with_turn(rt, seat, &mut LeastJob { seen })
}

/// Settles case n with an outcome, which is its end on the board that the seat had seen. The board that is found goes on from that one, and the reply
/// is what a board of one thread replies there. It fails only where no memory is left, and hands the outcome back.
pub fn settle<R: Wait>(
    rt: &R,
    alloc: Global,
    turns: &Turns<Board>,
    seat: &mut TurnSeat<Board>,
    n: u64,
    outcome: Outcome<SharedCase, Refutation, Leaf>,
) -> Result<Reply, Unsettled>
    requires seat { IsBoardSeat turns.now seat.old }
    requires ends { IsEndOf (seen_board turns.now seat.old).root.equations (seen_board turns.now seat.old).budget (seen_board turns.now seat.old).history n outcome }
    ensures seat { IsBoardSeat turns.now seat.new }
    ensures seen { IsPrefix (seat_seen seat.old) (seat_seen seat.new) }
    ensures ok { IfOk result (λ reply. SettlesLater (seen_board turns.now seat.old) n outcome reply (seen_board turns.now seat.new)) }
    ensures err { IfErr result (λ e. e.outcome ≡ outcome) }
{
    let seen = SeenBoard::of(turns, seat);
    let mut job = SettleJob::new(alloc, seen, n, outcome);
    let Some(reply) = turns.with_turn(rt, seat, &mut job) else {
        unreachable!()
    };
    reply
}
