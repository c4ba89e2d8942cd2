//! What a worker does with a case.
ghost use Rattle.std.specs.Prelude.{◌≡◌, ◌≤◌, IfOk};
ghost use mathlib.Core.List.{IsPrefix};
ghost use Rattle.turn_lock.specs.Lock.{seat_seen};
ghost use Rattle.case_rules.specs.Belonging.{Belongs};
ghost use Rattle.case_rules.specs.Ends.{IsEnd};
ghost use Rattle.board_turns.specs.Seen.{seen_board, IsBoardSeat};
ghost use Rattle.board_turns.specs.Jobs.{AreOfBoard};

use crate::gate::Gate;
use board_turns::{RootCopy, look, settle};
use case_ledger::{Board, Look, Reply};
use case_rules::Outcome;
use case_split::run_case;
use case_state::{Case, SharedCase};
use leaf_cert::Leaf;
use legal_history::case_law;
use refute_cert::Refutation;
use std::alloc::{AllocError, Global};
use std::sync::Wait;
use turn_lock::{TurnSeat, Turns};

/// What a worker has outside the lock: the root and the budget, its number, and the gate.
#[derive(Drop)]
pub struct CaseRunner<'a, G: Gate> {
    pub root: &'a RootCopy,
    pub worker: u32,
    pub gate: &'a G,
}

impl<'a, G: Gate> CaseRunner<'a, G> {
    /// Looks at case n, and where it is pending runs it and settles it with its end. The reply is that of the board, and `None` where the case was not
    /// pending at the look. No turn is held while the case runs or waits at the gate. It fails only where no memory is left.
    pub fn work_on<R: Wait>(
        &self,
        rt: &R,
        alloc: Global,
        turns: &Turns<Board>,
        seat: &mut TurnSeat<Board>,
        n: u64,
    ) -> Result<Option<Reply>, AllocError>
        requires seat { IsBoardSeat turns.now seat.old }
        requires root { AreOfBoard (seen_board turns.now seat.old) self.now.root.now }
        ensures seat { IsBoardSeat turns.now seat.new }
        ensures seen { IsPrefix (seat_seen seat.old) (seat_seen seat.new) }
    {
        case_law();
        let Look::Pending(pending) = look(rt, turns, seat, n)? else {
            return Ok(None);
        };
        let _list = self.root.equations();
        let outcome = self.run(rt, alloc, pending.case(), n)?;
        match settle(rt, alloc, turns, seat, n, outcome) {
            Ok(reply) => Ok(Some(reply)),
            Err(_) => Err(AllocError),
        }
    }

    // The end of the case, with which the worker has then passed the gate.
    fn run<R: Wait>(
        &self,
        rt: &R,
        alloc: Global,
        case: &Case,
        n: u64,
    ) -> Result<Outcome<SharedCase, Refutation, Leaf>, AllocError>
        requires belongs { Belongs self.now.root.now.equations case.now }
        requires within { case.now.moves ≤ self.now.root.now.budget }
        ensures { IfOk result (IsEnd self.now.root.now.equations self.now.root.now.budget case.now) }
    {
        let outcome = run_case(alloc, self.root.equations(), case, self.root.budget())?;
        self.gate.arrive(rt, self.worker, n);
        Ok(outcome)
    }
}
