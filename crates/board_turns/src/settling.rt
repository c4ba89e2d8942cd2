//! The job that settles a case.
ghost use Rattle.std.specs.Prelude.{◌≡◌};
ghost use Rattle.std.specs.declared.option.Option.TheVariants.{Some};
ghost use Rattle.legal_history.specs.Legal.{IsEndOf};
ghost use Rattle.board_turns.specs.Jobs.{SettlesOnce};
ghost use Rattle.case_ledger.specs.Origins.{origin_of, oldest_first};

use crate::seen::SeenBoard;
use case_ledger::{Board, Reply, Unsettled};
use case_rules::Outcome;
use case_state::SharedCase;
use leaf_cert::Leaf;
use legal_history::case_law;
use refute_cert::Refutation;
use std::alloc::Global;
use std::marker::Model;
use turn_lock::Job;

/// To settle case n with an outcome, which is the strategy's end for it on the board that was seen. It is done once: after that there is no outcome
/// left, and no reply.
#[derive(Drop)]
pub struct SettleJob {
    alloc: Global,
    seen: SeenBoard,
    n: u64,
    outcome: Option<Outcome<SharedCase, Refutation, Leaf>>,
}

impl Model for SettleJob {
    ghost use Rattle.board_turns.specs.Jobs.{Settling, IsEndSeen};

    ghost Value = { Settling };

    ghost view = { λ j. record { seen = j.seen; n = j.n; outcome = j.outcome } };

    ghost invariant = { λ j. IsEndSeen (record { seen = j.seen; n = j.n; outcome = j.outcome }) };
}

impl SettleJob {
    /// The job of case n, whose end on the board that was seen is the outcome.
    pub fn new(
        alloc: Global,
        seen: SeenBoard,
        n: u64,
        outcome: Outcome<SharedCase, Refutation, Leaf>,
    ) -> SettleJob
        requires { IsEndOf seen.root.equations seen.budget seen.history n outcome }
        ensures { result ≡ record { seen = seen; n = n; outcome = Some outcome } }
    {
        SettleJob {
            alloc,
            seen,
            n,
            outcome: Some(outcome),
        }
    }
}

impl Job<Board> for SettleJob {
    type Reply = Option<Result<Reply, Unsettled>>;

    ghost from = { λ j. origin_of j.seen };

    ghost base = { λ j. oldest_first j.seen };

    ghost test = { SettlesOnce };

    fn act(&mut self, board: &mut Board) -> Option<Result<Reply, Unsettled>> {
        case_law();
        let _root = board.root();
        let outcome = self.outcome.take()?;
        Some(board.settle(self.alloc, self.n, outcome))
    }
}
