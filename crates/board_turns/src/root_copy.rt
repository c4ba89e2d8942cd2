//! The root outside the lock.
ghost use Rattle.std.specs.Prelude.{◌≡◌, IfOk};
ghost use Rattle.case_rules.specs.Belonging.{IsRootList};
ghost use Rattle.board_turns.specs.Jobs.{AreOfBoard};

use case_ledger::Board;
use case_state::copied_polys;
use sparse_poly::Poly;
use std::alloc::{AllocError, Global};
use std::marker::Model;

/// The equations of a root and the budget of its search, copied for a worker that runs cases outside the lock.
#[derive(Drop)]
pub struct RootCopy {
    equations: Vec<Poly>,
    budget: u32,
}

impl Model for RootCopy {
    ghost use Rattle.case_rules.specs.Belonging.{IsRootList};
    ghost use Rattle.board_turns.specs.Jobs.{RootParts};

    ghost Value = { RootParts };

    ghost view = { λ r. record { equations = r.equations.items; budget = r.budget } };

    ghost invariant = { λ r. IsRootList r.equations.items };
}

impl RootCopy {
    /// A copy from a board. It fails only where no memory is left.
    pub fn of(alloc: Global, board: &Board) -> Result<RootCopy, AllocError>
        ensures { IfOk result (AreOfBoard board.now) }
    {
        let equations = copied_polys(alloc, board.root().equations())?;
        Ok(RootCopy {
            equations,
            budget: board.budget(),
        })
    }

    /// The equations of the root.
    pub fn equations(&self) -> &[Poly]
        ensures equations { result.now ≡ self.now.equations }
        ensures list { IsRootList self.now.equations }
    {
        self.equations.as_slice()
    }

    /// The budget of moves of each case.
    pub fn budget(&self) -> u32
        ensures { result ≡ self.now.budget }
    {
        self.budget
    }
}
