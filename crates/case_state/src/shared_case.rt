//! A case with several owners.
ghost use Rattle.std.specs.Prelude.{◌≡◌, IfOk};

use crate::case::Case;
use std::alloc::{AllocError, Global};
use std::marker::Model;
use std::sync::Arc;

/// A case that may have several owners, seen as the case. One more owner takes no copy of it.
#[derive(Drop)]
pub struct SharedCase {
    case: Arc<Case, Global>,
}

impl Model for SharedCase {
    ghost use Rattle.std.specs.Arc.{arc_value};
    ghost use Rattle.case_rules.specs.Cases.{CaseState};

    ghost Value = { CaseState };

    ghost view = { λ s. arc_value s.case };
}

impl SharedCase {
    /// The case with one owner. It fails only where no memory is left.
    pub fn of(alloc: Global, case: Case) -> Result<SharedCase, AllocError>
        ensures { IfOk result (λ s. s ≡ case) }
    {
        let case = Arc::new(alloc, case)?;
        Ok(SharedCase { case })
    }

    /// The same case for one more owner. It fails only where its owners can't be counted any more.
    pub fn another(&self) -> Result<SharedCase, AllocError>
        ensures { IfOk result (λ s. s ≡ self.now) }
    {
        Ok(SharedCase {
            case: Arc::try_clone(&self.case)?,
        })
    }

    /// The case.
    pub fn case(&self) -> &Case
        ensures { result.now ≡ self.now }
    {
        &self.case
    }
}
