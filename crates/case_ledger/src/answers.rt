//! What the calls of a board answer.

use case_rules::Outcome;
use case_state::SharedCase;
use leaf_cert::Leaf;
use refute_cert::Refutation;

/// What a look at a case answers.
#[derive(Drop)]
pub enum Look {
    /// The case is pending. This is the case, for one more owner.
    Pending(SharedCase),
    /// The case was settled by the entry at this place of the history, counted from the oldest, which is 0.
    Settled { at: u64 },
    /// No such case was made.
    NoCase,
}

/// What settling a case answers.
#[derive(Clone, Copy, Debug, PartialEq, Eq)]
pub enum Reply {
    /// The case is split into these two: the zero branch and the nonzero branch.
    Split { left: u64, right: u64 },
    /// The case is closed by this pattern.
    Closed { pattern: u64 },
    /// The leaf of the case is published.
    Published,
    /// The case was settled before, by the entry at this place of the history, counted from the oldest, which is 0.
    AlreadySettled { at: u64 },
    /// No such case was made.
    NoCase,
}

/// No memory was left. It hands back the outcome.
#[derive(Drop)]
pub struct Unsettled {
    pub outcome: Outcome<SharedCase, Refutation, Leaf>,
}
