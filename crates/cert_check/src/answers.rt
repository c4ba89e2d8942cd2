//! What the check of a certificate answers.

use derive_lines::{Item, LineCause};
use std::alloc::{AllocError, AllocFailed};

/// A part of a certificate that can be refused. Each has a number.
#[derive(Clone, Copy, Debug, PartialEq, Eq)]
pub enum Part {
    /// The head. Its number is 0.
    Header,
    /// A split. Its number is that of its case.
    Split,
    /// A refutation. Its number is that of its pattern.
    Pattern,
    /// A close. Its number is that of its case.
    Close,
    /// A leaf. Its number is that of its case.
    Leaf,
    /// The history as a whole. Its number is that of the least pending case.
    Whole,
}

/// Why a part is refused: the first cause in this order.
#[derive(Clone, Copy, Debug, PartialEq, Eq)]
pub enum RefuseCause {
    /// The number of unknowns in the head is not that of the root.
    Unknowns,
    /// The number of equations in the head is not that of the root.
    Equations,
    /// The case was not made, or is settled.
    NotPending,
    /// No pattern of this number stands before the close.
    NotStored,
    /// A decision of the pattern is not among those of the case.
    NotWithin,
    /// The decisions of the leaf are not those of the case, in order.
    Decisions,
    /// Line `k` is the first that is bad, with its first cause.
    Line { k: u64, cause: LineCause },
    /// Equation `i` is the first that is no item or not above the one before it.
    Equation { i: u64 },
    /// This root equation or zero decision is the first that is not recovered from the equations.
    Lost { item: Item },
    /// The end of a refutation is no contradiction, or the end of a leaf does not check.
    End,
    /// The case is pending after the last entry.
    Pending,
}

/// Why a certificate is not accepted.
#[derive(Clone, Copy, Debug, PartialEq, Eq)]
pub enum AcceptStop {
    /// The first part that fails, with its number and its first cause.
    Refused {
        part: Part,
        number: u64,
        cause: RefuseCause,
    },
    /// No memory was left.
    OutOfMemory,
}

impl From<AllocError> for AcceptStop {
    ghost use Rattle.std.specs.Prelude.{◌≡◌};
    ghost use Rattle.cert_check.specs.declared.answers.AcceptStop.TheVariants.{OutOfMemory};

    ghost from_gives = { λ _ e. e ≡ OutOfMemory };

    fn from(_: AllocError) -> AcceptStop {
        AcceptStop::OutOfMemory
    }
}

impl<T: Drop> From<AllocFailed<T>> for AcceptStop {
    ghost use Rattle.std.specs.Prelude.{◌≡◌};
    ghost use Rattle.cert_check.specs.declared.answers.AcceptStop.TheVariants.{OutOfMemory};

    ghost from_gives = { λ _ e. e ≡ OutOfMemory };

    fn from(_: AllocFailed<T>) -> AcceptStop {
        AcceptStop::OutOfMemory
    }
}

/// How many leaves a certificate has, and how many of them are open.
#[derive(Clone, Copy, Debug, PartialEq, Eq)]
pub struct Counts {
    pub leaves: u64,
    pub opens: u64,
}
