//! Leaves.
ghost use Rattle.std.specs.Prelude.{◌≡◌, MatchResult};
ghost use Rattle.leaf_cert.specs.Leaves.{GoodLeaf, IsLeaf, IsLeafStop};

use crate::checking::check_leaf;
use crate::ends::LeafEnd;
use derive_lines::{Decision, Item, Line, LineCause};
use sparse_poly::Poly;
use std::alloc::{AllocError, AllocFailed, Global};
use std::marker::Model;

/// A leaf, seen as its decisions, lines, equations and end. That it is good over a root is a clause of the call that makes it.
#[derive(Drop)]
pub struct Leaf {
    decisions: Vec<Decision>,
    lines: Vec<Line>,
    equations: Vec<Poly>,
    end: LeafEnd,
}

impl Model for Leaf {
    ghost use Rattle.leaf_cert.specs.Parts.{LeafParts};

    ghost Value = { LeafParts };

    ghost view = { λ p. record { decisions = p.decisions.items; lines = p.lines.items; equations = p.equations.items; end = p.end } };
}

/// Why parts are no leaf.
#[derive(Clone, Copy, Debug, PartialEq, Eq)]
pub enum LeafStop {
    /// Line `k` is the first that is bad, with its first cause.
    Line { k: u64, cause: LineCause },
    /// Equation `i` is the first that is no item or not above the one before it.
    Equation { i: u64 },
    /// This root equation or zero decision is the first that is not recovered from the equations.
    Lost { item: Item },
    /// The end does not check.
    End,
    /// No memory was left.
    OutOfMemory,
}

impl From<AllocError> for LeafStop {
    ghost use Rattle.std.specs.Prelude.{◌≡◌};
    ghost use Rattle.leaf_cert.specs.declared.leaf.LeafStop.TheVariants.{OutOfMemory};

    ghost from_gives = { λ _ e. e ≡ OutOfMemory };

    fn from(_: AllocError) -> LeafStop {
        LeafStop::OutOfMemory
    }
}

impl<T: Drop> From<AllocFailed<T>> for LeafStop {
    ghost use Rattle.std.specs.Prelude.{◌≡◌};
    ghost use Rattle.leaf_cert.specs.declared.leaf.LeafStop.TheVariants.{OutOfMemory};

    ghost from_gives = { λ _ e. e ≡ OutOfMemory };

    fn from(_: AllocFailed<T>) -> LeafStop {
        LeafStop::OutOfMemory
    }
}

impl Leaf {
    /// The leaf of these parts, which is good over the root. The refusals come in the order of `LeafStop`, each exactly where it says.
    pub fn checked(
        alloc: Global,
        root: &[Poly],
        decisions: Vec<Decision>,
        lines: Vec<Line>,
        equations: Vec<Poly>,
        end: LeafEnd,
    ) -> Result<Leaf, LeafStop>
        ensures { MatchResult result (IsLeaf root.now decisions.items lines.items equations.items end) (IsLeafStop root.now decisions.items lines.items equations.items end) }
    {
        check_leaf(alloc, root, &decisions, &lines, &equations, &end)?;
        Ok(Leaf {
            decisions,
            lines,
            equations,
            end,
        })
    }

    /// The leaf of these parts, which are known to be good over the root: nothing is checked.
    pub fn of_good_parts(
        _root: &[Poly],
        decisions: Vec<Decision>,
        lines: Vec<Line>,
        equations: Vec<Poly>,
        end: LeafEnd,
    ) -> Leaf
        requires { GoodLeaf _root.now (record { decisions = decisions.items; lines = lines.items; equations = equations.items; end = end }) }
        ensures { IsLeaf _root.now decisions.items lines.items equations.items end result }
    {
        Leaf {
            decisions,
            lines,
            equations,
            end,
        }
    }

    /// The equations, in ascending order.
    pub fn equations(&self) -> &[Poly]
        ensures { result.now ≡ self.now.equations }
    {
        &self.equations
    }

    /// The decisions.
    pub fn decisions(&self) -> &[Decision]
        ensures { result.now ≡ self.now.decisions }
    {
        &self.decisions
    }

    /// The lines.
    pub fn lines(&self) -> &[Line]
        ensures { result.now ≡ self.now.lines }
    {
        &self.lines
    }

    /// The end.
    pub fn end(&self) -> &LeafEnd
        ensures { result.now ≡ self.now.end }
    {
        &self.end
    }
}
