//! Certificates as plain data.

use crate::ends::LeafEnd;
use crate::rows::Rows;
use derive_lines::{Decision, Item, Line};
use sparse_poly::Poly;

/// An entry of a history. Nothing of it is checked.
///
/// Cases are numbered from 0, the root case, in the order in which splits make them, and patterns from 0 in the order in which they are posted.
#[derive(Drop)]
pub enum RawEntry {
    /// Case `n` is split by a polynomial into the next two cases: the first decides that it is zero, the second that it is not.
    Split {
        n: u64,
        by: Poly,
    },
    /// A refutation, whose pattern gets the next number.
    Post {
        decisions: Rows<Decision>,
        lines: Rows<Line>,
        end: Item,
    },
    /// Case `n` is closed by pattern `k`.
    Close {
        n: u64,
        k: u64,
    },
    /// Case `n` ends in this leaf.
    Publish {
        n: u64,
        decisions: Rows<Decision>,
        lines: Rows<Line>,
        equations: Rows<Poly>,
        end: LeafEnd,
    },
}

/// A history with its head: the numbers of unknowns and of equations of the root, and the budget of moves of each case.
#[derive(Drop)]
pub struct Certificate {
    pub unknowns: u32,
    pub equations: u32,
    pub budget: u32,
    pub entries: Rows<RawEntry>,
}
