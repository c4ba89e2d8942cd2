//! How a leaf ends.

use sparse_poly::Poly;

/// A reduction of an equation by another, or a tail step, in which an equation loses its initial.
#[derive(Clone, Copy, Debug, PartialEq, Eq)]
pub enum StepKind {
    Reduce,
    Tail,
}

/// A step that is stopped, in the variable `v`: of the equation `q` by `p`, which is another equation for a reduction, and the rest of the strip
/// or of the clearing of the initial of `q` for a tail step.
#[derive(Drop)]
pub struct Stop {
    pub step: StepKind,
    pub v: u32,
    pub q: Poly,
    pub p: Poly,
}

/// Why a leaf is open.
#[derive(Drop)]
pub enum OpenCause {
    /// The budget of moves was used up.
    Budget,
    /// The step is heavy.
    Coefficient(Stop),
    /// The step is of too high degree.
    Degree(Stop),
}

/// Whether a leaf is triangular or open.
#[derive(Drop)]
pub enum LeafEnd {
    Triangular,
    Open(OpenCause),
}
