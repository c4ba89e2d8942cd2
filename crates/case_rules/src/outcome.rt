//! How the strategy ends on a case.

use sparse_poly::Poly;

/// How the strategy ends on a case: with cases `C`, a refutation `D` or a leaf `L`.
#[derive(Drop)]
pub enum Outcome<C: Drop, D: Drop, L: Drop> {
    /// The case is split.
    Split { by: Poly, zero: C, nonzero: C },
    /// The case has no solution.
    Dead(D),
    /// The case is a leaf.
    Leaf(L),
}
