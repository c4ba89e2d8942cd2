//! Cases of the search as their meanings: decisions, equations, lines and moves; the strategy on them, rule by rule; and what an end says.
#![tactic(auto)]

mod equation;
mod laws;
mod moves;
mod outcome;

pub use equation::Equation;
pub use laws::{belongs_law, branch_law, end_law, move_law, reduction_law};
pub use moves::Move;
pub use outcome::Outcome;
