//! Pseudo-division: reductions of polynomials by others, tail steps, and the full remainder by a list.
#![tactic(auto)]

pub mod laws;
mod remainders;
mod steps;

pub use laws::{degree_law, reduction_law, remainder_answer_law, step_answer_law, step_value_law};
pub use remainders::{Step, remainder};
pub use steps::{Reduction, reduce_once, tail_step, times_power};
