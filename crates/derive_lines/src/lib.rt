//! Derivations: lines that lead from root equations and zero decisions to other polynomials and back, and their check.
#![tactic(auto)]

mod back;
mod check;
mod known;
pub mod laws;
mod parts;
mod references;
mod sides;

pub use back::check_back;
pub use check::check_lines;
pub use known::{Known, is_same};
pub use laws::{answer_law, back_law, item_law, line_law, refutation_law};
pub use parts::{Decision, Item, Line, LineCause, LineStop, Way};
pub use references::{conditions, item_poly};
