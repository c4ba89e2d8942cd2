//! A lock round a value that stores its own history. Each thread has a seat, which knows what it has seen of the history and which entries are
//! its own.
#![tactic(auto)]

mod kept;
mod steps;
mod turns;
pub mod view;

pub use kept::{Job, Kept};
pub use turns::{NoTurns, TurnSeat, Turns};
