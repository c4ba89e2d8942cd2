//! A first-in first-out deck of numbers, whose owner pushes at the back and pops at the front, and whose thieves steal at the front.
#![tactic(auto)]

mod callers;
mod rule;
mod steps;

pub use callers::{Owner, Stolen, Thief, Unpushed};
pub use steps::deck;
