//! The search: on one worker, or on several that share a board under a lock and steal cases from each other.
#![tactic(auto)]

mod gate;
mod pool;
mod runner;
mod searching;
mod serial;
mod worker;
mod worker_decks;

pub use gate::{Gate, OpenGate};
pub use pool::{Ran, run_workers};
pub use searching::search;
pub use serial::finish;
pub use worker::{WorkEnd, work};
