//! A board under a lock: what is done at one turn, by a thread with a seat of its own.
#![tactic(auto)]

mod calls;
mod jobs;
mod root_copy;
mod seen;
mod settling;

pub use calls::{least_pending, look, settle};
pub use jobs::{LeastJob, LookJob};
pub use root_copy::RootCopy;
pub use seen::SeenBoard;
pub use settling::SettleJob;
