//! The way from the bytes of a problem to its root, which the solver and the checker share.
#![tactic(auto)]

mod bytes;
mod fault;
mod input;
pub mod laws;
mod lines;

pub use bytes::root_of_bytes;
pub use fault::{InputFault, RootStop};
pub use input::{read_whole, root_of};
pub use laws::{reading_law, root_stop_law};
pub use lines::problem_line;
