//! What the solver writes, the checker accepts.
#![tactic(auto)]

pub mod laws;

pub use laws::written_law;
