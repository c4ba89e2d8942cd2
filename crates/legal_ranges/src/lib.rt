//! The variables of a legal history are unknowns of its root.
#![tactic(auto)]

pub mod laws;

pub use laws::variables_law;
