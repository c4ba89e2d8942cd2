//! The root of a problem: all its equations as one ascending list of polynomials.
#![tactic(auto)]

mod ascending;
pub mod laws;
mod primitive;
mod root;

pub use root::{Root, RootFault};
