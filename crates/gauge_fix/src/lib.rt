//! The equations of the inverses and of the gauge, as polynomials in the unknowns of a fusion ring.
#![tactic(auto)]

mod gauge;
mod inverse;
pub mod laws;

pub use gauge::gauges;
pub use inverse::{InverseLabels, inverses};
