//! Where workers may be held up.

use std::sync::Wait;

/// What a worker passes after it has an outcome and before it settles. A gate may wait, and no turn is held while it does.
pub trait Gate {
    /// The worker has run the case.
    fn arrive<R: Wait>(&self, rt: &R, worker: u32, case: u64);
}

/// The gate that holds nobody up.
#[derive(Drop)]
pub struct OpenGate;

impl Gate for OpenGate {
    fn arrive<R: Wait>(&self, _rt: &R, _worker: u32, _case: u64) {}
}
