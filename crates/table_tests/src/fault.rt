//! Why a question has no answer.
use std::alloc::{AllocError, AllocFailed};

/// Why a question has no answer.
#[derive(Clone, Copy, Drop)]
pub enum Fault {
    /// The question has another form.
    Form,
    /// No memory was left.
    OutOfMemory,
}

impl From<AllocError> for Fault {
    fn from(_: AllocError) -> Fault {
        Fault::OutOfMemory
    }
}

impl<T: Drop> From<AllocFailed<T>> for Fault {
    fn from(_: AllocFailed<T>) -> Fault {
        Fault::OutOfMemory
    }
}
