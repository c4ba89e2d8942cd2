//! Copies of the ends of leaves. Each fails only where no memory is left.
ghost use Rattle.std.specs.Prelude.{◌≡◌, IfOk};

use leaf_cert::{LeafEnd, OpenCause, Stop};
use std::alloc::AllocError;

/// An equal end of a leaf.
pub fn copied_end(end: &LeafEnd) -> Result<LeafEnd, AllocError>
    ensures { IfOk result (λ e. e ≡ end.now) }
{
    match end {
        LeafEnd::Triangular => Ok(LeafEnd::Triangular),
        LeafEnd::Open(cause) => Ok(LeafEnd::Open(copied_cause(cause)?)),
    }
}

// An equal cause.
fn copied_cause(cause: &OpenCause) -> Result<OpenCause, AllocError>
    ensures { IfOk result (λ c. c ≡ cause.now) }
{
    match cause {
        OpenCause::Budget => Ok(OpenCause::Budget),
        OpenCause::Coefficient(stop) => Ok(OpenCause::Coefficient(copied_stop(stop)?)),
        OpenCause::Degree(stop) => Ok(OpenCause::Degree(copied_stop(stop)?)),
    }
}

// An equal stop.
fn copied_stop(stop: &Stop) -> Result<Stop, AllocError>
    ensures { IfOk result (λ s. s ≡ stop.now) }
{
    Ok(Stop {
        step: stop.step,
        v: stop.v,
        q: stop.q.copy()?,
        p: stop.p.copy()?,
    })
}
