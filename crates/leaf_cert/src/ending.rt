//! Whether the end of a leaf checks.
ghost use Rattle.std.specs.Prelude.{◌≡◌, ◌↔◌, List, Contains, IfOk, IsTrue};
ghost use Rattle.std.specs.declared.option.Option.TheVariants.{Some};
ghost use Rattle.sparse_poly.specs.Reads.{main_variable};
ghost use Rattle.sparse_poly.specs.declared.Term.{Term};
ghost use Rattle.sparse_poly.specs.Contributions.{IsFault};
ghost use Rattle.pseudo_rem.specs.Steps.{IsTail, tail_contributions};
ghost use Rattle.leaf_cert.specs.Leaves.{EndChecks, IsOpenFor, IsReducible, IsStoppedReduction, IsStoppedStep, IsStoppedTail, IsTooHigh, IsTooHeavy};
ghost use Rattle.leaf_cert.specs.Limits.{IsOver};

use crate::ends::{LeafEnd, OpenCause, StepKind, Stop};
use char_set::is_triangular;
use derive_lines::is_same;
use pseudo_rem::{reduce_once, tail_step};
use sparse_poly::{Poly, PolyFault, Stripped, contains};
use std::alloc::{AllocError, Global};

/// What stops a step: its degree, or a coefficient.
#[derive(Clone, Copy)]
pub enum Limit {
    Degree,
    Coefficient,
}

/// Whether the end of a leaf checks. It fails only where no memory is left.
pub fn end_checks(
    alloc: Global,
    equations: &[Poly],
    units: &[Poly],
    end: &LeafEnd,
) -> Result<bool, AllocError>
    ensures { IfOk result (λ b. IsTrue b ↔ EndChecks equations.now units.now end.now) }
{
    match end {
        LeafEnd::Triangular => is_triangular(equations, units),
        LeafEnd::Open(cause) => is_open_for(alloc, equations, units, cause),
    }
}

// Whether a leaf is open for this cause.
fn is_open_for(
    alloc: Global,
    equations: &[Poly],
    units: &[Poly],
    cause: &OpenCause,
) -> Result<bool, AllocError>
    ensures { IfOk result (λ b. IsTrue b ↔ IsOpenFor equations.now units.now cause.now) }
{
    match cause {
        OpenCause::Budget => Ok(true),
        OpenCause::Coefficient(stop) => {
            is_stopped(alloc, equations, units, stop, Limit::Coefficient)
        }
        OpenCause::Degree(stop) => is_stopped(alloc, equations, units, stop, Limit::Degree),
    }
}

// Whether a step can be made among the equations and is stopped by this limit.
fn is_stopped(
    alloc: Global,
    equations: &[Poly],
    units: &[Poly],
    stop: &Stop,
    limit: Limit,
) -> Result<bool, AllocError>
    ensures { IfOk result (λ b. IsTrue b ↔ IsStoppedStep equations.now units.now stop.now.step stop.now.v stop.now.q stop.now.p (IsOver limit)) }
{
    match stop.step {
        StepKind::Reduce => is_stopped_reduction(alloc, equations, units, stop, limit),
        StepKind::Tail => is_stopped_tail(alloc, equations, units, stop, limit),
    }
}

// Whether a reduction is one of an equation by another and is stopped by this limit.
fn is_stopped_reduction(
    alloc: Global,
    equations: &[Poly],
    units: &[Poly],
    stop: &Stop,
    limit: Limit,
) -> Result<bool, AllocError>
    ensures { IfOk result (λ b. IsTrue b ↔ IsStoppedReduction equations.now stop.now.v stop.now.q stop.now.p (IsOver limit)) }
{
    if !is_reducible(equations, stop) {
        return Ok(false);
    }
    match reduce_once(alloc, &stop.q, &stop.p, stop.v, units) {
        Ok(_) => Ok(false),
        Err(fault) => is_over(fault, limit),
    }
}

// Whether both polynomials are equations, which differ, and the first can be reduced by the second.
fn is_reducible(equations: &[Poly], stop: &Stop) -> bool
    ensures { IsTrue result ↔ IsReducible equations.now stop.now.v stop.now.q stop.now.p }
{
    if !contains(equations, &stop.q) {
        return false;
    }
    if !contains(equations, &stop.p) {
        return false;
    }
    if is_same(&stop.q, &stop.p) {
        return false;
    }
    let low = stop.p.degree_in(stop.v);
    low >= 1 && low <= stop.q.degree_in(stop.v)
}

// Whether a tail step is one of an equation, by the strip or by the clearing of its initial, and is stopped by this limit.
fn is_stopped_tail(
    alloc: Global,
    equations: &[Poly],
    units: &[Poly],
    stop: &Stop,
    limit: Limit,
) -> Result<bool, AllocError>
    ensures { IfOk result (λ b. IsTrue b ↔ IsStoppedTail equations.now units.now stop.now.v stop.now.q stop.now.p (IsOver limit)) }
{
    if !is_tail(equations, stop) {
        return Ok(false);
    }
    let initial = stop.q.coefficient_in(stop.v, stop.q.degree_in(stop.v))?;
    let _terms = initial.terms();
    let stripped = initial.strip(units)?;
    let by_strip = is_stopped_by(alloc, units, stop, &stripped, limit)?;
    if by_strip {
        return Ok(true);
    }
    let cleared = stripped.cleared(units)?;
    let by_clearing = is_stopped_by(alloc, units, stop, &cleared, limit)?;
    Ok(by_clearing)
}

// Whether the first polynomial is an equation, whose main variable is that of the step.
fn is_tail(equations: &[Poly], stop: &Stop) -> bool
    ensures { IsTrue result ↔ (Contains equations.now stop.now.q × (main_variable stop.now.q ≡ Some stop.now.v)) }
{
    if !contains(equations, &stop.q) {
        return false;
    }
    stop.q.main() == Some(stop.v)
}

// Whether the rest of an initial is that of a tail step, and the step is stopped by this limit.
fn is_stopped_by(
    alloc: Global,
    units: &[Poly],
    stop: &Stop,
    initial: &Stripped,
    limit: Limit,
) -> Result<bool, AllocError>
    requires { IsTail units.now stop.now.v stop.now.q initial.now.factor initial.now.rest }
    ensures { IfOk result (λ b. IsTrue b ↔ ((initial.now.rest ≡ stop.now.p) × IsOver limit (tail_contributions stop.now.v stop.now.q initial.now.factor initial.now.rest))) }
{
    if !is_same(&initial.rest, &stop.p) {
        return Ok(false);
    }
    match tail_step(
        alloc,
        &stop.q,
        stop.v,
        &initial.factor,
        &initial.rest,
        units,
    ) {
        Ok(_) => Ok(false),
        Err(fault) => is_over(fault, limit),
    }
}

// Whether a fault is that of this limit.
fn is_over(fault: PolyFault, limit: Limit) -> Result<bool, AllocError>
    ensures { (cs : List Term) → IsFault cs fault → IfOk result (λ b. IsTrue b ↔ IsOver limit cs) }
{
    is_fault_of(&fault, limit)
}

// The same of a fault that is kept.
fn is_fault_of(fault: &PolyFault, limit: Limit) -> Result<bool, AllocError>
    ensures { (cs : List Term) → IsFault cs fault.now → IfOk result (λ b. IsTrue b ↔ IsOver limit cs) }
{
    match limit {
        Limit::Degree => is_degree(fault),
        Limit::Coefficient => is_heavy(fault),
    }
}

// Whether a fault is one of degree.
fn is_degree(fault: &PolyFault) -> Result<bool, AllocError>
    ensures { (cs : List Term) → IsFault cs fault.now → IfOk result (λ b. IsTrue b ↔ IsTooHigh cs) }
{
    match fault {
        PolyFault::Degree { .. } => Ok(true),
        PolyFault::Heavy { .. } => Ok(false),
        PolyFault::OutOfMemory => Err(AllocError),
    }
}

// Whether a fault is one of a coefficient.
fn is_heavy(fault: &PolyFault) -> Result<bool, AllocError>
    ensures { (cs : List Term) → IsFault cs fault.now → IfOk result (λ b. IsTrue b ↔ IsTooHeavy cs) }
{
    match fault {
        PolyFault::Degree { .. } => Ok(false),
        PolyFault::Heavy { .. } => Ok(true),
        PolyFault::OutOfMemory => Err(AllocError),
    }
}
