//! The full remainder.
ghost use Rattle.std.specs.Prelude.{◌≡◌, ◌<◌, ℕ, IsTrue, IsFalse, MatchOption, MatchResult};
ghost use Rattle.sparse_poly.specs.Reads.{HaveMainVariables};
ghost use Rattle.pseudo_rem.specs.Remainders.{rest_of, AreSteps, IsDue, IsNextDue, IsRemainderFault, NoneIsDue};
ghost use Rattle.pseudo_rem.specs.Scan.{IsUpTo};

use crate::steps::{Reduction, reduce_once};
use sparse_poly::{Poly, PolyFault};
use std::alloc::Global;

/// A step of a full remainder: a reduction by the member of the list at this place.
#[derive(Drop)]
pub struct Step {
    pub by: usize,
    pub reduction: Reduction,
}

// A member by which a polynomial can be reduced in the member's main variable: its place, that variable, and the member.
#[derive(Clone, Copy)]
struct Due<'a> {
    at: usize,
    var: u32,
    member: &'a Poly,
}

/// The steps of the full remainder of `n` by a list, first to last: while its degree in the main variable of a member is at least the
/// member's, `n` is reduced by the one of the greatest main variable among these, and the `r` of the step takes its place. `Degree` and
/// `Heavy` come exactly where one of these reductions answers so, the first.
pub fn remainder(
    alloc: Global,
    n: &Poly,
    list: &[Poly],
    units: &[Poly],
) -> Result<Vec<Step>, PolyFault>
    requires { HaveMainVariables list.now }
    ensures { MatchResult result (λ steps. AreSteps units.now list.now n.now steps.items) (IsRemainderFault units.now list.now n.now) }
{
    let mut steps = Vec::new(alloc);
    'steps: loop {
        let rest = rest_after(n, &steps);
        let _terms = rest.terms();
        let Some(due) = next_due(list, rest) else {
            return Ok(steps);
        };
        let _terms_of_member = due.member.terms();
        let reduction = reduce_once(alloc, rest, due.member, due.var, units)?;
        steps.push(Step {
            by: due.at,
            reduction,
        })?;
    }
}

// What is left of n after these steps.
fn rest_after<'a>(n: &'a Poly, steps: &'a [Step]) -> &'a Poly
    ensures { result.now ≡ rest_of n.now steps.now }
{
    match steps.last() {
        Some(step) => &step.reduction.r,
        None => n,
    }
}

// The member that is next due.
fn next_due<'a>(list: &'a [Poly], n: &Poly) -> Option<Due<'a>>
    ensures { MatchOption result (NoneIsDue list.now n.now) (λ due. IsNextDue list.now n.now due.at due.member.now due.var) }
{
    let mut next = None;
    for (at, member) in list.iter().enumerate() {
        let Some(due) = due_member(at, member, n) else {
            continue;
        };
        if !is_above(due.var, &next) {
            continue;
        }
        next = Some(due);
    }
    next
}

// This member, if it is due.
fn due_member<'a>(at: usize, member: &'a Poly, n: &Poly) -> Option<Due<'a>>
    ensures { MatchOption result ((v : ℕ) → IsDue n.now member.now v → ⊥) (λ due. (due.at ≡ at) × (due.member.now ≡ member.now) × IsDue n.now due.member.now due.var) }
{
    let var = member.main()?;
    let degree = member.degree_in(var);
    if degree < 1 {
        return None;
    }
    if n.degree_in(var) < degree {
        return None;
    }
    Some(Due { at, var, member })
}

// Whether a variable is above that of the member that was found, if there is one.
fn is_above(var: u32, next: &Option<Due>) -> bool
    ensures above { IsTrue result → (w : ℕ) → IsUpTo next.now w → w < var }
    ensures not_above { IsFalse result → IsUpTo next.now var }
{
    match next {
        Some(due) => due.var < var,
        None => true,
    }
}
