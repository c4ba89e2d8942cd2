//! Both sides of a line.
ghost use Rattle.std.specs.Prelude.{◌≡◌, pos, IfOk, MatchOption, List, []};
ghost use Rattle.sparse_poly.specs.declared.Term.{Term};
ghost use Rattle.sparse_poly.specs.Polynomials.{products, constant};
ghost use Rattle.sparse_poly.specs.Contributions.{contributions, degree_of, IsResult};
ghost use Rattle.derive_lines.specs.Lines.{SidesAgree, IsBadSide, IsHeavy};
ghost use Rattle.std.specs.declared.option.Option.TheVariants.{None};

use crate::parts::{Line, LineCause};
use sparse_poly::{Poly, PolyFault, coefficients_law, order_law};
use std::alloc::{AllocError, Global};
use std::cmp::Ordering;

/// Why `l*q - a*p` and `m*r` do not agree, if they don't: one of them is of too high degree, or else one is heavy, or else they differ. It fails
/// only where no memory is left.
pub fn compare_sides(
    alloc: Global,
    line: &Line,
    q: &Poly,
    p: &Poly,
    r: &Poly,
) -> Result<Option<LineCause>, AllocError>
    ensures { IfOk result (λ o. MatchOption o (SidesAgree (contributions line.now.l q.now line.now.a p.now) (products line.now.m r.now)) (IsBadSide (contributions line.now.l q.now line.now.a p.now) (products line.now.m r.now))) }
{
    if line.l.is_one() && line.a.is_zero() {
        return compare_with(q, &line.m, r);
    }
    match Poly::combine(alloc, &line.l, q, &line.a, p) {
        Ok(left) => compare_right(&left, &line.m, r),
        Err(PolyFault::Degree { .. }) => Ok(Some(LineCause::Degree)),
        Err(PolyFault::Heavy { .. }) => degree_or_heavy(&line.m, r),
        Err(PolyFault::OutOfMemory) => Err(AllocError),
    }
}

// The same where the left side is this polynomial itself.
fn compare_with(q: &Poly, m: &Poly, r: &Poly) -> Result<Option<LineCause>, AllocError>
    ensures { IfOk result (λ o. (p : List Term) → MatchOption o (SidesAgree (contributions (constant (pos 1)) q.now [] p) (products m.now r.now)) (IsBadSide (contributions (constant (pos 1)) q.now [] p) (products m.now r.now))) }
{
    let _terms = q.terms();
    compare_right(q, m, r)
}

// The same where the left side adds up to this polynomial.
fn compare_right(left: &Poly, m: &Poly, r: &Poly) -> Result<Option<LineCause>, AllocError>
    ensures { IfOk result (λ o. (cs : List Term) → IsResult cs left.now → MatchOption o (SidesAgree cs (products m.now r.now)) (IsBadSide cs (products m.now r.now))) }
{
    if m.is_one() {
        return Ok(differing_from(left, r));
    }
    match m.times(r) {
        Ok(right) => Ok(differing(left, &right)),
        Err(PolyFault::Degree { .. }) => Ok(Some(LineCause::Degree)),
        Err(PolyFault::Heavy { .. }) => Ok(Some(LineCause::Heavy)),
        Err(PolyFault::OutOfMemory) => Err(AllocError),
    }
}

// Whether two sides differ, where the right side is this polynomial itself.
fn differing_from(left: &Poly, r: &Poly) -> Option<LineCause>
    ensures { (cs : List Term) → IsResult cs left.now → MatchOption result (SidesAgree cs (products (constant (pos 1)) r.now)) (IsBadSide cs (products (constant (pos 1)) r.now)) }
{
    let _terms = r.terms();
    differing(left, r)
}

// Whether two sides differ.
fn differing(left: &Poly, right: &Poly) -> Option<LineCause>
    ensures { (cs ds : List Term) → IsResult cs left.now → IsResult ds right.now → MatchOption result (SidesAgree cs ds) (IsBadSide cs ds) }
{
    coefficients_law();
    order_law();
    match left.order(right) {
        Ordering::Less => Some(LineCause::Identity),
        Ordering::Equal => None,
        Ordering::Greater => Some(LineCause::Identity),
    }
}

// The same where the left side is heavy.
fn degree_or_heavy(m: &Poly, r: &Poly) -> Result<Option<LineCause>, AllocError>
    ensures { IfOk result (λ o. (cs : List Term) → degree_of cs ≡ None → IsHeavy cs → MatchOption o (SidesAgree cs (products m.now r.now)) (IsBadSide cs (products m.now r.now))) }
{
    match m.times(r) {
        Ok(_) => Ok(Some(LineCause::Heavy)),
        Err(PolyFault::Degree { .. }) => Ok(Some(LineCause::Degree)),
        Err(PolyFault::Heavy { .. }) => Ok(Some(LineCause::Heavy)),
        Err(PolyFault::OutOfMemory) => Err(AllocError),
    }
}
