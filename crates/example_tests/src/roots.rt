//! Lists of polynomials that are roots.
ghost use Rattle.std.specs.Prelude.{◌≡◌, ◌↔◌, ◌+◌, ◌≤◌, IfOk, IsTrue, drop, length};
ghost use Rattle.case_rules.specs.Belonging.{IsRootList};
ghost use Rattle.example_tests.specs.Roots.{IsRootPoly, IsBelowAll};

use sparse_poly::Poly;
use std::alloc::AllocError;
use std::cmp::Ordering;

/// Whether polynomials are root equations: primitive, not zero and strictly ascending.
pub fn is_root_list(polys: &[Poly]) -> Result<bool, AllocError>
    ensures { IfOk result (λ b. IsTrue b → IsRootList polys.now) }
{
    for (i, poly) in polys.iter().enumerate() {
        if !is_root_poly(poly)? {
            return Ok(false);
        }
        if !is_below_all(poly, after(polys, i)) {
            return Ok(false);
        }
    }
    Ok(true)
}

// Whether a polynomial is primitive and not zero.
fn is_root_poly(poly: &Poly) -> Result<bool, AllocError>
    ensures { IfOk result (λ b. IsTrue b → IsRootPoly poly.now) }
{
    let _terms = poly.terms();
    let part = poly.primitive_part()?;
    if part.is_zero() {
        return Ok(false);
    }
    match poly.order(&part) {
        Ordering::Equal => Ok(true),
        Ordering::Less => Ok(false),
        Ordering::Greater => Ok(false),
    }
}

// The members after a place.
fn after(polys: &[Poly], i: usize) -> &[Poly]
    requires { i + 1 ≤ length polys.now }
    ensures { result.now ≡ drop (i + 1) polys.now }
{
    &polys[i + 1..]
}

// Whether a polynomial is below all of a list.
fn is_below_all(poly: &Poly, others: &[Poly]) -> bool
    ensures { IsTrue result → IsBelowAll poly.now others.now }
{
    for other in others {
        match poly.order(other) {
            Ordering::Less => {}
            Ordering::Equal => return false,
            Ordering::Greater => return false,
        }
    }
    true
}
