//! Polynomials in ascending order.

ghost use Rattle.std.specs.Prelude.{◌↔◌, List, IfOk, Contains, ◌≡◌};
ghost use Rattle.std.specs.List.Sorted.{IsStrictlySortedBy};
ghost use Rattle.sparse_poly.specs.Order.{poly_cmp};
ghost use Rattle.root_system.specs.Ascending.{same_poly};
ghost use Rattle.sparse_poly.specs.declared.Term.{Term};

use sparse_poly::Poly;
use std::alloc::AllocError;
use std::cmp::Ordering;

/// The polynomials in ascending order, each once.
pub fn ascending(polys: Vec<Poly>) -> Result<Vec<Poly>, AllocError>
    ensures sorted { IfOk result (λ v. IsStrictlySortedBy poly_cmp v.items) }
    ensures same { IfOk result (λ v. (p : List Term) → Contains v.items p ↔ Contains polys.items p) }
{
    let mut polys = polys;
    polys.sort_by(|p, q| p.order(q))?;
    polys.dedup_by(|p, q| is_same(p, q));
    Ok(polys)
}

fn is_same(p: &Poly, q: &Poly) -> bool
    ensures { result ≡ same_poly p.now q.now }
{
    matches!(p.order(q), Ordering::Equal)
}
