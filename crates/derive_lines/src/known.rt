//! Sets of polynomials, borrowed.
ghost use Rattle.std.specs.Prelude.{◌≡◌, ◌⊎◌, ◌↔◌, List, [], OnOk, IsTrue};
ghost use Rattle.sparse_poly.specs.declared.Term.{Term};
ghost use Rattle.derive_lines.specs.Known.{Holds};

use sparse_poly::Poly;
use std::alloc::{AllocError, Global};
use std::cmp::Ordering;
use std::collections::BTreeSet;
use std::marker::Model;

/// A set of polynomials, seen as the list of its members.
#[derive(Drop)]
pub struct Known<'a> {
    polys: BTreeSet<&'a Poly, Global>,
}

impl<'a> Model for Known<'a> {
    ghost use Rattle.std.specs.Prelude.{List};
    ghost use Rattle.sparse_poly.specs.declared.Term.{Term};
    ghost use Rattle.derive_lines.specs.Known.{values};

    ghost Value = { List (List Term) };

    ghost view = { λ k. values k.polys.keys };
}

impl<'a> Known<'a> {
    /// No polynomials.
    pub fn new(alloc: Global) -> Known<'a>
        ensures { result ≡ [] }
    {
        Known {
            polys: BTreeSet::new(alloc),
        }
    }

    /// Puts a polynomial in. It fails only where no memory is left.
    pub fn insert(&mut self, poly: &'a Poly) -> Result<(), AllocError>
        ensures { OnOk result ((p : List Term) → Holds self.new p ↔ (Holds self.old p ⊎ (poly.now ≡ p))) }
    {
        self.polys.insert(poly)?;
        Ok(())
    }

    /// Whether a polynomial is in the set.
    pub fn has(&self, poly: &'a Poly) -> bool
        ensures { IsTrue result ↔ Holds self.now poly.now }
    {
        self.polys.contains(&poly)
    }
}

/// Whether two polynomials are the same.
pub fn is_same(p: &Poly, q: &Poly) -> bool
    ensures { IsTrue result ↔ (p.now ≡ q.now) }
{
    matches!(q.order(p), Ordering::Equal)
}
