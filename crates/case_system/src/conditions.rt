//! Known conditions.
ghost use Rattle.std.specs.Prelude.{◌≡◌, ◌<◌, ◌↔◌, [], ◌∷◌, ◌++◌, IfOk, IsTrue, length, slice_index_or};
ghost use Rattle.sparse_poly.specs.Clearing.{IsInForm};

use crate::copies::copied_polys;
use sparse_poly::{Poly, is_in_form};
use std::alloc::{AllocError, Global};
use std::marker::Model;

/// Known conditions, seen as the list of their polynomials, the oldest first. Whether one is in form is asked once, where it comes.
#[derive(Drop)]
pub struct Conditions {
    polys: Vec<Poly>,
    in_form: Vec<bool>,
}

impl Model for Conditions {
    ghost use Rattle.std.specs.Prelude.{List};
    ghost use Rattle.sparse_poly.specs.declared.Term.{Term};
    ghost use Rattle.case_system.specs.Marks.{AreMarked};

    ghost Value = { List (List Term) };

    ghost view = { λ c. c.polys.items };

    ghost invariant = { λ c. AreMarked c.polys.items c.in_form.items };
}

impl Conditions {
    /// No conditions.
    pub fn new(alloc: Global) -> Conditions
        ensures { result ≡ [] }
    {
        Conditions {
            polys: Vec::new(alloc),
            in_form: Vec::new(alloc),
        }
    }

    /// Equal conditions. It fails only where no memory is left.
    pub fn copy(&self) -> Result<Conditions, AllocError>
        ensures { IfOk result (λ c. c ≡ self.now) }
    {
        Ok(Conditions {
            polys: copied_polys(*self.polys.allocator(), &self.polys)?,
            in_form: self.in_form.clone()?,
        })
    }

    /// Equal conditions and one more. It fails only where no memory is left.
    pub fn with(&self, poly: &Poly) -> Result<Conditions, AllocError>
        ensures { IfOk result (λ c. c ≡ self.now ++ poly.now ∷ []) }
    {
        let Conditions {
            mut polys,
            mut in_form,
        } = self.copy()?;
        polys.push(poly.copy()?)?;
        in_form.push(is_in_form(poly))?;
        Ok(Conditions { polys, in_form })
    }

    /// Their polynomials.
    pub fn polys(&self) -> &[Poly]
        ensures { result.now ≡ self.now }
    {
        &self.polys
    }

    /// Whether the condition at a place is in form.
    pub fn is_in_form(&self, i: usize) -> bool
        requires { i < length self.now }
        ensures { IsTrue result ↔ IsInForm (slice_index_or self.now i []) }
    {
        self.in_form[i]
    }
}
