//! Terms that several polynomials own together.
ghost use Rattle.std.specs.Prelude.{◌≡◌, [], IfOk};

use crate::Term;
use std::alloc::{AllocError, Global};
use std::marker::Model;
use std::sync::Arc;

/// A list of terms that is not copied when it has one more owner. The empty list takes no memory.
pub struct SharedTerms {
    alloc: Global,
    terms: Option<Arc<Vec<Term>>>,
}

// Written out, so that whoever drops a polynomial does not go by cases.
impl Drop for SharedTerms {
    fn drop(self) {
        let SharedTerms { alloc, terms } = self;
        drop(terms);
        drop(alloc);
    }
}

impl Model for SharedTerms {
    ghost use Rattle.std.specs.Prelude.{List};
    ghost use Rattle.sparse_poly.specs.declared.Term.{Term};
    ghost use Rattle.sparse_poly.specs.Shared.{shared_terms};

    ghost Value = { List Term };

    ghost view = { λ s. shared_terms s.terms };
}

impl SharedTerms {
    /// No terms.
    pub fn none(alloc: Global) -> SharedTerms
        ensures { result ≡ [] }
    {
        SharedTerms { alloc, terms: None }
    }

    /// The terms of a list. It fails only where no memory is left.
    pub fn of(alloc: Global, terms: Vec<Term>) -> Result<SharedTerms, AllocError>
        ensures { IfOk result (λ s. s ≡ terms.items) }
    {
        if terms.is_empty() {
            return Ok(SharedTerms::none(alloc));
        }
        let terms = Arc::new(alloc, terms)?;
        Ok(SharedTerms {
            alloc,
            terms: Some(terms),
        })
    }

    /// One more owner of the same terms. It fails only where there can be no more owners.
    pub fn another_owner(&self) -> Result<SharedTerms, AllocError>
        ensures { IfOk result (λ s. s ≡ self.now) }
    {
        let terms = match &self.terms {
            Some(terms) => Some(Arc::try_clone(terms)?),
            None => None,
        };
        Ok(SharedTerms {
            alloc: self.alloc,
            terms,
        })
    }

    /// The terms.
    #[inline(always)]
    pub fn as_slice(&self) -> &[Term]
        ensures { result.now ≡ self.now }
    {
        match &self.terms {
            Some(terms) => terms.as_slice(),
            None => &[],
        }
    }

    /// What gives memory.
    pub fn allocator(&self) -> Global {
        self.alloc
    }
}
