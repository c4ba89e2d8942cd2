//! Patterns of refutations by one root equation.

use crate::PatternStore;
use derive_lines::{Decision, Item};
use refute_cert::{CertStop, Refutation};
use sparse_poly::Poly;
use std::alloc::{AllocError, Global};

// That a variable is zero, or that it is not.
fn decision(alloc: Global, var: u32, zero: bool) -> Result<Decision, AllocError> {
    Ok(Decision {
        poly: Poly::variable(alloc, var)?,
        zero,
    })
}

// A root equation cannot be nonzero.
fn refuted(alloc: Global, var: u32) -> Result<Refutation, CertStop> {
    let root = vec![in alloc; Poly::variable(alloc, var)?]?;
    let pattern = vec![in alloc; decision(alloc, var, false)?]?;
    Refutation::checked(alloc, &root, pattern, Vec::new(alloc), Item::Root(0))
}

// Two refutations, by the variables 0 and 1.
fn posted(alloc: Global) -> Result<PatternStore, CertStop> {
    let mut store = PatternStore::new(alloc);
    for var in 0..2 {
        if store.post(alloc, refuted(alloc, var)?).is_err() {
            return Err(CertStop::OutOfMemory);
        }
    }
    Ok(store)
}

// What is found within the decisions that the first variables are not zero, but for the variable 0, which is.
fn found(alloc: Global, store: &PatternStore, vars: u32) -> Result<Option<u64>, AllocError> {
    let mut decisions = Vec::new(alloc);
    for var in 0..vars {
        decisions.push(decision(alloc, var, var == 0)?)?;
    }
    store.find(alloc, &decisions)
}

#[test]
fn patterns_within_decisions(rt: HostRuntime) -> Result<(), CertStop> {
    let store = posted(rt.alloc())?;
    assert_eq!(rt; store.count(), 2);
    assert_eq!(rt; found(rt.alloc(), &store, 1)?, None);
    assert_eq!(rt; found(rt.alloc(), &store, 2)?, Some(1));
    Ok(())
}
