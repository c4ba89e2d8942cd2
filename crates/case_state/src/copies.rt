//! Copies of the parts of a case.
ghost use Rattle.std.specs.Prelude.{◌≡◌, IfOk};
ghost use Rattle.case_rules.specs.Cases.{polys_of};

use case_rules::Equation;
use derive_lines::Decision;
use sparse_poly::Poly;
use std::alloc::{AllocError, Global};

// An equal decision.
fn copied_decision(decision: &Decision) -> Result<Decision, AllocError>
    ensures { IfOk result (λ d. d ≡ decision.now) }
{
    Ok(Decision {
        poly: decision.poly.copy()?,
        zero: decision.zero,
    })
}

/// Equal decisions. It fails only where no memory is left.
pub fn copied_decisions(alloc: Global, decisions: &[Decision]) -> Result<Vec<Decision>, AllocError>
    ensures { IfOk result (λ v. v.items ≡ decisions.now) }
{
    let mut copies = Vec::with_capacity(alloc, decisions.len())?;
    for decision in decisions {
        copies.push(copied_decision(decision)?)?;
    }
    Ok(copies)
}

/// The polynomials of equations. It fails only where no memory is left.
pub fn polys_of(alloc: Global, equations: &[Equation]) -> Result<Vec<Poly>, AllocError>
    ensures { IfOk result (λ v. v.items ≡ polys_of equations.now) }
{
    let mut polys = Vec::with_capacity(alloc, equations.len())?;
    for equation in equations {
        polys.push(equation.poly.copy()?)?;
    }
    Ok(polys)
}
