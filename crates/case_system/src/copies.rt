//! Copies of polynomials and equations.
ghost use Rattle.std.specs.Prelude.{◌≡◌, IfOk};

use crate::kept::KeptList;
use case_rules::Equation;
use sparse_poly::Poly;
use std::alloc::{AllocError, Global};

/// An equal equation. It fails only where no memory is left.
pub fn copied_equation(equation: &Equation) -> Result<Equation, AllocError>
    ensures { IfOk result (λ e. e ≡ equation.now) }
{
    Ok(Equation {
        poly: equation.poly.copy()?,
        item: equation.item,
    })
}

// Equal equations.
fn copied_equations(alloc: Global, equations: &[Equation]) -> Result<Vec<Equation>, AllocError>
    ensures { IfOk result (λ v. v.items ≡ equations.now) }
{
    let mut copies = Vec::with_capacity(alloc, equations.len())?;
    for equation in equations {
        copies.push(copied_equation(equation)?)?;
    }
    Ok(copies)
}

/// Equal equations, of which as much is known. It fails only where no memory is left.
pub fn copied_list(list: &KeptList) -> Result<KeptList, AllocError>
    ensures equations { IfOk result (λ l. l.equations.items ≡ list.now.equations.items) }
    ensures facts { IfOk result (λ l. l.facts.items ≡ list.now.facts.items) }
{
    let alloc = *list.equations.allocator();
    Ok(KeptList {
        equations: copied_equations(alloc, &list.equations)?,
        facts: list.facts.clone()?,
    })
}

/// Equal polynomials. It fails only where no memory is left.
pub fn copied_polys(alloc: Global, polys: &[Poly]) -> Result<Vec<Poly>, AllocError>
    ensures { IfOk result (λ v. v.items ≡ polys.now) }
{
    let mut copies = Vec::with_capacity(alloc, polys.len())?;
    for poly in polys {
        copies.push(poly.copy()?)?;
    }
    Ok(copies)
}
