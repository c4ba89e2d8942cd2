//! The primitive parts of polynomials.

ghost use Rattle.std.specs.Prelude.{IfOk};
ghost use Rattle.root_system.specs.PrimitiveParts.{ArePrimitiveParts};

use sparse_poly::Poly;
use std::alloc::{AllocError, Global};

/// The primitive part of each polynomial that is not zero.
pub fn primitive_parts(alloc: Global, polys: &[Poly]) -> Result<Vec<Poly>, AllocError>
    ensures { IfOk result (λ v. ArePrimitiveParts polys.now v.items) }
{
    let mut parts = Vec::new(alloc);
    for poly in polys {
        let part = poly.primitive_part()?;
        if part.is_zero() {
            continue;
        }
        parts.push(part)?;
    }
    Ok(parts)
}
