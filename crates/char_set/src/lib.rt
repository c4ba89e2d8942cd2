//! Initials of polynomials, and triangular lists.
#![tactic(auto)]

ghost use Rattle.std.specs.Prelude.{◌≡◌, ◌≢◌, ◌≤◌, ◌↔◌, All, IfOk, IsTrue, List, length, take};
ghost use Rattle.std.specs.declared.option.Option.TheVariants.{None};
ghost use Rattle.sparse_poly.specs.declared.Term.{Term};
ghost use Rattle.sparse_poly.specs.Reads.{main_variable, HaveMainVariables};
ghost use Rattle.char_set.specs.Triangular.{initial, IsDecided, IsMainOf, IsTriangular};

use sparse_poly::Poly;
use std::alloc::AllocError;

/// The initial: the coefficient of the highest power of the main variable. It fails only where no memory is left.
pub fn initial(p: &Poly) -> Result<Poly, AllocError>
    requires { main_variable p.now ≢ None }
    ensures { IfOk result (λ i. i ≡ initial p.now) }
{
    let Some(main) = p.main() else { unreachable!() };
    p.coefficient_in(main, p.degree_in(main))
}

/// Whether the initial is a unit. It fails only where no memory is left.
pub fn decided(p: &Poly, units: &[Poly]) -> Result<bool, AllocError>
    requires { main_variable p.now ≢ None }
    ensures { IfOk result (λ b. IsTrue b ↔ IsDecided units.now p.now) }
{
    initial(p)?.is_unit(units)
}

/// Whether a list is triangular: no member is constant, main variables differ, and each initial is a unit. It fails only where no memory is
/// left.
pub fn is_triangular(equations: &[Poly], units: &[Poly]) -> Result<bool, AllocError>
    ensures { IfOk result (λ b. IsTrue b ↔ IsTriangular equations.now units.now) }
{
    if !have_main_variables(equations) {
        return Ok(false);
    }
    are_decided(equations, units)
}

/// Whether no member is constant and main variables differ, as a full remainder by the list asks.
pub fn have_main_variables(list: &[Poly]) -> bool
    ensures { IsTrue result ↔ HaveMainVariables list.now }
{
    for (i, poly) in list.iter().enumerate() {
        let Some(main) = poly.main() else {
            return false;
        };
        if is_main_of(first(list, i), main) {
            return false;
        }
    }
    true
}

// The first members.
fn first(list: &[Poly], count: usize) -> &[Poly]
    requires { count ≤ length list.now }
    ensures { result.now ≡ take count list.now }
{
    &list[..count]
}

// Whether a variable is the main one of a member.
fn is_main_of(list: &[Poly], var: u32) -> bool
    ensures { IsTrue result ↔ IsMainOf list.now var }
{
    for poly in list {
        if poly.main() == Some(var) {
            return true;
        }
    }
    false
}

// Whether the initial of each member is a unit.
fn are_decided(list: &[Poly], units: &[Poly]) -> Result<bool, AllocError>
    requires { All (λ (p : List Term). main_variable p ≢ None) list.now }
    ensures { IfOk result (λ b. IsTrue b ↔ All (IsDecided units.now) list.now) }
{
    for poly in list {
        if !decided(poly, units)? {
            return Ok(false);
        }
    }
    Ok(true)
}
