//! Values at points where each variable is 1 or -1. Where a polynomial divides another openly, its value divides that of the other.
ghost use Rattle.std.specs.Prelude.{◌≡◌, ◌<◌, ◌≤◌, false, IfSome, unsigned_abs, List};
ghost use Rattle.sparse_poly.specs.declared.Term.{Term};
ghost use Rattle.sparse_poly.specs.Contributions.{max_coeff};
ghost use Rattle.sparse_poly.specs.Clearing.{DividesOpenly};
ghost use Rattle.sparse_poly.specs.Signs.{is_minus, is_minus_monomial, value_at};

use crate::Term;
use crate::dividing::divides_number;
use monomial::Monomial;

/// Whether at two points the value of a divisor divides that of a polynomial. Where it does not, no polynomial divides openly. Two points refuse
/// most divisions that fail midway, and a third few more.
pub fn values_divide(terms: &[Term], divisor: &[Term]) -> bool
    ensures { result ≡ false → (g : List Term) → DividesOpenly divisor.now terms.now g → ⊥ }
{
    value_divides(37, terms, divisor) && value_divides(43, terms, divisor)
}

// Whether the value of a divisor at a point divides that of a polynomial.
fn value_divides(point: u64, terms: &[Term], divisor: &[Term]) -> bool
    requires { 0 < point }
    ensures { result ≡ false → (g : List Term) → DividesOpenly divisor.now terms.now g → ⊥ }
{
    let Some(number) = value_at(point, terms) else {
        return true;
    };
    let Some(by) = value_at(point, divisor) else {
        return true;
    };
    if by == 0 {
        return number == 0;
    }
    divides_number(by, number)
}

// The value of a polynomial at a point, where the sums on the way are in range.
fn value_at(point: u64, terms: &[Term]) -> Option<i128>
    requires { 0 < point }
    ensures value { IfSome result (λ v. v ≡ value_at point terms.now) }
    ensures small { IfSome result (λ v. unsigned_abs v ≤ max_coeff) }
{
    let mut value: i128 = 0;
    for term in terms {
        value = if is_minus_monomial(point, &term.monomial) {
            value.checked_sub(term.coeff)?
        } else {
            value.checked_add(term.coeff)?
        };
    }
    if value == i128::MIN {
        return None;
    }
    Some(value)
}

// Whether a monomial is -1 at a point, and not 1.
fn is_minus_monomial(point: u64, monomial: &Monomial) -> bool
    requires { 0 < point }
    ensures { result ≡ is_minus_monomial point monomial.now }
{
    let mut minus = false;
    for (var, exp) in monomial.powers() {
        if is_minus(point, var) && exp % 2 == 1 {
            minus = !minus;
        }
    }
    minus
}

// Whether a variable is -1 at a point, and not 1.
fn is_minus(point: u64, var: u32) -> bool
    requires { 0 < point }
    ensures { result ≡ is_minus point var }
{
    let var = u64::from(var);
    var * var % point < point - var * var % point
}
