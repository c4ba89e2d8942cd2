//! Variables that polynomials are, or in which they are linear.
ghost use Rattle.std.specs.Prelude.{◌≡◌, ◌≢◌, ◌↔◌, ◌∷◌, ℕ, [], IsTrue, MatchOption};
ghost use Rattle.case_rules.specs.Rules.{IsLinearIn};
ghost use Rattle.case_split.specs.Found.{IsVariable};

use monomial::Monomial;
use sparse_poly::Poly;

// The variable that a monomial is.
fn variable_of(monomial: &Monomial) -> Option<u32>
    ensures { MatchOption result ((v : ℕ) → monomial.now ≢ (v, 1) ∷ []) (λ v. monomial.now ≡ (v, 1) ∷ []) }
{
    if monomial.len() != 1 {
        return None;
    }
    let (var, exp) = monomial.power_at(0);
    if exp != 1 {
        return None;
    }
    Some(var)
}

/// Whether a polynomial is a variable.
pub fn is_variable(poly: &Poly) -> bool
    ensures { IsTrue result ↔ IsVariable poly.now }
{
    let [term] = poly.terms() else {
        return false;
    };
    term.coeff == 1 && variable_of(&term.monomial).is_some()
}

/// The main variable of a polynomial that has degree 1 in it and a constant initial. Then the leading monomial is this variable, so no initial is
/// made.
pub fn linear_in(poly: &Poly) -> Option<u32>
    ensures { MatchOption result ((v : ℕ) → IsLinearIn poly.now v → ⊥) (IsLinearIn poly.now) }
{
    let leading = poly.terms().first()?;
    variable_of(&leading.monomial)
}
