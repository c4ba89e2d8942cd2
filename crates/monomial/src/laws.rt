//! Laws of monomials. They speak of lists of powers alone, with no bound on exponents and variables.
ghost use Rattle.std.specs.Prelude.{◌≡◌, ◌≤◌, ◌+◌, ◌↔◌};
ghost use Rattle.std.specs.declared.option.Option.TheVariants.{None, Some};
ghost use Rattle.std.specs.Cmp.{IsTotalOrder};
ghost use Rattle.std.specs.FinMap.{IsAntisymmetric};
ghost use Rattle.std.specs.declared.cmp.Ordering.TheVariants.{Less};
ghost use Rattle.monomial.specs.Monomials.{exponent, monomial_cmp, monomial_times, too_high, top, IsGreatestAbove, IsLower, IsPowers};

/// A monomial is the map of its exponents: two with the same exponents are the same, and the exponents of a product are the sums.
pub fn exponents_law()
    ensures same { (a b : _) → IsPowers a → IsPowers b → ((v : _) → exponent a v ≡ exponent b v) → a ≡ b }
    ensures product { (a b : _) (v : _) → IsPowers a → IsPowers b → exponent (monomial_times a b) v ≡ exponent a v + exponent b v }
{}

/// The order of monomials is total, only equal ones tie, and a is below b exactly where, at the greatest variable in which their exponents
/// differ, a has the smaller one. A common factor does not change it.
pub fn order_law()
    ensures total { IsTotalOrder monomial_cmp }
    ensures ties { IsAntisymmetric monomial_cmp }
    ensures below { (a b : _) → IsPowers a → IsPowers b → (monomial_cmp a b ≡ Less) ↔ IsLower a b }
    ensures products { (m a b : _) → IsPowers m → IsPowers a → IsPowers b → (monomial_cmp a b ≡ Less) ↔ (monomial_cmp (monomial_times m a) (monomial_times m b) ≡ Less) }
{}

/// The top of a monomial is the greatest variable that occurs, and there is none exactly where no variable occurs.
pub fn top_law()
    ensures greatest { (m : _) (v : _) → IsPowers m → (top m ≡ Some v) ↔ IsGreatestAbove 0 (exponent m) v }
    ensures none { (m : _) → IsPowers m → (top m ≡ None) ↔ ((v : _) → exponent m v ≡ 0) }
{}

/// A variable is named as one of too high degree exactly where its exponent, in a product the sum of both exponents, is above 65,535 and that of
/// no greater variable is; none is named exactly where no exponent is above 65,535.
pub fn degree_law()
    ensures greatest { (m : _) (v : _) → IsPowers m → (too_high m ≡ Some v) ↔ IsGreatestAbove 65535 (exponent m) v }
    ensures none { (m : _) → IsPowers m → (too_high m ≡ None) ↔ ((v : _) → exponent m v ≤ 65535) }
    ensures product { (a b : _) (v : _) → IsPowers a → IsPowers b → (too_high (monomial_times a b) ≡ Some v) ↔ IsGreatestAbove 65535 (λ w. exponent a w + exponent b w) v }
    ensures whole { (a b : _) → IsPowers a → IsPowers b → (too_high (monomial_times a b) ≡ None) ↔ ((v : _) → exponent a v + exponent b v ≤ 65535) }
{}
