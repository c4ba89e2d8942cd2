//! Laws of polynomials: what their degree, main variable, coefficients and products are, in terms of single monomials.
#![tactic(auto)]

ghost use Rattle.std.specs.Prelude.{◌≡◌, ◌<◌, ◌↔◌, pos};
ghost use Rattle.std.specs.declared.option.Option.TheVariants.{None, Some};
ghost use Rattle.monomial.specs.Monomials.{exponent, monomial_times, IsPowers};
ghost use Rattle.sparse_poly.specs.Polynomials.{coefficient, products, IsSum};
ghost use Rattle.sparse_poly.specs.Contributions.{contributions, degree_of, IsPoly};
ghost use Rattle.sparse_poly.specs.Reads.{coefficient_of_power, degree_in, main_variable};
ghost use Rattle.poly_laws.specs.Terms.{HavePowers, HaveNoneAbove, IsGreatestOf, IsGreatestExponent, variable_power};

/// A variable is named as one of too high degree exactly where a contribution has an exponent of it above 65,535 and none has one of a greater
/// variable; none is named exactly where no contribution has an exponent above 65,535. The contributions to a combination of polynomials are
/// such lists of terms.
pub fn degree_law()
    ensures greatest { (cs : _) (v : _) → HavePowers cs → (degree_of cs ≡ Some v) ↔ IsGreatestOf 65535 cs v }
    ensures none { (cs : _) → HavePowers cs → (degree_of cs ≡ None) ↔ HaveNoneAbove 65535 cs }
    ensures combination { (l q a p : _) → IsPoly l → IsPoly q → IsPoly a → IsPoly p → HavePowers (contributions l q a p) }
{}

/// The main variable is the greatest variable that occurs, and there is none exactly where no variable occurs.
pub fn main_variable_law()
    ensures greatest { (p : _) (v : _) → IsPoly p → (main_variable p ≡ Some v) ↔ IsGreatestOf 0 p v }
    ensures none { (p : _) → IsPoly p → (main_variable p ≡ None) ↔ HaveNoneAbove 0 p }
{}

/// The degree in a variable is its greatest exponent in a monomial, and 0 where there is none.
pub fn degree_in_law()
    ensures { (v : _) (p : _) (d : _) → (degree_in v p ≡ d) ↔ IsGreatestExponent v p d }
{}

/// The coefficient of `v^k` has at each monomial m without v the coefficient of the polynomial at `m*v^k`, and 0 at each monomial with v.
pub fn coefficient_of_power_law()
    ensures without { (v k : _) (p : _) (m : _) → IsPoly p → IsPowers m → exponent m v ≡ 0 → coefficient (coefficient_of_power v k p) m ≡ coefficient p (monomial_times m (variable_power v k)) }
    ensures within { (v k : _) (p : _) (m : _) → 0 < exponent m v → coefficient (coefficient_of_power v k p) m ≡ pos 0 }
{}

/// The coefficients of a product depend on the coefficients of its factors alone.
pub fn product_coefficients_law()
    ensures { (p p' q q' : _) → IsSum p p' → IsSum q q' → IsSum (products p q) (products p' q') }
{}
