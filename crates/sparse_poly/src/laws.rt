//! Laws of polynomials, and of their values in every field of characteristic zero.
//!
//! A list of terms stands for the map `coefficient` from monomials to whole numbers, and `IsSum r cs` says that r has the map of cs. The laws of
//! values have no bound on coefficients and exponents and no order of the terms: `p ++ q` is the sum of two, `products p q` their product.
ghost use Rattle.std.specs.Prelude.{◌≡◌, ◌≢◌, ◌↔◌, ◌++◌, ◌+ℤ◌, neg_ℤ, []};
ghost use Rattle.std.specs.Cmp.{IsTotalOrder};
ghost use Rattle.std.specs.FinMap.{IsAntisymmetric};
ghost use Rattle.field_laws.specs.Field.{AllElements};
ghost use Rattle.sparse_poly.specs.Polynomials.{coefficient, eval, products, negated, IsSum};
ghost use Rattle.sparse_poly.specs.Contributions.{IsPoly};
ghost use Rattle.sparse_poly.specs.Order.{poly_cmp};
ghost use Rattle.sparse_poly.specs.Primitive.{IsPrimitivePart};
ghost use Rattle.sparse_poly.specs.Clearing.{DividesOpenly, IsCleared, IsUnit};
ghost use Rattle.sparse_poly.specs.Units.{IsStripped, AllNonzero};

use field_laws::CharZeroField;

/// A polynomial is the map of its coefficients: two with the same coefficients are the same. The coefficients of a sum are the sums, and those
/// of a negation the negations.
pub fn coefficients_law()
    ensures same { (p q : _) → IsPoly p → IsPoly q → IsSum p q → p ≡ q }
    ensures sum { (p q : _) (m : _) → coefficient (p ++ q) m ≡ coefficient p m +ℤ coefficient q m }
    ensures negation { (p : _) (m : _) → coefficient (negated p) m ≡ neg_ℤ (coefficient p m) }
{}

/// The order of polynomials is total, and only equal ones tie.
pub fn order_law()
    ensures total { IsTotalOrder poly_cmp }
    ensures ties { IsAntisymmetric poly_cmp }
{}

/// The value depends on the coefficients alone.
pub fn value_law<F: CharZeroField>()
    ensures { (s : _) (p q : _) → AllElements F.field s → IsSum p q → eval F.field s p ≡ eval F.field s q }
{}

/// The value of a product is the product of the values.
pub fn product_law<F: CharZeroField>()
    ensures { (s : _) (p q r : _) → AllElements F.field s → IsSum r (products p q) → eval F.field s r ≡ F.field.times (eval F.field s p) (eval F.field s q) }
{}

/// The value of a sum is the sum of the values.
pub fn sum_law<F: CharZeroField>()
    ensures { (s : _) (p q r : _) → AllElements F.field s → IsSum r (p ++ q) → eval F.field s r ≡ F.field.plus (eval F.field s p) (eval F.field s q) }
{}

/// The value of a difference is the difference of the values.
pub fn subtraction_law<F: CharZeroField>()
    ensures { (s : _) (p q r : _) → AllElements F.field s → IsSum r (p ++ negated q) → eval F.field s r ≡ F.field.plus (eval F.field s p) (F.field.minus (eval F.field s q)) }
{}

/// The value of `l*q - a*p` is that of the values.
pub fn combined_law<F: CharZeroField>()
    ensures { (s : _) (l q a p r : _) → AllElements F.field s → IsSum r (products l q ++ negated (products a p)) → eval F.field s r ≡ F.field.plus (F.field.times (eval F.field s l) (eval F.field s q)) (F.field.minus (F.field.times (eval F.field s a) (eval F.field s p))) }
{}

/// A primitive part vanishes exactly where the polynomial does.
pub fn primitive_law<F: CharZeroField>()
    ensures { (s : _) (p q : _) → AllElements F.field s → IsPrimitivePart p q → eval F.field s p ≡ F.field.zero ↔ eval F.field s q ≡ F.field.zero }
{}

/// Where no member of the units vanishes, a unit does not vanish.
pub fn unit_law<F: CharZeroField>()
    ensures { (s : _) (units : _) (p : _) → AllElements F.field s → AllNonzero F.field s units → IsUnit units p → eval F.field s p ≢ F.field.zero }
{}

/// The value of a polynomial is that of its factor times that of its rest.
pub fn strip_law<F: CharZeroField>()
    ensures { (s : _) (units : _) (p factor rest : _) → AllElements F.field s → IsStripped units p factor rest → eval F.field s p ≡ F.field.times (eval F.field s factor) (eval F.field s rest) }
{}

/// The value of a polynomial is that of its factor times that of its rest, once it is cleared.
pub fn clear_law<F: CharZeroField>()
    ensures { (s : _) (units : _) (p factor rest : _) → AllElements F.field s → IsCleared units p factor rest → eval F.field s p ≡ F.field.times (eval F.field s factor) (eval F.field s rest) }
{}

/// There is one quotient, one strip and one clearing of a polynomial.
pub fn one_clearing_law()
    ensures quotient { (n p g h : _) → IsPoly n → n ≢ [] → DividesOpenly n p g → DividesOpenly n p h → g ≡ h }
    ensures strip { (units : _) (p f r f' r' : _) → IsPoly p → IsStripped units p f r → IsStripped units p f' r' → (f ≡ f') × (r ≡ r') }
    ensures clearing { (units : _) (p f r f' r' : _) → IsPoly p → IsCleared units p f r → IsCleared units p f' r' → (f ≡ f') × (r ≡ r') }
{}

/// What is divided out of a polynomial times the rest is the polynomial, by its coefficients, and both are polynomials.
pub fn clearing_product_law()
    ensures product { (units : _) (p factor rest : _) → IsCleared units p factor rest → IsSum p (products factor rest) }
    ensures polynomials { (units : _) (p factor rest : _) → IsCleared units p factor rest → IsPoly factor × IsPoly rest }
{}
