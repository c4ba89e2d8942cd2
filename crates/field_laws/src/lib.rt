//! Fields of characteristic zero as meanings alone, and the rational numbers.
//!
//! No call of a field runs. A function that is generic in a `CharZeroField` states a law of every
//! such field: its body is empty, and its contract is the law.
#![tactic(auto)]

ghost use Rattle.std.specs.Prelude.{◌≡◌, ◌≢◌, ◌⊎◌, ℕ, ◌+◌, ℤ, pos, ◌+ℤ◌, ◌*ℤ◌, neg_ℤ, List, ◌++◌};
ghost use Rattle.field_laws.specs.Field.{Field, IsField, IsElement, whole, total, power, AllElements};
ghost use Rattle.field_laws.specs.Rational.{rationals};
ghost use Rattle.field_laws.specs.RationalLaws.{rational_laws};

/// A field of characteristic zero. It has meanings alone: no call runs.
pub trait CharZeroField {
    /// The values among which the elements stand.
    type El;

    /// Which values are elements, zero, one, and plus, minus, times and inverse.
    ghost field: { Field Self.El };

    /// The laws of a field, and that a nonzero whole number times one is not zero.
    ghost laws: { IsField field };
}

/// The rational numbers: a value is a numerator and a denominator, and the elements are the pairs in
/// lowest terms with a positive denominator.
pub struct Rationals;

impl CharZeroField for Rationals {
    type El = (i128, u128);

    ghost field = { rationals };

    ghost laws = { rational_laws };
}

/// Two values of a field are equal or not. So each value is zero or not, though a field has no test
/// of it.
pub fn decide_law<F: CharZeroField>()
    ensures { (a b : F.El) → (a ≡ b) ⊎ (a ≢ b) }
{}

/// In every field the image of a sum of whole numbers is the sum of the images.
pub fn whole_sum_law<F: CharZeroField>()
    ensures { (a b : ℤ) → whole F.field (a +ℤ b) ≡ F.field.plus (whole F.field a) (whole F.field b) }
{}

/// In every field the image of a product of whole numbers is the product of the images.
pub fn whole_product_law<F: CharZeroField>()
    ensures { (a b : ℤ) → whole F.field (a *ℤ b) ≡ F.field.times (whole F.field a) (whole F.field b) }
{}

/// In every field the image of the negation of a whole number is minus the image.
pub fn whole_negation_law<F: CharZeroField>()
    ensures { (a : ℤ) → whole F.field (neg_ℤ a) ≡ F.field.minus (whole F.field a) }
{}

/// In every field the image of a whole number is an element, and it is not zero where the number is
/// not 0.
pub fn whole_nonzero_law<F: CharZeroField>()
    ensures element { (a : ℤ) → IsElement F.field (whole F.field a) }
    ensures nonzero { (a : ℤ) → a ≢ pos 0 → whole F.field a ≢ F.field.zero }
{}

/// In every field the sum of the elements of two lists is the sum of both sums.
pub fn total_append_law<F: CharZeroField>()
    ensures { (xs ys : List F.El) → AllElements F.field xs → AllElements F.field ys → total F.field (xs ++ ys) ≡ F.field.plus (total F.field xs) (total F.field ys) }
{}

/// In every field a power by a sum of exponents is the product of the powers.
pub fn power_sum_law<F: CharZeroField>()
    ensures { (a : F.El) (m n : ℕ) → IsElement F.field a → power F.field a (m + n) ≡ F.field.times (power F.field a m) (power F.field a n) }
{}

#[cfg(test)]
mod tests {
    use super::*;

    // A law at the rational numbers, by a call with no value of the field.
    fn whole_sum_of_rationals()
        ensures { (a b : ℤ) → whole rationals (a +ℤ b) ≡ rationals.plus (whole rationals a) (whole rationals b) }
    {
        whole_sum_law::<Rationals>()
    }

    #[test]
    fn laws_are_called_at_the_rationals() {
        whole_sum_of_rationals();
        whole_product_law::<Rationals>();
        whole_negation_law::<Rationals>();
        whole_nonzero_law::<Rationals>();
        total_append_law::<Rationals>();
        power_sum_law::<Rationals>();
        decide_law::<Rationals>();
    }
}
