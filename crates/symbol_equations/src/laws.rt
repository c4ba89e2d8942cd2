//! What differences are in every field.

ghost use Rattle.std.specs.Prelude.{◌≡◌, ◌↔◌};
ghost use Rattle.field_laws.specs.Field.{AllElements};
ghost use Rattle.sparse_poly.specs.Polynomials.{eval};
ghost use Rattle.symbol_equations.specs.Values.{symbol_value, side_value};
ghost use Rattle.symbol_equations.specs.Differences.{IsDifference};

use field_laws::CharZeroField;

/// In every field the difference vanishes exactly where both sides have one value.
pub fn difference_law<F: CharZeroField>()
    ensures { (r x left right p : _) → AllElements F.field x → IsDifference r left right p → ((eval F.field x p ≡ F.field.zero) ↔ (side_value F.field (symbol_value F.field r x) left ≡ side_value F.field (symbol_value F.field r x) right)) }
{}
