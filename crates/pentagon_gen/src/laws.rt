//! What the pentagon equations are in every field.

ghost use Rattle.std.specs.Prelude.{◌≡◌, ◌↔◌, All};
ghost use Rattle.field_laws.specs.Field.{AllElements};
ghost use Rattle.sparse_poly.specs.Polynomials.{eval};
ghost use Rattle.symbol_equations.specs.Values.{symbol_value};
ghost use Rattle.pentagon_gen.specs.Pentagon.{Pentagon};
ghost use Rattle.pentagon_gen.specs.Differences.{ArePentagonDifferences};

use field_laws::CharZeroField;

/// In every field the differences vanish exactly where the pentagons hold.
pub fn pentagon_law<F: CharZeroField>()
    ensures { (r x ps : _) → AllElements F.field x → ArePentagonDifferences r ps → (All (λ p. eval F.field x p ≡ F.field.zero) ps ↔ Pentagon F.field r (symbol_value F.field r x)) }
{}
