//! What the hexagon equations are in every field.

ghost use Rattle.std.specs.Prelude.{◌≡◌, ◌↔◌, All};
ghost use Rattle.field_laws.specs.Field.{AllElements};
ghost use Rattle.sparse_poly.specs.Polynomials.{eval};
ghost use Rattle.symbol_equations.specs.Values.{symbol_value};
ghost use Rattle.hexagon_gen.specs.Hexagons.{Hexagons};
ghost use Rattle.hexagon_gen.specs.Differences.{AreHexagonDifferences};

use field_laws::CharZeroField;

/// In every field the differences vanish exactly where the hexagons hold.
pub fn hexagon_law<F: CharZeroField>()
    ensures { (r x ps : _) → AllElements F.field x → AreHexagonDifferences r ps → (All (λ p. eval F.field x p ≡ F.field.zero) ps ↔ Hexagons F.field r (symbol_value F.field r x)) }
{}
