//! What the equations of the inverses and of the gauge are in every field.

ghost use Rattle.std.specs.Prelude.{◌≡◌, ◌↔◌, All};
ghost use Rattle.field_laws.specs.Field.{AllElements};
ghost use Rattle.sparse_poly.specs.Polynomials.{eval};
ghost use Rattle.symbol_equations.specs.Values.{symbol_value};
ghost use Rattle.gauge_fix.specs.Inverses.{Inverses, AreInverseDifferences};
ghost use Rattle.gauge_fix.specs.Gauge.{Gauge, AreGaugeDifferences};

use field_laws::CharZeroField;

/// In every field the differences vanish exactly where the inverses hold.
pub fn inverse_law<F: CharZeroField>()
    ensures { (r x ps : _) → AllElements F.field x → AreInverseDifferences r ps → (All (λ p. eval F.field x p ≡ F.field.zero) ps ↔ Inverses F.field r (symbol_value F.field r x)) }
{}

/// In every field the differences vanish exactly where each named symbol equals the image of its
/// whole number.
pub fn gauge_law<F: CharZeroField>()
    ensures { (r x gauge ps : _) → AllElements F.field x → AreGaugeDifferences r gauge ps → (All (λ p. eval F.field x p ≡ F.field.zero) ps ↔ Gauge F.field (symbol_value F.field r x) gauge) }
{}
