//! Whether an item is a contradiction.
ghost use Rattle.std.specs.Prelude.{◌≡◌, ◌↔◌, false, IsTrue};
ghost use Rattle.derive_lines.specs.Lines.{conditions};
ghost use Rattle.derive_lines.specs.Known.{Holds};
ghost use Rattle.derive_lines.specs.Refuting.{IsNonzeroConstant, IsContradiction, Ends};

use derive_lines::{Decision, Item, Line, is_same, item_poly};
use sparse_poly::Poly;

/// Whether an item is a nonzero constant or a condition.
pub fn ends(root: &[Poly], decisions: &[Decision], lines: &[Line], end: Item) -> bool
    ensures { IsTrue result ↔ Ends root.now decisions.now lines.now end }
{
    let Some(poly) = item_poly(root, decisions, lines, end) else {
        return false;
    };
    is_contradiction(decisions, poly)
}

// Whether a polynomial is a nonzero constant or a condition.
fn is_contradiction(decisions: &[Decision], poly: &Poly) -> bool
    ensures { IsTrue result ↔ IsContradiction (conditions decisions.now) poly.now }
{
    if is_nonzero_constant(poly) {
        return true;
    }
    is_condition(decisions, poly)
}

/// Whether a polynomial is a nonzero constant.
pub fn is_nonzero_constant(poly: &Poly) -> bool
    ensures { IsTrue result ↔ IsNonzeroConstant poly.now }
{
    match poly.constant_value() {
        Some(n) => n != 0,
        None => false,
    }
}

// Whether a polynomial is a condition.
fn is_condition(decisions: &[Decision], poly: &Poly) -> bool
    ensures { IsTrue result ↔ Holds (conditions decisions.now) poly.now }
{
    for decision in decisions {
        if decision.zero {
            continue;
        }
        if is_same(&decision.poly, poly) {
            return true;
        }
    }
    false
}
