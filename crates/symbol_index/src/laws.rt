//! What the numbers of the unknowns say together.

ghost use Rattle.std.specs.Prelude.{◌≡◌, ◌↔◌, true, Some, Contains, slice_get};
ghost use Rattle.symbol_index.specs.Symbols.{is_unknown, unknowns, standing};

use crate::Standing;

/// In each ring the unknown of number i stands as `Unknown(i)`, and what stands so is the unknown of
/// number i. So `symbol_at` and `standing` are inverse to each other. The numbers are those of the
/// admissible symbols without a unit, and of no others.
pub fn number_law()
    ensures inverse { (r i s : _) → (slice_get (unknowns r) i ≡ Some s) ↔ (standing r s ≡ Standing.Unknown i) }
    ensures all { (r s : _) → Contains (unknowns r) s ↔ (is_unknown r s ≡ true) }
{}
