//! Which lines share a place in the table.

ghost use Rattle.std.specs.Prelude.{◌≡◌, ◌≤◌, ◌↔◌, IsTrue};
ghost use Rattle.cert_text.specs.Fields.{ended, line_fields};
ghost use Rattle.cert_text.specs.Numbers.{HasLineInRange};
ghost use Rattle.cert_text.specs.Tables.{is_same};
ghost use Rattle.leaf_cert.specs.Variables.{HasLineVariablesBelow};

/// Two lines of a derivation whose numbers are in range are the same in all their parts exactly where their texts are the same.
pub fn line_text_law()
    ensures { (u first second : _) → u ≤ 4096 → HasLineInRange first → HasLineInRange second → HasLineVariablesBelow u first → HasLineVariablesBelow u second → IsTrue (is_same first second) ↔ (ended (line_fields first) ≡ ended (line_fields second)) }
{}
