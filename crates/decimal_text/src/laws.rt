//! What the written numbers are.

ghost use Rattle.std.specs.Prelude.{◌≡◌, ◌<◌, ◌^◌, true, decimal};
ghost use Rattle.decimal_text.specs.Numerals.{is_numeral, number};

/// What `decimal` writes of a number is a numeral, of that number. So a number has one such text.
pub fn numeral_law()
    ensures { (n : _) → n < 2 ^ 64 → (is_numeral (decimal n) ≡ true) × (number (decimal n) ≡ n) }
{}
