//! Whole numbers in decimal digits without leading zeros, of any size: the number in a range, or why there is none; and signed ones.
#![tactic(auto)]

ghost use Rattle.std.specs.Prelude.{◌≡◌, ◌<◌, ◌≤◌, ◌^◌, ℕ, ℤ, List, ◌∷◌, true, decimal, MatchOption, MatchResult};
ghost use Rattle.decimal_text.specs.Numerals.{is_digit, are_digits, is_numeral, number, IsNumeralFault, IsSignedText};

mod laws;

pub use laws::numeral_law;

/// Why a text is no number in a range.
#[derive(Clone, Copy, Debug, Drop, PartialEq, Eq)]
pub enum NumeralFault {
    /// It is not a number in digits without leading zeros.
    Form,
    /// It is one, of any size, and out of range.
    Range,
}

// Whether a byte is a digit.
fn is_digit(byte: u8) -> bool
    ensures { result ≡ is_digit byte }
{
    48 <= byte && byte <= 57
}

/// Whether a text is a number in digits without leading zeros, of any size.
pub fn is_numeral(text: &[u8]) -> bool
    ensures { result ≡ is_numeral text.now }
{
    match text {
        [] => false,
        [first] => is_digit(*first),
        [first, rest @ ..] => *first != 48 && is_digit(*first) && are_digits(rest),
    }
}

// Whether all bytes are digits.
fn are_digits(text: &[u8]) -> bool
    ensures { result ≡ are_digits text.now }
{
    'digits: for byte in text {
        if !is_digit(*byte) {
            return false;
        }
    }
    true
}

// The number that digits write, if it is below 2^128.
fn number(text: &[u8]) -> Option<u128>
    requires { are_digits text.now ≡ true }
    ensures { MatchOption result (2 ^ 128 ≤ number text.now) (λ n. n ≡ number text.now) }
{
    let mut number = 0u128;
    'digits: for byte in text {
        number = number.checked_mul(10)?.checked_add((*byte - b'0') as u128)?;
    }
    Some(number)
}

// The number of at most `max` whose one text this is.
fn read_up_to(text: &[u8], max: u128) -> Result<u128, NumeralFault>
    ensures { MatchResult result (λ n. (text.now ≡ decimal n) × (n ≤ max)) (IsNumeralFault max text.now) }
{
    if !is_numeral(text) {
        return Err(NumeralFault::Form);
    }
    match number(text) {
        Some(number) if number <= max => Ok(number),
        _ => Err(NumeralFault::Range),
    }
}

/// The number of at most `max` whose one text this is. `Form` comes exactly where the text is no number in digits without leading zeros, and
/// `Range` exactly where it is one above `max`.
pub fn read_number(text: &[u8], max: u64) -> Result<u64, NumeralFault>
    ensures { MatchResult result (λ n. (text.now ≡ decimal n) × (n ≤ max)) (IsNumeralFault max text.now) }
{
    match read_up_to(text, max as u128) {
        Ok(number) => Ok(number as u64),
        Err(fault) => Err(fault),
    }
}

// What follows a minus sign.
fn after_minus(text: &[u8]) -> Option<&[u8]>
    ensures { MatchOption result ((rest : List ℕ) → text.now ≡ 45 ∷ rest → ⊥) (λ rest. text.now ≡ 45 ∷ rest.now) }
{
    match text {
        [b'-', rest @ ..] => Some(rest),
        _ => None,
    }
}

/// The number of an absolute value of at most `max` whose one text this is: digits without leading zeros, after `-` where it is below 0. `None`
/// comes exactly where the text is that of no such number.
pub fn read_signed(text: &[u8], max: u128) -> Option<i128>
    requires { max < 2 ^ 127 }
    ensures { MatchOption result ((v : ℤ) → IsSignedText max text.now v → ⊥) (IsSignedText max text.now) }
{
    match after_minus(text) {
        Some(digits) => match read_up_to(digits, max) {
            Ok(0) => None,
            Ok(size) => Some(-(size as i128)),
            Err(_) => None,
        },
        None => match read_up_to(text, max) {
            Ok(size) => Some(size as i128),
            Err(_) => None,
        },
    }
}
