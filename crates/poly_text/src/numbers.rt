//! The numbers of a polynomial's text.

ghost use Rattle.std.specs.Prelude.{◌≡◌, ◌<◌, ◌≤◌, ◌+◌, ◌-◌, ◌*◌, ◌⊎◌, ℕ, true, false, Err, MatchResult};
ghost use Rattle.sparse_poly.specs.Contributions.{max_coeff};
ghost use Rattle.poly_text.specs.Form.{is_digit};
ghost use Rattle.poly_text.specs.State.{Letter, VariableZero, Caret, FactorEnd, Signed};
ghost use Rattle.poly_text.specs.Numbers.{number_from, after_digits};
ghost use Rattle.poly_text.specs.Scan.{scan};
ghost use Rattle.poly_text.specs.Fronts.{begins_with, IsNumberFront, IsNoNumber, IsNumberRead, IsCoefficientRead};

use crate::form::{SyntaxFault, begins_with, begins_with_digit, behind, note};

/// The greatest absolute value of a coefficient.
const MAX_COEFF: u128 = i128::MAX as u128;

/// A number with one digit more, or another great one where either is greater than any in range.
fn with_digit(number: u128, digit: u8) -> u128
    requires { is_digit digit ≡ true }
    ensures exact { result ≤ max_coeff → (number ≤ max_coeff) × (result ≡ 10 * number + (digit - 48)) }
    ensures great { max_coeff < result → (max_coeff < number) ⊎ ((number ≤ max_coeff) × (max_coeff < 10 * number + (digit - 48))) }
{
    if number > MAX_COEFF {
        return number;
    }
    number
        .saturating_mul(10)
        .saturating_add((digit - b'0') as u128)
}

/// The digits at the front of a text as a number, or as a greater one than any in range where that is
/// out of range, and what follows them.
fn split_digits(text: &[u8]) -> (u128, &[u8])
    ensures exact { result.0 ≤ max_coeff → number_from 0 text.now ≡ result.0 }
    ensures great { max_coeff < result.0 → max_coeff < number_from 0 text.now }
    ensures rest { result.1.now ≡ after_digits text.now }
{
    let mut number = 0u128;
    let mut rest = text;
    'digits: while begins_with_digit(rest) {
        number = with_digit(number, rest[0]);
        rest = behind(rest, 1);
    }
    (number, rest)
}

/// The number at the front of a text, which has no leading zeros, and what follows it.
fn split_number(text: &[u8]) -> Result<(u128, &[u8]), SyntaxFault>
    ensures { MatchResult result (λ r. IsNumberFront text.now r.0 r.1.now) (λ e. IsNoNumber text.now e.left) }
{
    if !begins_with_digit(text) {
        return Err(SyntaxFault { left: text.len() });
    }
    if begins_with(text, b'0') && begins_with_digit(behind(text, 1)) {
        return Err(SyntaxFault {
            left: text.len() - 1,
        });
    }
    Ok(split_digits(text))
}

/// The variable at the front of a text, or 0 where it is out of range, and what follows it.
pub(crate) fn split_variable<'a>(
    unknowns: u32,
    text: &'a [u8],
    fault: &mut Option<usize>,
) -> Result<(u32, &'a [u8]), SyntaxFault>
    ensures { MatchResult result (λ r. IsNumberRead unknowns Letter VariableZero fault.old fault.new text.now r.0 r.1.now) (λ e. scan unknowns fault.old Letter text.now ≡ Err e.left) }
{
    let (number, rest) = split_number(text)?;
    if number < unknowns as u128 {
        Ok((number as u32, rest))
    } else {
        note(fault, text.len());
        Ok((0, rest))
    }
}

/// The exponent at the front of a text, or 0 where it is out of range, and what follows it.
pub(crate) fn split_exponent<'a>(
    text: &'a [u8],
    fault: &mut Option<usize>,
) -> Result<(u16, &'a [u8]), SyntaxFault>
    ensures { (unknowns : ℕ) → MatchResult result (λ r. IsNumberRead unknowns Caret FactorEnd fault.old fault.new text.now r.0 r.1.now) (λ e. scan unknowns fault.old Caret text.now ≡ Err e.left) }
{
    let (number, rest) = split_number(text)?;
    if 2 <= number && number <= 65535 {
        Ok((number as u16, rest))
    } else {
        note(fault, text.len());
        Ok((0, rest))
    }
}

/// The absolute value of the coefficient at the front of a text, or the greatest where it is out of
/// range, and what follows it.
pub(crate) fn split_coefficient<'a>(
    text: &'a [u8],
    fault: &mut Option<usize>,
) -> Result<(u128, &'a [u8]), SyntaxFault>
    requires { begins_with text.now 120 ≡ false }
    ensures { (unknowns : ℕ) → MatchResult result (λ r. IsCoefficientRead unknowns fault.old fault.new text.now r.0 r.1.now) (λ e. scan unknowns fault.old Signed text.now ≡ Err e.left) }
{
    if !begins_with_digit(text) || begins_with(text, b'0') {
        return Err(SyntaxFault { left: text.len() });
    }
    let (number, rest) = split_digits(text);
    if number <= MAX_COEFF {
        Ok((number, rest))
    } else {
        note(fault, text.len());
        Ok((MAX_COEFF, rest))
    }
}
