//! The order of terms and factors.

ghost use Rattle.std.specs.Prelude.{◌≡◌, IfOk, None, Some, option_map, map};
ghost use Rattle.std.specs.Ordering.{is_lt};
ghost use Rattle.monomial.specs.Monomials.{monomial_cmp};
ghost use Rattle.poly_text.specs.Order.{product, is_below, first_factor};
ghost use Rattle.poly_text.specs.Raw.{raw};
ghost use Rattle.poly_text.specs.Places.{last_monomial, is_falling};

use crate::factors::product;
use crate::raw::RawTerm;
use std::alloc::{AllocError, Global};

/// The first factor whose variable is not below the one before.
fn first_factor(powers: &[(u32, u16)]) -> Option<usize>
    ensures { result ≡ first_factor 0 powers.now }
{
    let mut at = 1;
    'factors: while at < powers.len() {
        if powers[at - 1].0 <= powers[at].0 {
            return Some(at);
        }
        at += 1;
    }
    None
}

fn widened(alloc: Global, powers: &[(u32, u16)]) -> Result<Vec<(u32, u128)>, AllocError>
    ensures { IfOk result (λ v. v.items ≡ powers.now) }
{
    let mut wide = Vec::new(alloc);
    'powers: for power in powers {
        wide.push((power.0, power.1 as u128))?;
    }
    Ok(wide)
}

fn is_less(first: &[(u32, u128)], second: &[(u32, u128)]) -> bool
    ensures { result ≡ is_lt (monomial_cmp first.now second.now) }
{
    first.cmp(second).is_lt()
}

fn is_less_ordered(first: &[(u32, u16)], second: &[(u32, u16)]) -> bool
    ensures { result ≡ is_lt (monomial_cmp first.now second.now) }
{
    first.cmp(second).is_lt()
}

/// Whether the product of factors in any order is below the monomial before.
fn is_product_below(
    alloc: Global,
    before: &[(u32, u16)],
    powers: &[(u32, u16)],
) -> Result<bool, AllocError>
    ensures { IfOk result (λ b. b ≡ is_below (Some before.now) (product powers.now)) }
{
    let product = product(alloc, powers)?;
    let before = widened(alloc, before)?;
    Ok(is_less(&product, &before))
}

pub(crate) fn is_term_below(
    alloc: Global,
    before: Option<&[(u32, u16)]>,
    powers: &[(u32, u16)],
) -> Result<bool, AllocError>
    ensures { IfOk result (λ b. b ≡ is_below (option_map (λ s. s.now) before.entry) (product powers.now)) }
{
    let Some(before) = before else {
        return Ok(true);
    };
    match first_factor(powers) {
        None => Ok(is_less_ordered(powers, before)),
        Some(_) => is_product_below(alloc, before, powers),
    }
}

/// The factors of the last term, if there is one.
pub(crate) fn last_powers(terms: &[RawTerm]) -> Option<&[(u32, u16)]>
    ensures { option_map (λ s. s.now) result ≡ last_monomial None (map raw terms.now) }
{
    match terms {
        [] => None,
        [.., last] => Some(last.powers.as_slice()),
    }
}

/// Whether a variable is below that of the last factor, where there is one.
pub(crate) fn is_falling(powers: &[(u32, u16)], variable: u32) -> bool
    ensures { result ≡ is_falling powers.now variable }
{
    match powers {
        [] => true,
        [.., last] => variable < last.0,
    }
}
