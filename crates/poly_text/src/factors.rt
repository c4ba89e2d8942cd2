//! The product of factors in any order.

ghost use Rattle.std.specs.Prelude.{◌≡◌, ◌+◌, ◌*◌, ◌^◌, ◌∷◌, [], IfOk, OnOk, length};
ghost use Rattle.monomial.specs.Monomials.{monomial_times};
ghost use Rattle.poly_text.specs.Order.{product, AreAtMost};

use std::alloc::{AllocError, Global};
use std::cmp::Ordering;

// The product of one factor.
fn single(alloc: Global, power: (u32, u16)) -> Result<Vec<(u32, u128)>, AllocError>
    ensures product { IfOk result (λ v. v.items ≡ power ∷ []) }
    ensures bounded { IfOk result (λ v. AreAtMost 65535 v.items) }
{
    let mut product = Vec::new(alloc);
    product.push((power.0, u128::from(power.1)))?;
    Ok(product)
}

/// The product of two products of factors, whose variables fall.
fn times(
    alloc: Global,
    first: &[(u32, u128)],
    second: &[(u32, u128)],
) -> Result<Vec<(u32, u128)>, AllocError>
    requires first { AreAtMost (2 ^ 126) first.now }
    requires second { AreAtMost (2 ^ 126) second.now }
    ensures { IfOk result (λ v. v.items ≡ monomial_times first.now second.now) }
{
    let mut merged = Vec::with_capacity(alloc, first.len() + second.len())?;
    let mut i = 0;
    let mut j = 0;
    'both: while i < first.len() && j < second.len() {
        let x = first[i];
        let y = second[j];
        match x.0.cmp(&y.0) {
            Ordering::Less => {
                merged.push(y)?;
                j += 1;
            }
            Ordering::Equal => {
                merged.push((x.0, x.1 + y.1))?;
                i += 1;
                j += 1;
            }
            Ordering::Greater => {
                merged.push(x)?;
                i += 1;
            }
        }
    }
    merged.extend_from_slice(&first[i..])?;
    merged.extend_from_slice(&second[j..])?;
    Ok(merged)
}

/// The product of factors in any order, by halves: one insertion a factor would take a quadratic number of
/// steps.
pub(crate) fn product(alloc: Global, powers: &[(u32, u16)]) -> Result<Vec<(u32, u128)>, AllocError>
    ensures product { IfOk result (λ v. v.items ≡ product powers.now) }
    ensures bounded { IfOk result (λ v. AreAtMost (65535 * length powers.now) v.items) }
{
    match powers {
        [] => Ok(Vec::new(alloc)),
        [power] => single(alloc, *power),
        _ => {
            let (first, second) = powers.split_at(powers.len() / 2);
            let first = product(alloc, first)?;
            let second = product(alloc, second)?;
            times(alloc, &first, &second)
        }
    }
}
