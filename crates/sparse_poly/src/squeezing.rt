//! The polynomial of two lists of shares.
ghost use Rattle.std.specs.Prelude.{◌≡◌, ◌++◌, MatchResult};
ghost use Rattle.sparse_poly.specs.Standing.{IsDescending, IsLightSum, IsHeavyFault};

use crate::entry::Share;
use crate::merging::next_share;
use crate::{PolyFault, Term};
use std::collections::VecDeque;

/// The sums of two lists of shares that fall, from the greatest monomial down.
pub fn squeeze(first: Vec<Share>, second: Vec<Share>) -> Result<Vec<Term>, PolyFault>
    requires first { IsDescending first.items }
    requires second { IsDescending second.items }
    ensures { MatchResult result (λ v. IsLightSum (first.items ++ second.items) v.items) (IsHeavyFault (first.items ++ second.items)) }
{
    let mut terms = Vec::with_capacity(
        *first.allocator(),
        first.len().saturating_add(second.len()),
    )?;
    let mut first = VecDeque::from(first);
    let mut second = VecDeque::from(second);
    'shares: while let Some(share) = next_share(&mut first, &mut second) {
        if share.weight > i128::MAX as u128 {
            return Err(PolyFault::Heavy {
                monomial: share.monomial,
            });
        }
        let _powers = share.monomial.len();
        if share.sum != 0 {
            terms.push_reserved(Term {
                monomial: share.monomial,
                coeff: share.sum,
            });
        }
    }
    Ok(trimmed(terms))
}

/// The same terms, which keep room for at most twice their number.
pub fn trimmed(terms: Vec<Term>) -> Vec<Term>
    ensures { result.items ≡ terms.items }
{
    let mut terms = terms;
    if terms.len() < terms.capacity() / 2 {
        terms.shrink_to_fit();
    }
    terms
}
