//! The merge of two lists of shares that fall by their monomials, with early sums.
ghost use Rattle.std.specs.Prelude.{◌≡◌, ◌+◌, ◌+ℤ◌, List, [], ◌∷◌, ◌++◌, IfOk};
ghost use Rattle.sparse_poly.specs.Standing.{Agree, StandsForBoth, IsNext, IsFront, IsMerged, IsSorted};

use crate::entry::Share;
use crate::weighing::joined_sum;
use std::alloc::AllocError;
use std::cmp::Ordering;
use std::collections::VecDeque;

/// Two shares of one monomial as one.
pub fn joined(x: Share, y: Share) -> Share
    ensures monomial { result.monomial ≡ x.monomial }
    ensures sum { Agree result.weight result.sum (x.weight + y.weight) (x.sum +ℤ y.sum) }
{
    let total = joined_sum(x.total(), y.total());
    Share {
        monomial: x.monomial,
        sum: total.value,
        weight: total.weight,
    }
}

/// Two falling lists as one.
pub fn merge(first: Vec<Share>, second: Vec<Share>) -> Result<Vec<Share>, AllocError>
    ensures { IfOk result (λ v. IsMerged first.items second.items v.items) }
{
    let mut shares = Vec::with_capacity(
        *first.allocator(),
        first.len().saturating_add(second.len()),
    )?;
    let mut first = VecDeque::from(first);
    let mut second = VecDeque::from(second);
    'both: while let Some(share) = next_share(&mut first, &mut second) {
        shares.push_reserved(share);
    }
    Ok(shares)
}

/// Shares in any order as a falling list, by halves.
pub fn sorted(shares: Vec<Share>) -> Result<Vec<Share>, AllocError>
    ensures { IfOk result (λ v. IsSorted shares.items v.items) }
{
    let mut front = shares;
    let n = front.len();
    if n < 2 {
        return Ok(front);
    }
    let back = front.split_off(n / 2)?;
    let first = sorted(front)?;
    let second = sorted(back)?;
    match merge(first, second) {
        Ok(shares) => Ok(shares),
        Err(e) => Err(e),
    }
}

// Which of two falling lists has the greatest share at its front.
enum Front {
    Neither,
    First,
    Second,
    Both,
}

fn greater_front(first: &VecDeque<Share>, second: &VecDeque<Share>) -> Front
    ensures { IsFront first.now.items second.now.items result }
{
    let Some(x) = first.front() else {
        return if second.is_empty() {
            Front::Neither
        } else {
            Front::Second
        };
    };
    let Some(y) = second.front() else {
        return Front::First;
    };
    match x.monomial.order(&y.monomial) {
        Ordering::Less => Front::Second,
        Ordering::Equal => Front::Both,
        Ordering::Greater => Front::First,
    }
}

/// Takes the greatest share of two falling lists.
#[inline(always)]
pub fn next_share(first: &mut VecDeque<Share>, second: &mut VecDeque<Share>) -> Option<Share>
    ensures { IsNext first.old.items second.old.items first.new.items second.new.items result }
{
    match greater_front(first, second) {
        Front::Neither => None,
        Front::First => match first.pop_front() {
            Some(x) => Some(x),
            None => None,
        },
        Front::Second => match second.pop_front() {
            Some(y) => Some(y),
            None => None,
        },
        Front::Both => {
            let Some(x) = first.pop_front() else {
                return None;
            };
            let Some(y) = second.pop_front() else {
                return None;
            };
            Some(joined(x, y))
        }
    }
}
