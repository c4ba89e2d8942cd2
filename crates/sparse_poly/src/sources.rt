//! Lists of shares that are read from the greatest word down, stored or made as they are read.
ghost use Rattle.std.specs.Prelude.{◌≡◌, ◌+◌, ◌+ℤ◌, List, ◌++◌};
ghost use Rattle.sparse_poly.specs.declared.packed_entry.PackedShare.{PackedShare};
ghost use Rattle.sparse_poly.specs.Standing.{Agree};
ghost use Rattle.sparse_poly.specs.Packed.{share_words, row_share, row_shares, IsGreatestWord, IsPackedNext};
ghost use Rattle.monomial.specs.Layouts.{AreFalling};

use crate::multiplying::kept_product;
use crate::packed_entry::{PackedShare, PackedTerm};
use crate::weighing::joined_sum;
use std::cmp::Ordering;

/// Shares that are read from the greatest word down.
pub trait FallingShares {
    /// The shares that are left, of which some may have one word and then come as one.
    ghost left: { Self → List PackedShare };

    /// That they can be read from the greatest word down.
    ghost falls: { Self → Type 0 };

    /// How many shares are left, if no two have one word.
    fn count(&self) -> usize;

    /// The greatest word.
    fn front(&self) -> Option<u128>
        requires { falls self.now }
        ensures { IsGreatestWord (left self.now) result };

    /// Takes the share of the greatest word.
    fn next(&mut self) -> Option<PackedShare>
        requires { falls self.old }
        ensures next { IsPackedNext (left self.old) (left self.new) result }
        ensures falls { falls self.new };
}

/// The contributions of one term, made as they are read.
#[derive(Clone, Copy)]
pub struct TermRow<'a> {
    term: PackedTerm,
    others: &'a [PackedTerm],
    minus: bool,
}

impl<'a> TermRow<'a> {
    /// The contributions of a term, of which none is made yet.
    pub fn new(term: PackedTerm, others: &'a [PackedTerm], minus: bool) -> TermRow<'a>
        ensures left { ⟦<TermRow<'static> as FallingShares>⟧.left result ≡ row_shares minus term others.now }
        ensures falls { AreFalling (share_words (row_shares minus term others.now)) → ⟦<TermRow<'static> as FallingShares>⟧.falls result }
    {
        TermRow {
            term,
            others,
            minus,
        }
    }
}

impl<'a> FallingShares for TermRow<'a> {
    ghost left = { λ r. row_shares r.minus r.term r.others.now };

    ghost falls = { λ r. AreFalling (share_words (row_shares r.minus r.term r.others.now)) };

    #[inline(always)]
    fn count(&self) -> usize {
        self.others.len()
    }

    #[inline(always)]
    fn front(&self) -> Option<u128> {
        let (other, _) = self.others.split_first()?;
        Some(self.term.word + other.word)
    }

    #[inline(always)]
    fn next(&mut self) -> Option<PackedShare> {
        let (other, others) = self.others.split_first()?;
        self.others = others;
        Some(share_of(self.term, *other, self.minus))
    }
}

/// Shares that are stored.
#[derive(Clone, Copy)]
pub struct StoredShares<'a> {
    shares: &'a [PackedShare],
}

impl<'a> StoredShares<'a> {
    /// Stored shares, of which none is read yet.
    pub fn new(shares: &'a [PackedShare]) -> StoredShares<'a>
        ensures left { ⟦<StoredShares<'static> as FallingShares>⟧.left result ≡ shares.now }
        ensures falls { AreFalling (share_words shares.now) → ⟦<StoredShares<'static> as FallingShares>⟧.falls result }
    {
        StoredShares { shares }
    }
}

impl<'a> FallingShares for StoredShares<'a> {
    ghost left = { λ s. s.shares.now };

    ghost falls = { λ s. AreFalling (share_words s.shares.now) };

    #[inline(always)]
    fn count(&self) -> usize {
        self.shares.len()
    }

    #[inline(always)]
    fn front(&self) -> Option<u128> {
        let (share, _) = self.shares.split_first()?;
        Some(share.word)
    }

    #[inline(always)]
    fn next(&mut self) -> Option<PackedShare> {
        let (share, shares) = self.shares.split_first()?;
        self.shares = shares;
        Some(*share)
    }
}

/// The merge of two lists, made as it is read.
#[derive(Drop)]
pub struct Merged<A, B> {
    pub first: A,
    pub second: B,
}

impl<A: FallingShares, B: FallingShares> FallingShares for Merged<A, B> {
    ghost left = { λ m. A.left m.first ++ B.left m.second };

    ghost falls = { λ m. A.falls m.first × B.falls m.second };

    #[inline(always)]
    fn count(&self) -> usize {
        self.first.count().saturating_add(self.second.count())
    }

    #[inline(always)]
    fn front(&self) -> Option<u128> {
        let Some(x) = self.first.front() else {
            return self.second.front();
        };
        match self.second.front() {
            Some(y) => Some(x.max(y)),
            None => Some(x),
        }
    }

    #[inline(always)]
    fn next(&mut self) -> Option<PackedShare> {
        let Some(x) = self.first.front() else {
            return self.second.next();
        };
        let Some(y) = self.second.front() else {
            return self.first.next();
        };
        match x.cmp(&y) {
            Ordering::Less => self.second.next(),
            Ordering::Equal => {
                let x = self.first.next()?;
                let y = self.second.next()?;
                Some(joined(x, y))
            }
            Ordering::Greater => self.first.next(),
        }
    }
}

// The share of one contribution.
#[inline(always)]
fn share_of(t: PackedTerm, u: PackedTerm, minus: bool) -> PackedShare
    ensures { result ≡ row_share minus t u }
{
    let sum = kept_product(t.coeff, u.coeff, minus);
    PackedShare {
        word: t.word + u.word,
        sum,
        weight: sum.unsigned_abs(),
    }
}

/// Two shares of one word as one.
pub fn joined(x: PackedShare, y: PackedShare) -> PackedShare
    ensures word { result.word ≡ x.word }
    ensures sum { Agree result.weight result.sum (x.weight + y.weight) (x.sum +ℤ y.sum) }
{
    let total = joined_sum(x.total(), y.total());
    PackedShare {
        word: x.word,
        sum: total.value,
        weight: total.weight,
    }
}
