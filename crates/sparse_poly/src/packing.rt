//! Products of polynomials whose monomials are words.
ghost use Rattle.std.specs.Prelude.{◌≡◌, ◌<◌, ◌≤◌, ◌+◌, ◌*◌, ◌^◌, List, [], ◌∷◌, ◌++◌, length, take, drop, IfOk, OnOk, MatchResult};
ghost use Rattle.sparse_poly.specs.Contributions.{contributions, IsPoly, IsResult, IsFault};
ghost use Rattle.sparse_poly.specs.Polynomials.{products};
ghost use Rattle.sparse_poly.specs.Standing.{IsLightSum, IsHeavyFault};
ghost use Rattle.sparse_poly.specs.Packing.{AllFit};
ghost use Rattle.monomial.specs.Layouts.{monomial_of, AreFalling, IsLayout};
ghost use Rattle.sparse_poly.specs.Packed.{shares_read, term_words, share_words, IsPackedList, AllUnder, AreProductShares, IsSameInFewer, IsPackedMerge};

use crate::packed_entry::{PackedShare, PackedTerm};
use crate::sources::{FallingShares, Merged, StoredShares, TermRow, joined};
use crate::squeezing::trimmed;
use crate::{PolyFault, Term};
use monomial::{Layout, Monomial};
use smallvec::SmallVec;
use std::alloc::{AllocError, Global};
use std::cmp::Ordering;

// The contributions of two terms, made as they are read.
type Pair<'a> = Merged<TermRow<'a>, TermRow<'a>>;

/// The terms of `l*q - a*p`, by words.
pub fn packed_combination(
    alloc: Global,
    layout: &Layout,
    l: &[Term],
    q: &[Term],
    a: &[Term],
    p: &[Term],
) -> Result<Vec<Term>, PolyFault>
    requires layout { IsLayout layout.now }
    requires l_poly { IsPoly l.now }
    requires q_poly { IsPoly q.now }
    requires a_poly { IsPoly a.now }
    requires p_poly { IsPoly p.now }
    requires l_fits { AllFit layout.now l.now }
    requires q_fits { AllFit layout.now q.now }
    requires a_fits { AllFit layout.now a.now }
    requires p_fits { AllFit layout.now p.now }
    ensures { MatchResult result (λ v. IsResult (contributions l.now q.now a.now p.now) v.items) (IsFault (contributions l.now q.now a.now p.now)) }
{
    let mut packed_l = PackedTerms::new(alloc);
    let mut packed_q = PackedTerms::new(alloc);
    let mut packed_a = PackedTerms::new(alloc);
    let mut packed_p = PackedTerms::new(alloc);
    pack(l, layout, &mut packed_l)?;
    pack(q, layout, &mut packed_q)?;
    pack(a, layout, &mut packed_a)?;
    pack(p, layout, &mut packed_p)?;
    let (l, q) = (packed_l.as_slice(), packed_q.as_slice());
    let (a, p) = (packed_a.as_slice(), packed_p.as_slice());
    if l.len() <= 2 && a.len() <= 2 {
        let first = pair(l, q, false);
        let second = pair(a, p, true);
        return squeeze(alloc, layout, Merged { first, second });
    }
    let first = listed(alloc, l, q, false)?;
    let second = listed(alloc, a, p, true)?;
    squeeze(alloc, layout, merged(&first, &second))
}

/// The terms of `l*q`, by words.
pub fn packed_multiplication(
    alloc: Global,
    layout: &Layout,
    l: &[Term],
    q: &[Term],
) -> Result<Vec<Term>, PolyFault>
    requires layout { IsLayout layout.now }
    requires l_poly { IsPoly l.now }
    requires q_poly { IsPoly q.now }
    requires l_fits { AllFit layout.now l.now }
    requires q_fits { AllFit layout.now q.now }
    ensures { MatchResult result (λ v. IsResult (products l.now q.now) v.items) (IsFault (products l.now q.now)) }
{
    let mut packed_l = PackedTerms::new(alloc);
    let mut packed_q = PackedTerms::new(alloc);
    pack(l, layout, &mut packed_l)?;
    pack(q, layout, &mut packed_q)?;
    let (l, q) = (packed_l.as_slice(), packed_q.as_slice());
    if l.len() <= 2 {
        return squeeze(alloc, layout, pair(l, q, false));
    }
    let half = l.len() / 2;
    let first = listed(alloc, &l[..half], q, false)?;
    let second = listed(alloc, &l[half..], q, false)?;
    squeeze(alloc, layout, merged(&first, &second))
}

// The contributions to a product of at most two terms.
fn pair<'a>(ts: &[PackedTerm], us: &'a [PackedTerm], minus: bool) -> Pair<'a>
    requires few { length ts.now ≤ 2 }
    requires falling { AreFalling (term_words us.now) }
    ensures sums { AreProductShares minus ts.now us.now (⟦<Pair<'static> as FallingShares>⟧.left result) }
    ensures falls { ⟦<Pair<'static> as FallingShares>⟧.falls result }
{
    Merged {
        first: row_at(ts, 0, us, minus),
        second: row_at(ts, 1, us, minus),
    }
}

// The contributions of the term at a place, if there is one.
fn row_at<'a>(ts: &[PackedTerm], place: usize, us: &'a [PackedTerm], minus: bool) -> TermRow<'a>
    requires { AreFalling (term_words us.now) }
    ensures sums { AreProductShares minus (take 1 (drop place ts.now)) us.now (⟦<TermRow<'static> as FallingShares>⟧.left result) }
    ensures falls { ⟦<TermRow<'static> as FallingShares>⟧.falls result }
{
    if place < ts.len() {
        TermRow::new(ts[place], us, minus)
    } else {
        TermRow::new(PackedTerm::default(), &[], minus)
    }
}

// Terms with their words. Where they are few they lie in the value itself, which is therefore not moved but filled.
type PackedTerms = SmallVec<PackedTerm, 4>;

// Fills an empty list with the terms and their words.
fn pack(terms: &[Term], layout: &Layout, packed: &mut PackedTerms) -> Result<(), AllocError>
    requires layout { IsLayout layout.now }
    requires poly { IsPoly terms.now }
    requires fits { AllFit layout.now terms.now }
    requires empty { packed.old.items ≡ [] }
    ensures { OnOk result (IsPackedList layout.now terms.now packed.new.items) }
{
    packed.reserve_exact(terms.len())?;
    for term in terms {
        let Some(word) = term.monomial.word_in(layout) else {
            unreachable!()
        };
        packed.push_reserved(PackedTerm {
            word,
            coeff: term.coeff,
        });
    }
    Ok(())
}

// The contributions to a product as a falling list, by halves of the first factor.
fn listed(
    alloc: Global,
    ts: &[PackedTerm],
    us: &[PackedTerm],
    minus: bool,
) -> Result<Vec<PackedShare>, AllocError>
    requires { AreFalling (term_words us.now) }
    ensures sums { IfOk result (λ v. AreProductShares minus ts.now us.now v.items) }
    ensures falls { IfOk result (λ v. AreFalling (share_words v.items)) }
{
    if ts.len() <= 2 {
        return collected(alloc, pair(ts, us, minus));
    }
    let half = ts.len() / 2;
    let first = listed(alloc, &ts[..half], us, minus)?;
    let second = listed(alloc, &ts[half..], us, minus)?;
    merge(alloc, &first, &second)
}

// Two falling lists as one.
fn merge(
    alloc: Global,
    first: &[PackedShare],
    second: &[PackedShare],
) -> Result<Vec<PackedShare>, AllocError>
    ensures { IfOk result (λ v. IsPackedMerge first.now second.now v.items) }
{
    let mut shares = Vec::with_capacity(alloc, first.len().saturating_add(second.len()))?;
    let mut i = 0;
    let mut j = 0;
    'both: while i < first.len() && j < second.len() {
        match first[i].word.cmp(&second[j].word) {
            Ordering::Less => {
                shares.push_reserved(second[j]);
                j += 1;
            }
            Ordering::Equal => {
                shares.push_reserved(joined(first[i], second[j]));
                i += 1;
                j += 1;
            }
            Ordering::Greater => {
                shares.push_reserved(first[i]);
                i += 1;
            }
        }
    }
    shares.extend_from_slice(&first[i..])?;
    shares.extend_from_slice(&second[j..])?;
    Ok(shares)
}

// The merge of two lists, made as it is read.
fn merged<'a>(
    first: &'a [PackedShare],
    second: &'a [PackedShare],
) -> Merged<StoredShares<'a>, StoredShares<'a>>
    requires first { AreFalling (share_words first.now) }
    requires second { AreFalling (share_words second.now) }
    ensures left { ⟦<Merged<StoredShares<'static>, StoredShares<'static>> as FallingShares>⟧.left result ≡ first.now ++ second.now }
    ensures falls { ⟦<Merged<StoredShares<'static>, StoredShares<'static>> as FallingShares>⟧.falls result }
{
    Merged {
        first: StoredShares::new(first),
        second: StoredShares::new(second),
    }
}

// The list of shares.
fn collected<S: FallingShares + Drop>(
    alloc: Global,
    shares: S,
) -> Result<Vec<PackedShare>, AllocError>
    requires { S.falls shares }
    ensures same { IfOk result (λ v. IsSameInFewer v.items (S.left shares)) }
    ensures falls { IfOk result (λ v. AreFalling (share_words v.items)) }
{
    let mut shares = shares;
    let mut list = Vec::with_capacity(alloc, shares.count())?;
    'shares: while let Some(share) = shares.next() {
        list.push(share)?;
    }
    Ok(list)
}

// The sums of shares.
fn squeeze<S: FallingShares + Drop>(
    alloc: Global,
    layout: &Layout,
    shares: S,
) -> Result<Vec<Term>, PolyFault>
    requires layout { IsLayout layout.now }
    requires falls { S.falls shares }
    requires words { AllUnder (2 ^ (16 * length layout.now)) (share_words (S.left shares)) }
    ensures { MatchResult result (λ v. IsLightSum (shares_read (monomial_of layout.now) (S.left shares)) v.items) (IsHeavyFault (shares_read (monomial_of layout.now) (S.left shares))) }
{
    let mut shares = shares;
    let mut terms = Vec::with_capacity(alloc, shares.count())?;
    'shares: while let Some(share) = shares.next() {
        if share.weight > i128::MAX as u128 {
            return Err(PolyFault::Heavy {
                monomial: Monomial::of_word(alloc, layout, share.word),
            });
        }
        if share.sum == 0 {
            continue;
        }
        terms.push(Term {
            monomial: Monomial::of_word(alloc, layout, share.word),
            coeff: share.sum,
        })?;
    }
    Ok(trimmed(terms))
}
