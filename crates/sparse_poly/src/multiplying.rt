//! Products of polynomials as shares.
ghost use Rattle.std.specs.Prelude.{◌≡◌, ◌≤◌, ◌*ℤ◌, unsigned_abs, List, [], ◌∷◌, ◌++◌, OnOk, IfOk, IfErr, MatchResult, length, ◌+◌, option_map};
ghost use Rattle.std.specs.Vec.{vec_len, vec_capacity};
ghost use Rattle.std.specs.declared.option.Option.TheVariants.{None, Some};
ghost use Rattle.monomial.specs.Monomials.{IsMonomial};
ghost use Rattle.sparse_poly.specs.Contributions.{max_coeff, signed, kept, signed_row, signed_products, higher, degree_of, contributions, IsFalling, IsPoly, IsResult, IsFault, IsNoDegree};
ghost use Rattle.sparse_poly.specs.Polynomials.{products};
ghost use Rattle.sparse_poly.specs.Standing.{Agree, Stands, AllMonomials, IsDescending, share_at, product_shares, left_shares, left_degree, row_share, IsMade};

use crate::entry::Share;
use crate::layout::{are_few, is_laid, layout_for, without_layout};
use crate::merging::{joined, merge, sorted};
use crate::packing::{packed_combination, packed_multiplication};
use crate::squeezing::squeeze;
use crate::{PolyFault, Term};
use monomial::{MonoFault, Monomial};
use std::alloc::{AllocError, Global};
use std::cmp::Ordering;
use std::mem;

/// The terms of `l*q - a*p`.
pub fn combined(
    alloc: Global,
    l: &[Term],
    q: &[Term],
    a: &[Term],
    p: &[Term],
) -> Result<Vec<Term>, PolyFault>
    requires l_poly { IsPoly l.now }
    requires q_poly { IsPoly q.now }
    requires a_poly { IsPoly a.now }
    requires p_poly { IsPoly p.now }
    ensures { MatchResult result (λ v. IsResult (contributions l.now q.now a.now p.now) v.items) (IsFault (contributions l.now q.now a.now p.now)) }
{
    let laid = is_laid(l) || is_laid(q) || is_laid(a) || is_laid(p);
    if !laid && are_few(l, q, a, p) {
        return combined_by_shares(alloc, l, q, a, p);
    }
    if let Some(layout) = layout_for(alloc, l, q, a, p) {
        return packed_combination(alloc, &layout, l, q, a, p);
    }
    if laid {
        let l = without_layout(alloc, l)?;
        let q = without_layout(alloc, q)?;
        let a = without_layout(alloc, a)?;
        let p = without_layout(alloc, p)?;
        return combined_by_shares(alloc, &l, &q, &a, &p);
    }
    combined_by_shares(alloc, l, q, a, p)
}

// The terms of `l*q - a*p`, by shares.
fn combined_by_shares(
    alloc: Global,
    l: &[Term],
    q: &[Term],
    a: &[Term],
    p: &[Term],
) -> Result<Vec<Term>, PolyFault>
    requires l_poly { IsPoly l.now }
    requires q_poly { IsPoly q.now }
    requires a_poly { IsPoly a.now }
    requires p_poly { IsPoly p.now }
    ensures { MatchResult result (λ v. IsResult (contributions l.now q.now a.now p.now) v.items) (IsFault (contributions l.now q.now a.now p.now)) }
{
    let mut high = None;
    let first = part(alloc, l, q, false, &mut high)?;
    let second = part(alloc, a, p, true, &mut high)?;
    match high {
        Some(var) => Err(PolyFault::Degree { var }),
        None => match squeeze(first, second) {
            Ok(terms) => Ok(terms),
            Err(fault) => Err(fault),
        },
    }
}

/// The terms of a product.
pub fn multiplied(alloc: Global, first: &[Term], second: &[Term]) -> Result<Vec<Term>, PolyFault>
    requires first_poly { IsPoly first.now }
    requires second_poly { IsPoly second.now }
    ensures { MatchResult result (λ v. IsResult (products first.now second.now) v.items) (IsFault (products first.now second.now)) }
{
    let laid = is_laid(first) || is_laid(second);
    if !laid && are_few(first, second, &[], &[]) {
        return multiplied_by_shares(alloc, first, second);
    }
    if let Some(layout) = layout_for(alloc, first, second, &[], &[]) {
        return packed_multiplication(alloc, &layout, first, second);
    }
    if laid {
        let first = without_layout(alloc, first)?;
        let second = without_layout(alloc, second)?;
        return multiplied_by_shares(alloc, &first, &second);
    }
    multiplied_by_shares(alloc, first, second)
}

// The terms of a product, by shares.
fn multiplied_by_shares(
    alloc: Global,
    first: &[Term],
    second: &[Term],
) -> Result<Vec<Term>, PolyFault>
    requires first_poly { IsPoly first.now }
    requires second_poly { IsPoly second.now }
    ensures { MatchResult result (λ v. IsResult (products first.now second.now) v.items) (IsFault (products first.now second.now)) }
{
    let half = first.len() / 2;
    let mut high = None;
    let front = part(alloc, &first[..half], second, false, &mut high)?;
    let back = part(alloc, &first[half..], second, false, &mut high)?;
    match high {
        Some(var) => Err(PolyFault::Degree { var }),
        None => match squeeze(front, back) {
            Ok(terms) => Ok(terms),
            Err(fault) => Err(fault),
        },
    }
}

/// The terms of a sum, which is one times the first less minus one times the second.
pub fn added(alloc: Global, first: &[Term], second: &[Term]) -> Result<Vec<Term>, PolyFault>
    requires first_poly { IsPoly first.now }
    requires second_poly { IsPoly second.now }
    ensures answer { MatchResult result (λ v. IsResult (first.now ++ second.now) v.items) (IsFault (first.now ++ second.now)) }
    ensures degree { IfErr result IsNoDegree }
{
    let one = [constant_term(alloc, 1)];
    let minus_one = [constant_term(alloc, -1)];
    match combined(alloc, &one, first, &minus_one, second) {
        Ok(terms) => Ok(terms),
        Err(fault) => Err(fault),
    }
}

// The term of a number.
fn constant_term(alloc: Global, coeff: i128) -> Term
    ensures { result ≡ record { monomial = []; coeff = coeff } }
{
    Term {
        monomial: Monomial::one(alloc),
        coeff,
    }
}

/// The terms that contributions in any order add up to.
pub fn summed(alloc: Global, terms: Vec<Term>) -> Result<Vec<Term>, PolyFault>
    ensures answer { MatchResult result (λ v. IsResult terms.items v.items) (IsFault terms.items) }
    ensures degree { IfErr result IsNoDegree }
{
    let shares = gathered(alloc, terms)?;
    let shares = sorted(shares)?;
    match squeeze(shares, Vec::new(alloc)) {
        Ok(terms) => Ok(terms),
        Err(fault) => Err(fault),
    }
}

// The share of each term.
fn gathered(alloc: Global, terms: Vec<Term>) -> Result<Vec<Share>, AllocError>
    ensures sums { IfOk result (λ v. Stands v.items terms.items) }
    ensures degree { IfOk result (λ v. degree_of terms.items ≡ None) }
{
    let mut terms = terms;
    let mut shares = Vec::with_capacity(alloc, terms.len())?;
    'terms: while let Some(term) = terms.pop() {
        let _powers = term.monomial.len();
        shares.push(share_of(term.monomial, term.coeff, 1, false))?;
    }
    Ok(shares)
}

/// The product of two coefficients with its sign, or the least number where it is out of range.
#[inline(always)]
pub fn kept_product(x: i128, y: i128, minus: bool) -> i128
    ensures { result ≡ kept (signed minus (x *ℤ y)) }
{
    if let (Ok(x), Ok(y)) = (i64::try_from(x), i64::try_from(y)) {
        return small_product(x, y, minus);
    }
    wide_product(x, y, minus)
}

// The same for coefficients of more than 64 bits.
#[inline(never)]
fn wide_product(x: i128, y: i128, minus: bool) -> i128
    ensures { result ≡ kept (signed minus (x *ℤ y)) }
{
    match x.checked_mul(y) {
        Some(z) => {
            if z == i128::MIN {
                return i128::MIN;
            }
            if minus { -z } else { z }
        }
        None => i128::MIN,
    }
}

// The product of two coefficients of 64 bits with its sign.
#[inline(always)]
fn small_product(x: i64, y: i64, minus: bool) -> i128
    ensures value { result ≡ signed minus (x *ℤ y) }
    ensures bound { unsigned_abs result ≤ max_coeff }
{
    let z = i128::from(x) * i128::from(y);
    if minus { -z } else { z }
}

// The share of one contribution.
fn share_of(monomial: Monomial, x: i128, y: i128, minus: bool) -> Share
    ensures monomial { result.monomial ≡ monomial }
    ensures sum { Agree result.weight result.sum (unsigned_abs (signed minus (x *ℤ y))) (signed minus (x *ℤ y)) }
    ensures share { result ≡ share_at monomial (signed minus (x *ℤ y)) }
{
    let sum = kept_product(x, y, minus);
    Share {
        monomial,
        sum,
        weight: sum.unsigned_abs(),
    }
}

// The greater of two variables.
fn greater(high: Option<u32>, var: u32) -> Option<u32>
    ensures { result ≡ higher high (Some var) }
{
    match high {
        Some(v) => { if v < var { Some(var) } else { Some(v) } }
        None => Some(var),
    }
}

// The contributions of one term, which are made one after the other.
#[derive(Drop)]
struct Row<'a> {
    term: &'a Term,
    // The terms whose products are not made.
    others: &'a [Term],
    minus: bool,
    // The coefficient of the last term whose product was made.
    coeff: i128,
}

impl<'a> Row<'a> {
    // A row of which no product is made.
    #[inline(always)]
    fn new(term: &'a Term, others: &'a [Term], minus: bool) -> Row<'a>
        ensures shares { left_shares result ≡ product_shares minus term.now others.now }
        ensures degree { left_degree result ≡ degree_of (signed_row minus term.now others.now) }
        ensures room { result.others.now ≡ others.now }
    {
        Row {
            term,
            others,
            minus,
            coeff: 0,
        }
    }

    // Makes the monomial of the next share, and goes past products of too high degree.
    #[inline(always)]
    fn next_product(&mut self, high: &mut Option<u32>) -> Result<Option<Monomial>, AllocError>
        ensures { IfOk result (λ m. IsMade self.old self.new high.old high.new (option_map (row_share self.new) m)) }
    {
        'others: while let Some((other, others)) = self.others.split_first() {
            self.others = others;
            match self.term.monomial.times(&other.monomial) {
                Ok(monomial) => {
                    self.coeff = other.coeff;
                    return Ok(Some(monomial));
                }
                Err(MonoFault::Degree { var }) => *high = greater(*high, var),
                Err(MonoFault::OutOfMemory) => return Err(AllocError),
            }
        }
        Ok(None)
    }

    // The share of the last product.
    #[inline(always)]
    fn share(&self, monomial: Monomial) -> Share
        ensures { result ≡ row_share self.now monomial }
    {
        share_of(monomial, self.term.coeff, self.coeff, self.minus)
    }

    // Makes all shares that are left, at the end of others, where there is room for them.
    #[inline(always)]
    fn add_to(&mut self, shares: &mut Vec<Share>, high: &mut Option<u32>) -> Result<(), AllocError>
        requires { vec_len shares.old + length self.old.others.now ≤ vec_capacity shares.old }
        ensures shares { OnOk result (shares.new.items ≡ shares.old.items ++ left_shares self.old) }
        ensures high { OnOk result (high.new ≡ higher high.old (left_degree self.old)) }
    {
        'others: while let Some((other, others)) = self.others.split_first() {
            self.others = others;
            match self.term.monomial.times(&other.monomial) {
                Ok(monomial) => {
                    let share = share_of(monomial, self.term.coeff, other.coeff, self.minus);
                    shares.push_reserved(share);
                }
                Err(MonoFault::Degree { var }) => *high = greater(*high, var),
                Err(MonoFault::OutOfMemory) => return Err(AllocError),
            }
        }
        Ok(())
    }

    // The same, where few shares or none are left.
    fn add_rest_to(
        &mut self,
        shares: &mut Vec<Share>,
        high: &mut Option<u32>,
    ) -> Result<(), AllocError>
        requires { vec_len shares.old + length self.old.others.now ≤ vec_capacity shares.old }
        ensures shares { OnOk result (shares.new.items ≡ shares.old.items ++ left_shares self.old) }
        ensures high { OnOk result (high.new ≡ higher high.old (left_degree self.old)) }
    {
        self.add_to(shares, high)
    }
}

// The contributions of one term, in falling order where the terms fall.
#[inline(always)]
fn row_of(
    alloc: Global,
    t: &Term,
    us: &[Term],
    minus: bool,
    high: &mut Option<u32>,
) -> Result<Vec<Share>, AllocError>
    ensures high { OnOk result (high.new ≡ higher high.old (degree_of (signed_row minus t.now us.now))) }
    ensures sums { IfOk result (λ v. high.new ≡ None → Stands v.items (signed_row minus t.now us.now)) }
    ensures order { IfOk result (λ v. IsMonomial t.now.monomial → AllMonomials us.now → IsFalling us.now → IsDescending v.items) }
{
    let mut shares = Vec::with_capacity(alloc, us.len())?;
    Row::new(t, us, minus).add_to(&mut shares, high)?;
    Ok(shares)
}

// The contributions of two terms, merged as they are made.
fn pair_of(
    alloc: Global,
    t: &Term,
    s: &Term,
    us: &[Term],
    minus: bool,
    high: &mut Option<u32>,
) -> Result<Vec<Share>, AllocError>
    ensures high { OnOk result (high.new ≡ higher high.old (degree_of (signed_products minus (t.now ∷ s.now ∷ []) us.now))) }
    ensures sums { IfOk result (λ v. high.new ≡ None → Stands v.items (signed_products minus (t.now ∷ s.now ∷ []) us.now)) }
    ensures order { IfOk result (λ v. IsMonomial t.now.monomial → AllMonomials us.now → IsFalling us.now → IsDescending v.items) }
{
    let _powers = s.monomial.len();
    let mut shares = Vec::with_capacity(alloc, us.len().saturating_add(us.len()))?;
    let mut going = Row::new(t, us, minus);
    let mut waiting = Row::new(s, us, minus);
    let Some(mut held) = waiting.next_product(high)? else {
        going.add_rest_to(&mut shares, high)?;
        return Ok(shares);
    };
    'both: while let Some(product) = going.next_product(high)? {
        match product.order(&held) {
            Ordering::Less => {
                shares.push_reserved(waiting.share(held));
                held = product;
                mem::swap(&mut going, &mut waiting);
            }
            Ordering::Equal => {
                shares.push_reserved(joined(going.share(product), waiting.share(held)));
                let Some(next) = waiting.next_product(high)? else {
                    going.add_rest_to(&mut shares, high)?;
                    return Ok(shares);
                };
                held = next;
            }
            Ordering::Greater => shares.push_reserved(going.share(product)),
        }
    }
    shares.push_reserved(waiting.share(held));
    waiting.add_rest_to(&mut shares, high)?;
    Ok(shares)
}

// The contributions to a product, by halves of the first factor.
fn part(
    alloc: Global,
    ts: &[Term],
    us: &[Term],
    minus: bool,
    high: &mut Option<u32>,
) -> Result<Vec<Share>, AllocError>
    ensures high { OnOk result (high.new ≡ higher high.old (degree_of (signed_products minus ts.now us.now))) }
    ensures sums { IfOk result (λ v. high.new ≡ None → Stands v.items (signed_products minus ts.now us.now)) }
    ensures order { IfOk result (λ v. AllMonomials ts.now → AllMonomials us.now → IsFalling us.now → IsDescending v.items) }
{
    let n = ts.len();
    if n == 0 {
        return Ok(Vec::new(alloc));
    }
    if n == 1 {
        return row_of(alloc, &ts[0], us, minus, high);
    }
    if n == 2 {
        return pair_of(alloc, &ts[0], &ts[1], us, minus, high);
    }
    let first = part(alloc, &ts[..n / 2], us, minus, high)?;
    let second = part(alloc, &ts[n / 2..], us, minus, high)?;
    match merge(first, second) {
        Ok(shares) => Ok(shares),
        Err(e) => Err(e),
    }
}
