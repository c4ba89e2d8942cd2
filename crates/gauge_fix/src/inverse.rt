//! The inverses of the F- and R-symbols.

ghost use Rattle.std.specs.Prelude.{◌≡◌, ◌≤◌, ◌↔◌, IsTrue, Some, None, if◌then◌else◌, IfOk, Contains, List, [], ◌∷◌, length, vec_len};
ghost use Rattle.symbol_equations.specs.Differences.{AreDifferences};
ghost use Rattle.gauge_fix.specs.declared.inverse.InverseLabels.{InverseLabels};
ghost use Rattle.symbol_index.specs.Sides.{is_on, opposite};
ghost use Rattle.gauge_fix.specs.Inverses.{matrix, are_on, is_channel, entry_product, entry_side, identity_side, braiding_side, one_side, IsEntryEquation, IsBraidingEquation, AreInverseDifferences};

use fusion_ring::Ring;
use label_tuples::{all_fours, extended};
use sparse_poly::Poly;
use std::alloc::{AllocError, Global};
use symbol_equations::{Product, Sides, differences, fsym, ginv, summands};
use symbol_index::{Side, Symbol, Symbols, is_on, opposite};

/// The labels at which an entry of a product of an F-matrix and its inverse stands: the labels of
/// the matrices, and the row and the column of the entry. `channel` and `other` are both e, or both
/// f, of a symbol F(a,b,c,d;e,f).
#[derive(Clone, Copy)]
pub struct InverseLabels {
    pub a: u8,
    pub b: u8,
    pub c: u8,
    pub d: u8,
    pub channel: u8,
    pub other: u8,
}

/// The difference of both sides of each inverse equation of the ring, in no order that is promised:
/// for each entry of F times G and of G times F, and for each R times S. It fails only where no
/// memory is left.
pub fn inverses(alloc: Global, ring: &Ring, symbols: &Symbols) -> Result<Vec<Poly>, AllocError>
    requires { symbols.now ≡ ring.now }
    ensures { IfOk result (λ v. AreInverseDifferences ring.now v.items) }
{
    let mut all = entry_inverses(alloc, ring, symbols, Side::Rows)?;
    let mut others = entry_inverses(alloc, ring, symbols, Side::Columns)?;
    others.append(&mut braiding_inverses(alloc, ring, symbols)?)?;
    all.append(&mut others)?;
    Ok(all)
}

// The entries of F times G, for two rows, or of G times F, for two columns.
fn entry_inverses(
    alloc: Global,
    ring: &Ring,
    symbols: &Symbols,
    side: Side,
) -> Result<Vec<Poly>, AllocError>
    requires { symbols.now ≡ ring.now }
    ensures { IfOk result (λ v. AreDifferences ring.now (IsEntryEquation side ring.now) v.items) }
{
    let all = entry_labels(alloc, ring, side)?;
    differences(alloc, symbols, &all, |at| {
        entry_sides(alloc, ring, side, at)
    })
}

// The products of R and S.
fn braiding_inverses(alloc: Global, ring: &Ring, symbols: &Symbols) -> Result<Vec<Poly>, AllocError>
    requires { symbols.now ≡ ring.now }
    ensures { IfOk result (λ v. AreDifferences ring.now (IsBraidingEquation ring.now) v.items) }
{
    let all = channels(alloc, ring)?;
    differences(alloc, symbols, &all, |at| braiding_sides(alloc, at))
}

// The labels of the entries: two rows, or two columns, of one matrix.
fn entry_labels(alloc: Global, ring: &Ring, side: Side) -> Result<Vec<InverseLabels>, AllocError>
    ensures { IfOk result (λ v. (at : InverseLabels) → Contains v.items at ↔ IsTrue (are_on side ring.now at)) }
{
    let n = ring.labels();
    let found = all_fours(alloc, n)?;
    let found = extended(alloc, &found, n, |(a, b, c, d), e| {
        is_on(ring, side, (a, b, c, d), e).then_some((a, b, c, d, e))
    })?;
    extended(alloc, &found, n, |(a, b, c, d, channel), other| {
        is_on(ring, side, (a, b, c, d), other).then_some(InverseLabels {
            a,
            b,
            c,
            d,
            channel,
            other,
        })
    })
}

// The labels a, b, c for which c is a channel of a and b.
fn channels(alloc: Global, ring: &Ring) -> Result<Vec<(u8, u8, u8)>, AllocError>
    ensures { IfOk result (λ v. (t : _) → Contains v.items t ↔ IsTrue (is_channel ring.now t)) }
{
    let n = ring.labels();
    let found = extended(alloc, &[()], n, |_, a| Some(a))?;
    let found = extended(alloc, &found, n, |a, b| Some((a, b)))?;
    extended(alloc, &found, n, |(a, b), c| {
        ring.channel(a, b, c).then_some((a, b, c))
    })
}

// Both sides of an entry: the sum runs over the columns for two rows, and over the rows for two columns.
fn entry_sides(
    alloc: Global,
    ring: &Ring,
    side: Side,
    at: InverseLabels,
) -> Result<Sides, AllocError>
    ensures { IfOk result (λ s. s ≡ (entry_side side ring.now at, identity_side at)) }
{
    let left = summands(alloc, ring.labels(), |x| {
        entry_product(alloc, ring, side, at, x)
    })?;
    let right = identity_side(alloc, at)?;
    Ok(Sides::new(left, right))
}

// Both sides of R times S.
fn braiding_sides(alloc: Global, at: (u8, u8, u8)) -> Result<Sides, AllocError>
    ensures { IfOk result (λ s. s ≡ (braiding_side at, one_side at)) }
{
    let (a, b, c) = at;
    let left = one_product(alloc, &[Symbol::Rsym { a, b, c }, Symbol::Sinv { a, b, c }])?;
    let right = one_product(alloc, &[])?;
    Ok(Sides::new(left, right))
}

// A side of one product.
fn one_product(alloc: Global, factors: &[Symbol]) -> Result<Vec<Product>, AllocError>
    requires { length factors.now ≤ 4 }
    ensures products { IfOk result (λ v. v.items ≡ factors.now ∷ []) }
    ensures few { IfOk result (λ v. vec_len v ≤ 1000) }
{
    let mut products = Vec::new(alloc);
    products.push(Product::new(alloc, factors)?)?;
    Ok(products)
}

// The product of F and G at one label, if it is on the other side.
fn entry_product(
    alloc: Global,
    ring: &Ring,
    side: Side,
    at: InverseLabels,
    x: u8,
) -> Result<Option<Product>, AllocError>
    ensures { IfOk result (λ o. o ≡ (if is_on (opposite side) ring.now (matrix at) x then Some (entry_product side at x) else None)) }
{
    let labels = (at.a, at.b, at.c, at.d);
    if !is_on(ring, opposite(side), labels, x) {
        return Ok(None);
    }
    let factors = match side {
        Side::Rows => [fsym(labels, (at.channel, x)), ginv(labels, (x, at.other))],
        Side::Columns => [ginv(labels, (at.channel, x)), fsym(labels, (x, at.other))],
    };
    Ok(Some(Product::new(alloc, &factors)?))
}

// An entry of the identity: one empty product, or none.
fn identity_side(alloc: Global, at: InverseLabels) -> Result<Vec<Product>, AllocError>
    ensures products { IfOk result (λ v. v.items ≡ identity_side at) }
    ensures few { IfOk result (λ v. vec_len v ≤ 1000) }
{
    if at.channel == at.other {
        return one_product(alloc, &[]);
    }
    Ok(Vec::new(alloc))
}
