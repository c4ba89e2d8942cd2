//! The pentagon equations of a fusion ring as polynomials in its unknowns.
#![tactic(auto)]

ghost use Rattle.std.specs.Prelude.{◌≡◌, ◌≤◌, ◌↔◌, IsTrue, if◌then◌else◌, IfOk, Contains, vec_len};
ghost use Rattle.pentagon_gen.specs.declared.PentagonLabels.{PentagonLabels};
ghost use Rattle.pentagon_gen.specs.Pentagon.{is_pentagon, is_inner, left_side, right_product, right_side};
ghost use Rattle.pentagon_gen.specs.Differences.{ArePentagonDifferences};

pub mod laws;

use fusion_ring::Ring;
use label_tuples::extended;
use sparse_poly::Poly;
use std::alloc::{AllocError, Global};
use symbol_equations::{Product, Sides, differences, fsym, summands, trees};
use symbol_index::Symbols;

/// The labels at which a pentagon stands: a, b, c and d are fused to e. The channel f is one of a and b,
/// g one of f and c, l one of c and d, and k one of b and l.
#[derive(Clone, Copy)]
pub struct PentagonLabels {
    pub a: u8,
    pub b: u8,
    pub c: u8,
    pub d: u8,
    pub e: u8,
    pub f: u8,
    pub g: u8,
    pub k: u8,
    pub l: u8,
}

/// The difference of both sides of each pentagon of the ring, in no order that is promised. It fails
/// only where no memory is left.
pub fn pentagons(alloc: Global, ring: &Ring, symbols: &Symbols) -> Result<Vec<Poly>, AllocError>
    requires { symbols.now ≡ ring.now }
    ensures { IfOk result (λ v. ArePentagonDifferences ring.now v.items) }
{
    let all = pentagon_labels(alloc, ring)?;
    differences(alloc, symbols, &all, |at| sides(alloc, ring, at))
}

// Both sides of one pentagon.
fn sides(alloc: Global, ring: &Ring, at: PentagonLabels) -> Result<Sides, AllocError>
    ensures { IfOk result (λ s. s ≡ (left_side at, right_side ring.now at)) }
{
    let left = left_side(alloc, at)?;
    let right = right_side(alloc, ring, at)?;
    Ok(Sides::new(left, right))
}

// The left side: one product.
fn left_side(alloc: Global, at: PentagonLabels) -> Result<Vec<Product>, AllocError>
    ensures { IfOk result (λ v. v.items ≡ left_side at) }
{
    let first = fsym((at.f, at.c, at.d, at.e), (at.g, at.l));
    let second = fsym((at.a, at.b, at.l, at.e), (at.f, at.k));
    let mut products = Vec::new(alloc);
    products.push(Product::new(alloc, &[first, second])?)?;
    Ok(products)
}

// The right side: one product for each inner label.
fn right_side(alloc: Global, ring: &Ring, at: PentagonLabels) -> Result<Vec<Product>, AllocError>
    ensures products { IfOk result (λ v. v.items ≡ right_side ring.now at) }
    ensures few { IfOk result (λ v. vec_len v ≤ 1000) }
{
    summands(alloc, ring.labels(), |h| right_product(alloc, ring, at, h))
}

// The product of the right side at one label, if the sum runs over it.
fn right_product(
    alloc: Global,
    ring: &Ring,
    at: PentagonLabels,
    h: u8,
) -> Result<Option<Product>, AllocError>
    ensures { IfOk result (λ o. o ≡ (if is_inner ring.now at h then Some (right_product at h) else None)) }
{
    if !is_inner(ring, at, h) {
        return Ok(None);
    }
    let first = fsym((at.a, at.b, at.c, at.g), (at.f, h));
    let second = fsym((at.a, h, at.d, at.e), (at.g, at.k));
    let third = fsym((at.b, at.c, at.d, at.k), (h, at.l));
    Ok(Some(Product::new(alloc, &[first, second, third])?))
}

// Whether the sum runs over the label.
fn is_inner(ring: &Ring, at: PentagonLabels, h: u8) -> bool
    ensures { result ≡ is_inner ring.now at h }
{
    ring.channel(at.b, at.c, h) && ring.channel(at.a, h, at.g) && ring.channel(h, at.d, at.k)
}

// The labels of all pentagons.
fn pentagon_labels(alloc: Global, ring: &Ring) -> Result<Vec<PentagonLabels>, AllocError>
    ensures { IfOk result (λ v. (at : PentagonLabels) → Contains v.items at ↔ IsTrue (is_pentagon ring.now at)) }
{
    let n = ring.labels();
    let found = trees(alloc, ring)?;
    let found = extended(
        alloc,
        &found,
        n,
        |(a, b, f, c, g), d| Some((a, b, f, c, g, d)),
    )?;
    let found = extended(alloc, &found, n, |(a, b, f, c, g, d), e| {
        ring.channel(g, d, e).then_some((a, b, f, c, g, d, e))
    })?;
    let found = extended(alloc, &found, n, |(a, b, f, c, g, d, e), l| {
        ring.channel(c, d, l).then_some((a, b, f, c, g, d, e, l))
    })?;
    extended(alloc, &found, n, |(a, b, f, c, g, d, e, l), k| {
        let is_right = ring.channel(b, l, k) && ring.channel(a, k, e);
        is_right.then_some(PentagonLabels {
            a,
            b,
            c,
            d,
            e,
            f,
            g,
            k,
            l,
        })
    })
}
