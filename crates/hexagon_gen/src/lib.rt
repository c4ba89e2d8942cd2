//! The hexagon equations of a fusion ring as polynomials in its unknowns.
#![tactic(auto)]

ghost use Rattle.std.specs.Prelude.{◌≡◌, ◌≤◌, ◌↔◌, IsTrue, if◌then◌else◌, IfOk, Contains, vec_len};
ghost use Rattle.hexagon_gen.specs.declared.HexagonLabels.{HexagonLabels};
ghost use Rattle.hexagon_gen.specs.Hexagons.{braiding, is_hexagon, is_inner, left_side, right_product, right_side};
ghost use Rattle.hexagon_gen.specs.Differences.{AreHexagonDifferences};

pub mod laws;

use fusion_ring::Ring;
use label_tuples::extended;
use sparse_poly::Poly;
use std::alloc::{AllocError, Global};
use symbol_equations::{Product, Sides, differences, fsym, summands, trees};
use symbol_index::{Symbol, Symbols};

/// The labels at which both hexagons stand: a, b and c are fused to d. The channel e is one of a and c,
/// and g one of c and b.
#[derive(Clone, Copy)]
pub struct HexagonLabels {
    pub a: u8,
    pub b: u8,
    pub c: u8,
    pub d: u8,
    pub e: u8,
    pub g: u8,
}

/// Which hexagon: the first has the symbols R, and the second their inverses S.
#[derive(Clone, Copy)]
pub enum Hexagon {
    First,
    Second,
}

/// The difference of both sides of each first and each second hexagon of the ring, in no order that
/// is promised. It fails only where no memory is left.
pub fn hexagons(alloc: Global, ring: &Ring, symbols: &Symbols) -> Result<Vec<Poly>, AllocError>
    requires { symbols.now ≡ ring.now }
    ensures { IfOk result (λ v. AreHexagonDifferences ring.now v.items) }
{
    let all = hexagon_labels(alloc, ring)?;
    let mut found = differences(
        alloc,
        symbols,
        &all,
        |at| sides(alloc, ring, Hexagon::First, at),
    )?;
    let mut second = differences(
        alloc,
        symbols,
        &all,
        |at| sides(alloc, ring, Hexagon::Second, at),
    )?;
    found.append(&mut second)?;
    Ok(found)
}

// Both sides of one hexagon.
fn sides(
    alloc: Global,
    ring: &Ring,
    hexagon: Hexagon,
    at: HexagonLabels,
) -> Result<Sides, AllocError>
    ensures { IfOk result (λ s. s ≡ (left_side hexagon at, right_side ring.now hexagon at)) }
{
    let left = left_side(alloc, hexagon, at)?;
    let right = right_side(alloc, ring, hexagon, at)?;
    Ok(Sides::new(left, right))
}

// The left side: one product.
fn left_side(alloc: Global, hexagon: Hexagon, at: HexagonLabels) -> Result<Vec<Product>, AllocError>
    ensures { IfOk result (λ v. v.items ≡ left_side hexagon at) }
{
    let first = braiding(hexagon, at, at.a, at.e);
    let second = fsym((at.a, at.c, at.b, at.d), (at.e, at.g));
    let third = braiding(hexagon, at, at.b, at.g);
    let mut products = Vec::new(alloc);
    products.push(Product::new(alloc, &[first, second, third])?)?;
    Ok(products)
}

// The right side: one product for each inner label.
fn right_side(
    alloc: Global,
    ring: &Ring,
    hexagon: Hexagon,
    at: HexagonLabels,
) -> Result<Vec<Product>, AllocError>
    ensures products { IfOk result (λ v. v.items ≡ right_side ring.now hexagon at) }
    ensures few { IfOk result (λ v. vec_len v ≤ 1000) }
{
    summands(
        alloc,
        ring.labels(),
        |f| right_product(alloc, ring, hexagon, at, f),
    )
}

// The product of the right side at one label, if the sum runs over it.
fn right_product(
    alloc: Global,
    ring: &Ring,
    hexagon: Hexagon,
    at: HexagonLabels,
    f: u8,
) -> Result<Option<Product>, AllocError>
    ensures { IfOk result (λ o. o ≡ (if is_inner ring.now at f then Some (right_product hexagon at f) else None)) }
{
    if !is_inner(ring, at, f) {
        return Ok(None);
    }
    let first = fsym((at.c, at.a, at.b, at.d), (at.e, f));
    let second = braiding(hexagon, at, f, at.d);
    let third = fsym((at.a, at.b, at.c, at.d), (f, at.g));
    Ok(Some(Product::new(alloc, &[first, second, third])?))
}

// The symbol of c and x with the channel y, or the inverse one of x and c.
fn braiding(hexagon: Hexagon, at: HexagonLabels, x: u8, y: u8) -> Symbol
    ensures { result ≡ braiding hexagon at x y }
{
    match hexagon {
        Hexagon::First => Symbol::Rsym {
            a: at.c,
            b: x,
            c: y,
        },
        Hexagon::Second => Symbol::Sinv {
            a: x,
            b: at.c,
            c: y,
        },
    }
}

// Whether the sum runs over the label.
fn is_inner(ring: &Ring, at: HexagonLabels, f: u8) -> bool
    ensures { result ≡ is_inner ring.now at f }
{
    ring.channel(at.a, at.b, f) && ring.channel(f, at.c, at.d)
}

// The labels of all hexagons.
fn hexagon_labels(alloc: Global, ring: &Ring) -> Result<Vec<HexagonLabels>, AllocError>
    ensures { IfOk result (λ v. (at : HexagonLabels) → Contains v.items at ↔ IsTrue (is_hexagon ring.now at)) }
{
    let trees = trees(alloc, ring)?;
    extended(alloc, &trees, ring.labels(), |(a, c, e, b, d), g| {
        let is_right = ring.channel(c, b, g) && ring.channel(a, g, d);
        is_right.then_some(HexagonLabels { a, b, c, d, e, g })
    })
}
