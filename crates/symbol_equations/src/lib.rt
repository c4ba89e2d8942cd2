//! From an equation between sums of products of symbols to a polynomial in the unknowns.
#![tactic(auto)]

ghost use Rattle.std.specs.Prelude.{◌≡◌, ◌≤◌, ◌↔◌, IsTrue, [], ◌∷◌, ◌++◌, length, Contains, IfOk, OnOk, vec_len};
ghost use Rattle.symbol_equations.specs.Differences.{product_terms, side_terms, IsDifference, AreTheirSummands, AreTheirDifferences};
ghost use Rattle.symbol_equations.specs.Trees.{is_tree};
ghost use Rattle.symbol_equations.specs.Contributions.{optional_terms, with_coeff, IsLow};
ghost use Rattle.monomial.specs.Monomials.{monomial_times};

pub mod laws;

use fusion_ring::Ring;
use label_tuples::extended;
use monomial::{MonoFault, Monomial};
use sparse_poly::{Poly, PolyFault, Term};
use std::alloc::{AllocError, Global};
use std::marker::Model;
use symbol_index::{Standing, Symbol, Symbols};

/// A product of at most four symbols, seen as the list of its factors. The empty product is 1.
#[derive(Drop)]
pub struct Product {
    factors: Vec<Symbol>,
}

impl Model for Product {
    ghost use Rattle.std.specs.Prelude.{List, ◌≤◌, length};
    ghost use Rattle.symbol_index.specs.declared.Symbol.{Symbol};

    ghost Value = { List Symbol };

    ghost view = { λ p. p.factors.items };

    ghost invariant = { λ p. length p.factors.items ≤ 4 };
}

impl Product {
    /// The product of these symbols. It fails only where no memory is left.
    pub fn new(alloc: Global, factors: &[Symbol]) -> Result<Product, AllocError>
        requires { length factors.now ≤ 4 }
        ensures { IfOk result (λ p. p ≡ factors.now) }
    {
        Ok(Product {
            factors: Vec::from_slice(alloc, factors)?,
        })
    }

    /// The factors, of which there are at most four.
    pub fn factors(&self) -> &[Symbol]
        ensures value { result.now ≡ self.now }
        ensures few { length self.now ≤ 4 }
    {
        self.factors.as_slice()
    }
}

/// Both sides of an equation, seen as the pair of the lists of their products. The value of a side is
/// the sum of its products.
#[derive(Drop)]
pub struct Sides {
    left: Vec<Product>,
    right: Vec<Product>,
}

impl Model for Sides {
    ghost use Rattle.std.specs.Prelude.{List, ◌≤◌, vec_len};
    ghost use Rattle.symbol_index.specs.declared.Symbol.{Symbol};

    ghost Value = { List (List Symbol) × List (List Symbol) };

    ghost view = { λ s. (s.left.items, s.right.items) };

    ghost invariant = { λ s. (vec_len s.left ≤ 1000) × (vec_len s.right ≤ 1000) };
}

impl Sides {
    /// The equation of these sides, which are short.
    pub fn new(left: Vec<Product>, right: Vec<Product>) -> Sides
        requires few_left { vec_len left ≤ 1000 }
        requires few_right { vec_len right ≤ 1000 }
        ensures { result ≡ (left.items, right.items) }
    {
        Sides { left, right }
    }
}

/// The symbol F(a,b,c,d;e,f) of the labels (a, b, c, d) and the channels (e, f).
pub fn fsym(labels: (u8, u8, u8, u8), channels: (u8, u8)) -> Symbol
    ensures { result ≡ Symbol.Fsym labels.0 labels.1 labels.2 labels.3 channels.0 channels.1 }
{
    Symbol::Fsym {
        a: labels.0,
        b: labels.1,
        c: labels.2,
        d: labels.3,
        e: channels.0,
        f: channels.1,
    }
}

/// The symbol G(a,b,c,d;f,e), an entry of the inverse matrix, of the labels (a, b, c, d) and the
/// channels (f, e).
pub fn ginv(labels: (u8, u8, u8, u8), channels: (u8, u8)) -> Symbol
    ensures { result ≡ Symbol.Ginv labels.0 labels.1 labels.2 labels.3 channels.0 channels.1 }
{
    Symbol::Ginv {
        a: labels.0,
        b: labels.1,
        c: labels.2,
        d: labels.3,
        f: channels.0,
        e: channels.1,
    }
}

/// The polynomial of an equation: the sum of the products on the left minus the sum of those on the
/// right. It fails only where no memory is left.
pub fn difference(
    alloc: Global,
    symbols: &Symbols,
    left: &[Product],
    right: &[Product],
) -> Result<Poly, AllocError>
    requires few_left { length left.now ≤ 1000 }
    requires few_right { length right.now ≤ 1000 }
    ensures { IfOk result (IsDifference symbols.now left.now right.now) }
{
    let mut terms = Vec::with_capacity(alloc, left.len() + right.len())?;
    add_side(symbols, left, 1, &mut terms)?;
    add_side(symbols, right, -1, &mut terms)?;
    match Poly::from_terms(alloc, terms) {
        Ok(poly) => Ok(poly),
        Err(PolyFault::OutOfMemory) => Err(AllocError),
        // At most 2,000 coefficients 1 and -1 are not heavy, and a monomial has no exponent too high.
        Err(PolyFault::Degree { .. }) => unreachable!(),
        Err(PolyFault::Heavy { .. }) => unreachable!(),
    }
}

// Adds the terms of some products, each with this coefficient.
fn add_side(
    symbols: &Symbols,
    side: &[Product],
    coeff: i128,
    terms: &mut Vec<Term>,
) -> Result<(), AllocError>
    ensures { OnOk result (terms.new.items ≡ terms.old.items ++ with_coeff coeff (side_terms symbols.now side.now)) }
{
    for product in side {
        add_product(symbols, product, coeff, terms)?;
    }
    Ok(())
}

// Adds the term of one product with this coefficient, unless the product is 0.
fn add_product(
    symbols: &Symbols,
    product: &Product,
    coeff: i128,
    terms: &mut Vec<Term>,
) -> Result<(), AllocError>
    ensures { OnOk result (terms.new.items ≡ terms.old.items ++ with_coeff coeff (product_terms symbols.now product.now)) }
{
    let alloc = *terms.allocator();
    if let Some(monomial) = monomial_of(alloc, symbols, product.factors())? {
        terms.push(Term { monomial, coeff })?;
    }
    Ok(())
}

// The product of some symbols as a monomial, or `None` where one of them is not admissible.
fn monomial_of(
    alloc: Global,
    symbols: &Symbols,
    factors: &[Symbol],
) -> Result<Option<Monomial>, AllocError>
    requires { length factors.now ≤ 4 }
    ensures { IfOk result (λ o. optional_terms o ≡ product_terms symbols.now factors.now) }
{
    let Some((first, rest)) = factors.split_first() else {
        return Ok(Some(Monomial::one(alloc)));
    };
    let Some(monomial) = monomial_of(alloc, symbols, rest)? else {
        return Ok(None);
    };
    match symbols.standing(*first) {
        Standing::Unit => Ok(Some(monomial)),
        Standing::Unknown(number) => Ok(Some(times_unknown(alloc, number, &monomial)?)),
        Standing::NotAdmissible => Ok(None),
    }
}

// The product of an unknown and a monomial with small exponents.
fn times_unknown(alloc: Global, number: u32, monomial: &Monomial) -> Result<Monomial, AllocError>
    requires { IsLow 4 monomial.now }
    ensures { IfOk result (λ m. m ≡ monomial_times ((number, 1) ∷ []) monomial.now) }
{
    match Monomial::power(alloc, number, 1)?.times(monomial) {
        Ok(product) => Ok(product),
        Err(MonoFault::OutOfMemory) => Err(AllocError),
        Err(MonoFault::Degree { .. }) => unreachable!(),
    }
}

/// The products of a sum over all labels below `labels`, in order: `product` makes the one at a label,
/// or `None` where the sum does not run over that label. It fails only where no memory is left.
pub fn summands<F: Fn(u8) -> Result<Option<Product>, AllocError>>(
    alloc: Global,
    labels: u8,
    product: F,
) -> Result<Vec<Product>, AllocError>
    requires { F.IsAlwaysCallable product }
    ensures products { IfOk result (λ v. AreTheirSummands (F.post product) labels v.items) }
    ensures few { IfOk result (λ v. vec_len v ≤ labels) }
{
    let mut products = Vec::new(alloc);
    for label in 0..labels {
        if let Some(summand) = product(label)? {
            products.push(summand)?;
        }
    }
    Ok(products)
}

/// The difference of both sides of each equation: `sides` makes the sides at each of the labels. It
/// fails only where no memory is left.
pub fn differences<L: Copy, F: Fn(L) -> Result<Sides, AllocError>>(
    alloc: Global,
    symbols: &Symbols,
    labels: &[L],
    sides: F,
) -> Result<Vec<Poly>, AllocError>
    requires { F.IsAlwaysCallable sides }
    ensures { IfOk result (λ v. AreTheirDifferences symbols.now (F.post sides) labels.now v.items) }
{
    let mut found = Vec::new(alloc);
    for at in labels {
        let equation = sides(*at)?;
        found.push(difference(alloc, symbols, &equation.left, &equation.right)?)?;
    }
    Ok(found)
}

/// The labels a, b, e, c, d for which e is a channel of a and b, and d one of e and c, in
/// no order that is promised. It fails only where no memory is left.
pub fn trees(alloc: Global, ring: &Ring) -> Result<Vec<(u8, u8, u8, u8, u8)>, AllocError>
    ensures { IfOk result (λ v. (t : _) → Contains v.items t ↔ IsTrue (is_tree ring.now t)) }
{
    let n = ring.labels();
    let found = extended(alloc, &[()], n, |_, a| Some(a))?;
    let found = extended(alloc, &found, n, |a, b| Some((a, b)))?;
    let found = extended(alloc, &found, n, |(a, b), e| {
        ring.channel(a, b, e).then_some((a, b, e))
    })?;
    let found = extended(alloc, &found, n, |(a, b, e), c| Some((a, b, e, c)))?;
    extended(alloc, &found, n, |(a, b, e, c), d| {
        ring.channel(e, c, d).then_some((a, b, e, c, d))
    })
}
