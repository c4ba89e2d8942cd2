//! What a list of triples says of the products of labels.

ghost use Rattle.std.specs.Prelude.{◌≡◌, position, not, IfOk};
ghost use Rattle.label_tuples.specs.Extended.{all_triples};
ghost use Rattle.label_tuples.specs.Order.{Before3, IsLeastFault};
ghost use Rattle.fusion_ring.specs.Listed.{is_in_range, is_at, is_listed, is_single, is_unit_product, breaks_unit, keeps_unit, is_product};

use crate::Triple;
use label_tuples::{all_triples, first_fault};
use std::alloc::{AllocError, Global};

fn is_in_range(labels: u64, p: &Triple) -> bool
    ensures { result ≡ is_in_range labels p.now }
{
    p.a < labels && p.b < labels && p.c < labels
}

/// The first triple with a number that is no label.
pub fn first_outside(labels: u64, products: &[Triple]) -> Option<usize>
    ensures { result ≡ position (λ p. not (is_in_range labels p)) products.now }
{
    products.iter().position(|p| !is_in_range(labels, p))
}

fn is_at(t: (u8, u8, u8), p: &Triple) -> bool
    ensures { result ≡ is_at t p.now }
{
    p.a == u64::from(t.0) && p.b == u64::from(t.1) && p.c == u64::from(t.2)
}

fn is_listed(products: &[Triple], t: (u8, u8, u8)) -> bool
    ensures { result ≡ is_listed products.now t }
{
    products.iter().any(|p| is_at(t, p))
}

fn is_single(products: &[Triple], t: (u8, u8, u8)) -> bool
    ensures { result ≡ is_single products.now t }
{
    products.iter().filter(|p| is_at(t, *p)).count() < 2
}

fn is_unit_product(t: (u8, u8, u8)) -> bool
    ensures { result ≡ is_unit_product t }
{
    t.0 == 0 && t.2 == t.1 || t.1 == 0 && t.2 == t.0
}

fn breaks_unit(t: (u8, u8, u8)) -> bool
    ensures { result ≡ breaks_unit t }
{
    t.0 == 0 && t.2 != t.1 || t.1 == 0 && t.2 != t.0
}

fn keeps_unit(products: &[Triple], t: (u8, u8, u8)) -> bool
    ensures { result ≡ keeps_unit products.now t }
{
    !(is_listed(products, t) && breaks_unit(t))
}

/// Whether the triple is listed or a product of the unit.
pub fn is_product(products: &[Triple], t: (u8, u8, u8)) -> bool
    ensures { result ≡ is_product products.now t }
{
    is_listed(products, t) || is_unit_product(t)
}

/// The least triple that is listed twice or more.
pub fn least_repeat(
    alloc: Global,
    labels: u8,
    products: &[Triple],
) -> Result<Option<(u8, u8, u8)>, AllocError>
    ensures { IfOk result (λ o. IsLeastFault Before3 (all_triples labels) (is_single products.now) o) }
{
    let all = all_triples(alloc, labels)?;
    Ok(first_fault(&all, |t| is_single(products, t)))
}

/// The least listed triple that breaks a product of the unit.
pub fn least_unit_fault(
    alloc: Global,
    labels: u8,
    products: &[Triple],
) -> Result<Option<(u8, u8, u8)>, AllocError>
    ensures { IfOk result (λ o. IsLeastFault Before3 (all_triples labels) (keeps_unit products.now) o) }
{
    let all = all_triples(alloc, labels)?;
    Ok(first_fault(&all, |t| keeps_unit(products, t)))
}
