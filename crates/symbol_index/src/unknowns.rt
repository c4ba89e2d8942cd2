//! The list of the unknown symbols of a ring.

ghost use Rattle.std.specs.Prelude.{◌≡◌, ◌≤◌, IfOk, OnOk, MatchResult, filter, length};
ghost use Rattle.label_tuples.specs.Extended.{all_triples, all_sixes};
ghost use Rattle.symbol_index.specs.Symbols.{is_unknown, rsym, unknowns, max_unknowns, IsSymbolFault};
ghost use Rattle.symbol_index.specs.Sides.{entry};
ghost use Rattle.symbol_index.specs.Appended.{is_nontrivial, IsAppended};

use crate::sides::{Side, is_on, opposite};
use crate::{Symbol, SymbolFault};
use fusion_ring::Ring;
use label_tuples::extended;
use std::alloc::{AllocError, Global};

const MAX_UNKNOWNS: u64 = 4096;

type Six = (u8, u8, u8, u8, u8, u8);

type Three = (u8, u8, u8);

/// The labels (a,b,c,d,e,f) of the unknown F(a,b,c,d;e,f), where the rows e are first, or (a,b,c,d,f,e) of the unknown
/// G(a,b,c,d;f,e), where the columns f are, in lexicographic order.
fn unknown_entries(alloc: Global, ring: &Ring, first: Side) -> Result<Vec<Six>, AllocError>
    ensures { IfOk result (λ v. v.items ≡ filter (λ t. is_unknown ring.now (entry first t)) (all_sixes ring.now.labels)) }
{
    let n = ring.labels();
    let found = nontrivial(alloc, n)?;
    let found = extended(alloc, &found, n, |(a, b, c), d| Some((a, b, c, d)))?;
    let found = extended(alloc, &found, n, |(a, b, c, d), x| {
        is_on(ring, first, (a, b, c, d), x).then_some((a, b, c, d, x))
    })?;
    extended(alloc, &found, n, |(a, b, c, d, x), y| {
        is_on(ring, opposite(first), (a, b, c, d), y).then_some((a, b, c, d, x, y))
    })
}

/// The labels (a,b,c) of the unknown R(a,b,c), and of the S, in lexicographic order.
fn unknown_r(alloc: Global, ring: &Ring) -> Result<Vec<Three>, AllocError>
    ensures { IfOk result (λ v. v.items ≡ filter (λ t. is_unknown ring.now (rsym t)) (all_triples ring.now.labels)) }
{
    let n = ring.labels();
    let found = extended(alloc, &[()], n, |_, a| (a != 0).then_some(a))?;
    let found = extended(alloc, &found, n, |a, b| (b != 0).then_some((a, b)))?;
    extended(
        alloc,
        &found,
        n,
        |(a, b), c| ring.channel(a, b, c).then_some((a, b, c)),
    )
}

/// The triples of labels other than 0, in lexicographic order.
fn nontrivial(alloc: Global, n: u8) -> Result<Vec<Three>, AllocError>
    ensures { IfOk result (λ v. v.items ≡ filter is_nontrivial (all_triples n)) }
{
    let found = extended(alloc, &[()], n, |_, a| (a != 0).then_some(a))?;
    let found = extended(alloc, &found, n, |a, b| (b != 0).then_some((a, b)))?;
    extended(alloc, &found, n, |(a, b), c| (c != 0).then_some((a, b, c)))
}

/// Appends the symbol of each of the tuples.
fn append<T: Copy, F: Fn(T) -> Symbol>(
    list: &mut Vec<Symbol>,
    tuples: &[T],
    symbol: F,
) -> Result<(), AllocError>
    requires { F.IsAlwaysCallable symbol }
    ensures { OnOk result (IsAppended (F.post symbol) list.old.items tuples.now list.new.items) }
{
    for t in tuples {
        list.push(symbol(*t))?;
    }
    Ok(())
}

/// The unknown symbols of the ring, if they are not too many.
pub fn numbered_unknowns(alloc: Global, ring: &Ring) -> Result<Vec<Symbol>, SymbolFault>
    ensures list { MatchResult result (λ v. v.items ≡ unknowns ring.now) (IsSymbolFault ring.now) }
    ensures few { OnOk result (length (unknowns ring.now) ≤ max_unknowns) }
{
    let f = unknown_entries(alloc, ring, Side::Rows)?;
    let g = unknown_entries(alloc, ring, Side::Columns)?;
    let r = unknown_r(alloc, ring)?;
    let count = f.len() as u64 + g.len() as u64 + 2 * r.len() as u64;
    if count > MAX_UNKNOWNS {
        return Err(SymbolFault::TooManyUnknowns { count });
    }
    let mut list = Vec::with_capacity(alloc, count as usize)?;
    append(
        &mut list,
        &f,
        |(a, b, c, d, e, f)| Symbol::Fsym { a, b, c, d, e, f },
    )?;
    append(
        &mut list,
        &g,
        |(a, b, c, d, f, e)| Symbol::Ginv { a, b, c, d, f, e },
    )?;
    append(&mut list, &r, |(a, b, c)| Symbol::Rsym { a, b, c })?;
    append(&mut list, &r, |(a, b, c)| Symbol::Sinv { a, b, c })?;
    Ok(list)
}
