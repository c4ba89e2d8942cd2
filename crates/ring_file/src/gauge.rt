//! The gauge entries of a problem file.

ghost use Rattle.std.specs.Prelude.{◌≡◌, ◌≤◌, ℤ, false, true, map, MatchOption, MatchResult, unsigned_abs};
ghost use Rattle.std.specs.List.{All};
ghost use Rattle.sparse_poly.specs.Contributions.{max_coeff};
ghost use Rattle.ring_file.specs.Problems.{is_gauge_symbol, IsGauge};
ghost use Rattle.ring_file.specs.Reading.{IsNumberText, in_file};
ghost use Rattle.ring_file.specs.Named.{named_symbol, written_entry, valued_entry, AreValued, IsNumberFault, AreGauge, IsSymbolFault};

use crate::problem::ProblemFault;
use crate::symbols::{Named, NamedEntry};
use decimal_text::read_signed;
use fusion_ring::Ring;
use std::alloc::Global;
use symbol_index::{GaugeEntry, Symbol, is_unknown};

/// The greatest absolute value of a gauge value.
const MAX_VALUE: u128 = i128::MAX as u128;

/// A gauge entry with its value.
#[derive(Clone, Copy)]
pub(crate) struct ValuedEntry {
    symbol: Named,
    value: i128,
}

/// The whole number of absolute value at most `2^127-1` that has this decimal text, if there is one.
fn whole_number(text: &str) -> Option<i128>
    ensures { MatchOption result ((v : ℤ) → ¬ IsNumberText text.now v) (IsNumberText text.now) }
{
    read_signed(text.as_bytes(), MAX_VALUE)
}

/// The entries with their values, or the first entry that has none.
pub(crate) fn valued(
    alloc: Global,
    entries: &[NamedEntry<'_>],
) -> Result<Vec<ValuedEntry>, ProblemFault>
    ensures { MatchResult result (λ v. AreValued (map written_entry entries.now) v.items) (IsNumberFault (map written_entry entries.now)) }
{
    let mut valued = Vec::new(alloc);
    'entries: for entry in entries {
        match whole_number(entry.value) {
            Some(value) => valued.push(ValuedEntry {
                symbol: entry.symbol,
                value,
            })?,
            None => {
                return Err(ProblemFault::GaugeNumber {
                    entry: valued.len() as u64,
                });
            }
        }
    }
    Ok(valued)
}

/// The label with this number, if there is one.
fn label(ring: &Ring, number: u64) -> Option<u8>
    ensures { MatchOption result (ring.now.labels ≤ number) (λ l. l ≡ number) }
{
    if number < ring.labels() as u64 {
        Some(number as u8)
    } else {
        None
    }
}

fn is_gauge_symbol(ring: &Ring, symbol: Symbol) -> bool
    ensures { result ≡ is_gauge_symbol ring.now symbol }
{
    match symbol {
        Symbol::Fsym { .. } | Symbol::Rsym { .. } => is_unknown(ring, symbol),
        Symbol::Ginv { .. } | Symbol::Sinv { .. } => false,
    }
}

/// The symbol of these labels, if they are labels of the ring.
fn symbol(ring: &Ring, named: Named) -> Option<Symbol>
    ensures { MatchOption result (is_gauge_symbol ring.now (named_symbol named) ≡ false) (λ s. s ≡ named_symbol named) }
{
    match named {
        Named::F { a, b, c, d, e, f } => Some(Symbol::Fsym {
            a: label(ring, a)?,
            b: label(ring, b)?,
            c: label(ring, c)?,
            d: label(ring, d)?,
            e: label(ring, e)?,
            f: label(ring, f)?,
        }),
        Named::R { a, b, c } => Some(Symbol::Rsym {
            a: label(ring, a)?,
            b: label(ring, b)?,
            c: label(ring, c)?,
        }),
    }
}

/// The unknown F or R of the ring that has this name, if there is one.
fn unknown(ring: &Ring, named: Named) -> Option<Symbol>
    ensures { MatchOption result (is_gauge_symbol ring.now (named_symbol named) ≡ false) (λ s. (s ≡ named_symbol named) × (is_gauge_symbol ring.now s ≡ true)) }
{
    let symbol = symbol(ring, named)?;
    if is_gauge_symbol(ring, symbol) {
        Some(symbol)
    } else {
        None
    }
}

/// The entries with their unknowns, or the first entry that names none.
pub(crate) fn gauge(
    alloc: Global,
    ring: &Ring,
    entries: &[ValuedEntry],
) -> Result<Vec<GaugeEntry>, ProblemFault>
    requires { All (λ e. unsigned_abs e.value ≤ max_coeff) entries.now }
    ensures { MatchResult result (λ v. AreGauge ring.now (map valued_entry entries.now) v.items) (IsSymbolFault ring.now (map valued_entry entries.now)) }
{
    let mut gauge = Vec::new(alloc);
    'entries: for entry in entries {
        match unknown(ring, entry.symbol) {
            Some(symbol) => gauge.push(GaugeEntry {
                symbol,
                value: entry.value,
            })?,
            None => {
                return Err(ProblemFault::GaugeSymbol {
                    entry: gauge.len() as u64,
                });
            }
        }
    }
    Ok(gauge)
}
