//! The gauge: named symbols with chosen values.

ghost use Rattle.std.specs.Prelude.{◌≡◌, IfOk, All};
ghost use Rattle.symbol_index.specs.Symbols.{standing};
ghost use Rattle.gauge_fix.specs.Gauge.{IsFixable, IsGaugeDifference, AreGaugeDifferences};

use monomial::Monomial;
use sparse_poly::{Poly, PolyFault, Term};
use std::alloc::{AllocError, Global};
use symbol_index::{GaugeEntry, Standing, Symbols};

/// For each entry its symbol minus its value, in no order that is promised.
///
/// Each entry is to name an unknown of the ring, with a value of absolute value at most `2^127-1`.
/// It fails only where no memory is left.
pub fn gauges(
    alloc: Global,
    symbols: &Symbols,
    gauge: &[GaugeEntry],
) -> Result<Vec<Poly>, AllocError>
    requires { All (IsFixable symbols.now) gauge.now }
    ensures { IfOk result (λ v. AreGaugeDifferences symbols.now gauge.now v.items) }
{
    let mut differences = Vec::new(alloc);
    for entry in gauge {
        differences.push(gauge_difference(alloc, symbols, *entry)?)?;
    }
    Ok(differences)
}

// The symbol of an entry minus its value.
fn gauge_difference(alloc: Global, symbols: &Symbols, entry: GaugeEntry) -> Result<Poly, AllocError>
    requires { IsFixable symbols.now entry }
    ensures { IfOk result (IsGaugeDifference symbols.now entry) }
{
    let number = number_of(symbols, entry);
    let mut terms = Vec::with_capacity(alloc, 2)?;
    terms.push(Term {
        monomial: Monomial::power(alloc, number, 1)?,
        coeff: 1,
    })?;
    terms.push(Term {
        monomial: Monomial::one(alloc),
        coeff: -entry.value,
    })?;
    match Poly::from_terms(alloc, terms) {
        Ok(poly) => Ok(poly),
        Err(PolyFault::OutOfMemory) => Err(AllocError),
        // The two terms have different monomials, and each coefficient is in range.
        Err(PolyFault::Degree { .. }) => unreachable!(),
        Err(PolyFault::Heavy { .. }) => unreachable!(),
    }
}

// The number of the unknown that an entry names.
fn number_of(symbols: &Symbols, entry: GaugeEntry) -> u32
    requires { IsFixable symbols.now entry }
    ensures { standing symbols.now entry.symbol ≡ Standing.Unknown result }
{
    match symbols.standing(entry.symbol) {
        Standing::Unknown(number) => number,
        Standing::Unit => unreachable!(),
        Standing::NotAdmissible => unreachable!(),
    }
}
