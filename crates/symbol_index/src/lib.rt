//! The F- and R-symbols of a fusion ring and their numbers.
#![tactic(auto)]

ghost use Rattle.std.specs.Prelude.{◌≡◌, ◌<◌, ◌≤◌, IfOk, length, true, slice_get, Some, MatchResult};
ghost use Rattle.symbol_index.specs.Symbols.{is_admissible, has_unit, is_unknown, unknowns, number, standing, max_unknowns, IsSymbolFault};
ghost use Rattle.std.specs.List.Sorted.{IsBinarySearchResult};
ghost use Rattle.symbol_index.specs.Order.{symbol_cmp};

mod laws;
mod sides;
mod unknowns;

use fusion_ring::Ring;
pub use laws::number_law;
pub use sides::{Side, is_on, opposite};
use std::alloc::{AllocError, Global};
use std::marker::Model;
use thiserror::Error;
use unknowns::numbered_unknowns;

/// A symbol and its labels.
///
/// The symbols' order is that of the variants, and then the lexicographic order of the labels as
/// they stand here.
#[derive(Clone, Copy, Debug, PartialEq, Eq, PartialOrd, Ord)]
pub enum Symbol {
    /// F(a,b,c,d;e,f)
    Fsym {
        a: u8,
        b: u8,
        c: u8,
        d: u8,
        e: u8,
        f: u8,
    },
    /// G(a,b,c,d;f,e), an entry of the inverse of the matrix of the F(a,b,c,d;e,f)
    Ginv {
        a: u8,
        b: u8,
        c: u8,
        d: u8,
        f: u8,
        e: u8,
    },
    /// R(a,b,c)
    Rsym {
        a: u8,
        b: u8,
        c: u8,
    },
    /// S(a,b,c), the inverse of R(a,b,c)
    Sinv {
        a: u8,
        b: u8,
        c: u8,
    },
}

/// What a symbol is in a ring.
#[derive(Clone, Copy, Debug, PartialEq)]
pub enum Standing {
    /// An admissible symbol with the unit among the labels that are multiplied: its value is 1.
    Unit,
    /// An unknown and its number.
    Unknown(u32),
    /// A symbol that is not admissible, as one with a label outside the ring: its value is 0.
    NotAdmissible,
}

/// One named symbol equals one whole number.
#[derive(Clone, Copy, Debug, PartialEq)]
pub struct GaugeEntry {
    pub symbol: Symbol,
    pub value: i128,
}

/// Why the unknowns of a ring are not numbered.
#[derive(Clone, Copy, Debug, Drop, PartialEq, Error)]
pub enum SymbolFault {
    /// Their number, `count`, is above 4,096.
    #[error("TooManyUnknowns")]
    TooManyUnknowns { count: u64 },
    /// An allocation failed.
    #[error("OutOfMemory")]
    OutOfMemory,
}

impl From<AllocError> for SymbolFault {
    ghost use Rattle.std.specs.Prelude.{◌≡◌};
    ghost use Rattle.symbol_index.specs.declared.SymbolFault.TheVariants.{OutOfMemory};

    ghost from_gives = { λ _ e. e ≡ OutOfMemory };

    fn from(_: AllocError) -> SymbolFault {
        SymbolFault::OutOfMemory
    }
}

/// The numbers of the unknown symbols of a ring, from 0: first the F, then the G, the R and the S,
/// each in the lexicographic order of their labels. There are at most 4,096.
#[derive(Drop)]
pub struct Symbols {
    ring: Ring,
    list: Vec<Symbol>,
}

impl Model for Symbols {
    ghost use Rattle.std.specs.Prelude.{◌≡◌, ◌≤◌, length};
    ghost use Rattle.fusion_ring.specs.Fusion.{Fusion};
    ghost use Rattle.symbol_index.specs.Symbols.{unknowns, max_unknowns};

    ghost Value = { Fusion };

    ghost view = { λ s. s.ring };

    ghost invariant = { λ s. (s.list.items ≡ unknowns s.ring) × (length (unknowns s.ring) ≤ max_unknowns) };
}

impl Symbols {
    /// Numbers the unknown symbols of the ring.
    pub fn new(alloc: Global, ring: &Ring) -> Result<Symbols, SymbolFault>
        ensures { MatchResult result (λ symbols. symbols ≡ ring.now) (IsSymbolFault ring.now) }
    {
        let list = numbered_unknowns(alloc, ring)?;
        Ok(Symbols {
            ring: ring.copy()?,
            list,
        })
    }

    /// The number of unknowns, at most 4,096.
    pub fn count(&self) -> u32
        ensures count { result ≡ length (unknowns self.now) }
        ensures few { length (unknowns self.now) ≤ max_unknowns }
    {
        self.list.len() as u32
    }

    /// Whether a symbol is a unit symbol, an unknown with its number, or not admissible.
    pub fn standing(&self, s: Symbol) -> Standing
        ensures { result ≡ standing self.now s }
    {
        if !is_admissible(&self.ring, s) {
            return Standing::NotAdmissible;
        }
        if has_unit(s) {
            return Standing::Unit;
        }
        Standing::Unknown(self.number(s))
    }

    fn number(&self, s: Symbol) -> u32
        requires { is_unknown self.now s ≡ true }
        ensures { result ≡ number self.now s }
    {
        find(&self.list, s).unwrap_or(0) as u32
    }

    /// The unknown with the number i.
    pub fn symbol_at(&self, i: u32) -> Symbol
        requires { i < length (unknowns self.now) }
        ensures { slice_get (unknowns self.now) i ≡ Some result }
    {
        self.list[i as usize]
    }
}

/// Whether a symbol is admissible and no unit symbol, and so an unknown of the ring.
pub fn is_unknown(ring: &Ring, s: Symbol) -> bool
    ensures { result ≡ is_unknown ring.now s }
{
    !has_unit(s) && is_admissible(ring, s)
}

fn is_admissible(ring: &Ring, s: Symbol) -> bool
    ensures { result ≡ is_admissible ring.now s }
{
    match s {
        Symbol::Fsym { a, b, c, d, e, f } | Symbol::Ginv { a, b, c, d, f, e } => {
            ring.channel(a, b, e)
                && ring.channel(e, c, d)
                && ring.channel(b, c, f)
                && ring.channel(a, f, d)
        }
        Symbol::Rsym { a, b, c } | Symbol::Sinv { a, b, c } => ring.channel(a, b, c),
    }
}

fn has_unit(s: Symbol) -> bool
    ensures { result ≡ has_unit s }
{
    match s {
        Symbol::Fsym { a, b, c, .. } | Symbol::Ginv { a, b, c, .. } => a == 0 || b == 0 || c == 0,
        Symbol::Rsym { a, b, .. } | Symbol::Sinv { a, b, .. } => a == 0 || b == 0,
    }
}

/// Finds a symbol in a list in ascending order.
fn find(symbols: &[Symbol], s: Symbol) -> Result<usize, usize>
    ensures place { IsBinarySearchResult (λ u. symbol_cmp u s) symbols.now result }
    ensures in_range { IfOk result (λ i. i < length symbols.now) }
{
    symbols.binary_search(&s)
}
