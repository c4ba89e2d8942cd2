//! A problem, and why a text states none.

ghost use Rattle.std.specs.Prelude.{◌≡◌};
ghost use Rattle.ring_file.specs.Problems.{Stated, IsGauge};

use fusion_ring::{Ring, RingFault};
use std::alloc::{AllocError, AllocFailed};
use std::marker::Model;
use symbol_index::GaugeEntry;
use thiserror::Error;

/// A fusion ring and a list of gauge entries, each of which says that an unknown F or R of the ring
/// equals a whole number of absolute value at most `2^127-1`.
#[derive(Drop)]
pub struct Problem {
    fusion: Ring,
    entries: Vec<GaugeEntry>,
}

impl Model for Problem {
    ghost use Rattle.ring_file.specs.Problems.{Stated, IsGauge};

    ghost Value = { Stated };

    ghost view = { λ p. record { ring = p.fusion; gauge = p.entries.items } };

    ghost invariant = { λ p. IsGauge p.fusion p.entries.items };
}

impl Problem {
    /// The problem of this ring and these gauge entries.
    ///
    /// Each entry is to name an unknown F or R of the ring, with a value of absolute value at most
    /// `2^127-1`.
    pub fn of(ring: Ring, gauge: Vec<GaugeEntry>) -> Problem
        requires { IsGauge ring gauge.items }
        ensures { result ≡ record { ring = ring; gauge = gauge.items } }
    {
        Problem {
            fusion: ring,
            entries: gauge,
        }
    }

    /// The ring.
    pub fn ring(&self) -> &Ring
        ensures { result.now ≡ self.now.ring }
    {
        &self.fusion
    }

    /// The gauge entries, in the order in which they were stated.
    pub fn gauge(&self) -> &[GaugeEntry]
        ensures entries { result.now ≡ self.now.gauge }
        ensures valid { IsGauge self.now.ring self.now.gauge }
    {
        &self.entries
    }
}

/// A place of the problem file that has not its form. Products and gauge entries are numbered from 0.
#[derive(Clone, Copy, Debug, Drop, PartialEq)]
pub enum Place {
    /// The whole is no object.
    Top,
    /// `labels` is missing or no whole number.
    Labels,
    /// `products` is missing or no array.
    Products,
    /// A product is no array of three whole numbers.
    Product(u64),
    /// `gauge` is there and no array.
    Gauge,
    /// A gauge entry is no object with exactly the members `symbol`, an array of `"F"` and six or of
    /// `"R"` and three whole numbers, and `value`, a text.
    GaugeEntry(u64),
    /// `name` is there and no text.
    Name,
    /// A member with another name is there.
    Member,
}

/// Why a text states no problem: the first of these, in their order.
#[derive(Clone, Copy, Debug, Drop, PartialEq, Error)]
pub enum ProblemFault {
    /// The bytes have no JSON reading.
    #[error("NotJson")]
    NotJson,
    /// A place of the file has not its form: the first such, in the order of `Place`.
    #[error("Shape")]
    Shape(Place),
    /// The products state no ring. It is never the ring's own `OutOfMemory`.
    #[error("Ring")]
    Ring(RingFault),
    /// The value of this gauge entry, the first such, is not the decimal text of a whole number of
    /// absolute value at most `2^127-1`, without leading zeros and without `-0`.
    #[error("GaugeNumber")]
    GaugeNumber { entry: u64 },
    /// The symbol of this gauge entry, the first such, is no unknown of the ring.
    #[error("GaugeSymbol")]
    GaugeSymbol { entry: u64 },
    /// An allocation failed.
    #[error("OutOfMemory")]
    OutOfMemory,
}

impl From<AllocError> for ProblemFault {
    ghost use Rattle.std.specs.Prelude.{◌≡◌};
    ghost use Rattle.ring_file.specs.declared.problem.ProblemFault.TheVariants.{OutOfMemory};

    ghost from_gives = { λ _ e. e ≡ OutOfMemory };

    fn from(_: AllocError) -> ProblemFault {
        ProblemFault::OutOfMemory
    }
}

impl<T: Drop> From<AllocFailed<T>> for ProblemFault {
    ghost use Rattle.std.specs.Prelude.{◌≡◌};
    ghost use Rattle.ring_file.specs.declared.problem.ProblemFault.TheVariants.{OutOfMemory};

    ghost from_gives = { λ _ e. e ≡ OutOfMemory };

    fn from(_: AllocFailed<T>) -> ProblemFault {
        ProblemFault::OutOfMemory
    }
}
