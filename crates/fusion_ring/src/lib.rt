//! Fusion rings without multiplicities.
#![tactic(auto)]

ghost use Rattle.std.specs.Prelude.{◌≡◌, ◌<◌, IfOk, MatchResult};
ghost use Rattle.fusion_ring.specs.Fusion.{channel};
ghost use Rattle.fusion_ring.specs.Rings.{IsDual, IsSmallRing};
ghost use Rattle.fusion_ring.specs.Faults.{IsRingOf, IsRingFault};

mod laws;
mod products;
mod table;

pub use laws::{channel_law, ring_answer_law};
use products::{first_outside, least_repeat, least_unit_fault};
use std::alloc::{AllocError, Global};
use std::marker::Model;
use table::Table;
use thiserror::Error;

const MAX_LABELS: u64 = 12;

/// The product of the labels `a` and `b` has the channel `c`.
#[derive(Clone, Copy, Debug, PartialEq)]
pub struct Triple {
    pub a: u64,
    pub b: u64,
    pub c: u64,
}

/// Why a list of triples states no ring: the first rule that fails, in the order of the variants.
#[derive(Clone, Copy, Debug, Drop, PartialEq, Error)]
pub enum RingFault {
    /// The number of labels is 0 or above 12.
    #[error("LabelCount")]
    LabelCount { labels: u64 },
    /// The triple at `index`, the least such, has a number that is not below the number of labels.
    #[error("LabelRange")]
    LabelRange { index: u64 },
    /// This triple, the least such, is listed twice or more.
    #[error("Multiplicity")]
    Multiplicity { a: u8, b: u8, c: u8 },
    /// This listed triple, the least such, has a = 0 and another c than b, or b = 0 and another c than a.
    #[error("UnitFault")]
    UnitFault { a: u8, b: u8, c: u8 },
    /// The label a, the least such, has not exactly one b with N(a,b,0) = 1, or has N(b,a,0) = 0 for it.
    #[error("DualFault")]
    DualFault { a: u8 },
    /// The least triple with N(a,b,c) other than N(b,a,c).
    #[error("NotCommutative")]
    NotCommutative { a: u8, b: u8, c: u8 },
    /// The least four labels at which the equation of associativity fails.
    #[error("NotAssociative")]
    NotAssociative { a: u8, b: u8, c: u8, d: u8 },
    /// An allocation failed.
    #[error("OutOfMemory")]
    OutOfMemory,
}

impl From<AllocError> for RingFault {
    ghost use Rattle.std.specs.Prelude.{◌≡◌};
    ghost use Rattle.fusion_ring.specs.declared.RingFault.TheVariants.{OutOfMemory};

    ghost from_gives = { λ _ e. e ≡ OutOfMemory };

    fn from(_: AllocError) -> RingFault {
        RingFault::OutOfMemory
    }
}

/// A fusion ring without multiplicities: labels 0, 1, .. and numbers N(a,b,c) that are 0 or 1.
///
/// It has 1 to 12 labels. The label 0 is its unit, each label has one dual, and its product is
/// commutative and associative.
#[derive(Drop)]
pub struct Ring {
    table: Table,
}

impl Model for Ring {
    ghost use Rattle.fusion_ring.specs.Fusion.{Fusion};
    ghost use Rattle.fusion_ring.specs.Rings.{IsSmallRing};

    ghost Value = { Fusion };

    ghost view = { λ r. r.table };

    ghost invariant = { λ r. IsSmallRing r.table };
}

impl Ring {
    /// The ring of `labels` labels with N(a,b,c) = 1 for the listed triples and for the products
    /// of the unit, which need not be listed.
    ///
    /// A triple may be listed once, in any order. The fault is the first rule that fails, with the
    /// least index or the least labels, in lexicographic order, at which it fails.
    pub fn new(alloc: Global, labels: u64, products: &[Triple]) -> Result<Ring, RingFault>
        ensures { MatchResult result (IsRingOf labels products.now) (IsRingFault labels products.now) }
    {
        if labels == 0 || labels > MAX_LABELS {
            return Err(RingFault::LabelCount { labels });
        }
        if let Some(index) = first_outside(labels, products) {
            let index = index as u64;
            return Err(RingFault::LabelRange { index });
        }
        let labels = labels as u8;
        if let Some((a, b, c)) = least_repeat(alloc, labels, products)? {
            return Err(RingFault::Multiplicity { a, b, c });
        }
        if let Some((a, b, c)) = least_unit_fault(alloc, labels, products)? {
            return Err(RingFault::UnitFault { a, b, c });
        }
        let table = Table::stated(alloc, labels, products)?;
        if let Some(a) = table.least_without_dual(alloc)? {
            return Err(RingFault::DualFault { a });
        }
        if let Some((a, b, c)) = table.least_not_commutative(alloc)? {
            return Err(RingFault::NotCommutative { a, b, c });
        }
        if let Some((a, b, c, d)) = table.least_not_associative(alloc)? {
            return Err(RingFault::NotAssociative { a, b, c, d });
        }
        Ok(Ring { table })
    }

    /// The number of labels, 1 to 12.
    pub fn labels(&self) -> u8
        ensures count { result ≡ self.now.labels }
        ensures ring { IsSmallRing self.now }
    {
        self.table.labels()
    }

    /// Whether a, b and c are labels and the product of a and b has the channel c.
    pub fn channel(&self, a: u8, b: u8, c: u8) -> bool
        ensures { result ≡ channel self.now a b c }
    {
        self.table.channel(a, b, c)
    }

    /// The dual of a label: the only label b with N(a,b,0) = 1.
    pub fn dual(&self, a: u8) -> u8
        requires { a < self.now.labels }
        ensures { IsDual self.now a result }
    {
        for b in 0..self.labels() {
            if self.channel(a, b, 0) {
                return b;
            }
        }
        0
    }

    /// An equal ring.
    pub fn copy(&self) -> Result<Ring, AllocError>
        ensures { IfOk result (λ r. r ≡ self.now) }
    {
        Ok(Ring {
            table: self.table.copy()?,
        })
    }
}
