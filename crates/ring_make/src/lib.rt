//! Problems that are made from a number: those of the cyclic groups, and of the cubes over two elements.
#![tactic(auto)]

ghost use Rattle.std.specs.Prelude.{◌≡◌, ◌≤◌, ◌<◌, ◌+◌, ◌%◌, ◌^◌, [], IfOk};
ghost use Rattle.std.specs.Int.Bits.{bit_xor};
ghost use Rattle.fusion_ring.specs.Faults.{IsRingOf};
ghost use Rattle.ring_make.specs.Made.{IsCyclic, IsCube};

mod laws;

use fusion_ring::{Ring, Triple, channel_law};
use label_tuples::{all_singles, extended};
pub use laws::made_law;
use ring_file::Problem;
use std::alloc::{AllocError, Global};

/// The problem of the ring of `labels` labels with `a * b = (a + b) mod labels`, without gauge.
pub fn cyclic(alloc: Global, labels: u32) -> Result<Problem, AllocError>
    requires some { 1 ≤ labels }
    requires few { labels ≤ 12 }
    ensures { IfOk result (IsCyclic labels) }
{
    channel_law();
    let all = all_singles(alloc, labels as u8)?;
    let products = extended(alloc, &all, labels as u8, |a, b| Some(sum(labels, a, b)))?;
    problem_of(alloc, labels as u8, &products)
}

/// The problem of the ring of `2^dimension` labels with `a * b = a xor b`, without gauge.
pub fn cube(alloc: Global, dimension: u32) -> Result<Problem, AllocError>
    requires { dimension ≤ 3 }
    ensures { IfOk result (IsCube dimension) }
{
    channel_law();
    let labels = cube_labels(dimension);
    let all = all_singles(alloc, labels)?;
    let products = extended(alloc, &all, labels, |a, b| Some(difference(a, b)))?;
    problem_of(alloc, labels, &products)
}

// The product of two labels of a cyclic ring.
fn sum(labels: u32, a: u8, b: u8) -> Triple
    ensures { 0 < labels → result ≡ record { a = a; b = b; c = (a + b) % labels } }
{
    let sum = u32::from(a) + u32::from(b);
    let c = sum.checked_rem(labels).unwrap_or(0);
    Triple {
        a: u64::from(a),
        b: u64::from(b),
        c: u64::from(c),
    }
}

// How many labels a cube has.
fn cube_labels(dimension: u32) -> u8
    requires { dimension ≤ 3 }
    ensures { result ≡ 2 ^ dimension }
{
    1 << dimension
}

// The product of two labels of a cube.
fn difference(a: u8, b: u8) -> Triple
    ensures { result ≡ record { a = a; b = b; c = bit_xor a b } }
{
    Triple {
        a: u64::from(a),
        b: u64::from(b),
        c: u64::from(a ^ b),
    }
}

// The problem of the ring that the products state, without gauge.
fn problem_of(alloc: Global, labels: u8, products: &[Triple]) -> Result<Problem, AllocError>
    ensures { IfOk result (λ p. IsRingOf labels products.now p.ring × (p.gauge ≡ [])) }
{
    match Ring::new(alloc, u64::from(labels), products) {
        Ok(ring) => Ok(Problem::of(ring, Vec::new(alloc))),
        Err(_) => Err(AllocError),
    }
}
