//! What a line says.

use crate::version::Version;
use derive_lines::{Decision, Item, Line};
use leaf_cert::LeafEnd;
use sparse_poly::Poly;

/// What a line of a certificate's text says.
#[derive(Drop)]
pub enum Sentence {
    Title(Version),
    Unknowns(u32),
    Equations(u32),
    Budget(u32),
    /// The number of lines of the table.
    Lines(u64),
    Split { n: u64, by: Poly },
    Post,
    Close { n: u64, k: u64 },
    Leaf { n: u64, end: LeafEnd },
    Decided(Decision),
    Derived(Line),
    /// A line by its place in the table, from 0.
    Use(u64),
    End(Item),
    Equation(Poly),
    Done(u64),
}
