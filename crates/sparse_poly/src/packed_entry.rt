//! Terms and sums of contributions whose monomials are words.
ghost use Rattle.std.specs.Prelude.{◌≡◌, ◌<◌, ◌≤◌, ◌^◌, unsigned_abs};

use crate::weighing::Sum;

/// A term whose monomial is a word.
#[derive(Clone, Copy)]
pub struct PackedTerm {
    pub word: u128,
    pub coeff: i128,
    ghost small: { word < 2 ^ 127 },
}

impl Default for PackedTerm {
    /// The term zero.
    fn default() -> PackedTerm {
        PackedTerm { word: 0, coeff: 0 }
    }
}

/// A sum of contributions to the monomial of a word, with that of their absolute values. A weight above the limit stands for all those.
#[derive(Clone, Copy)]
pub struct PackedShare {
    pub word: u128,
    pub sum: i128,
    pub weight: u128,
    ghost within: { unsigned_abs sum ≤ weight },
}

impl PackedShare {
    /// The sum without its monomial.
    pub fn total(&self) -> Sum
        ensures value { result.value ≡ self.now.sum }
        ensures weight { result.weight ≡ self.now.weight }
    {
        Sum {
            value: self.sum,
            weight: self.weight,
        }
    }
}
