//! A sum of contributions.
ghost use Rattle.std.specs.Prelude.{◌≡◌, ◌≤◌, unsigned_abs};

use crate::weighing::Sum;
use monomial::Monomial;

/// A sum of contributions to one monomial, with that of their absolute values. A weight above the limit stands for all those.
#[derive(Drop)]
pub struct Share {
    pub monomial: Monomial,
    pub sum: i128,
    pub weight: u128,
    ghost within: { unsigned_abs sum ≤ weight },
}

impl Share {
    /// The sum without its monomial.
    pub fn total(&self) -> Sum
        ensures value { result.value ≡ self.now.sum }
        ensures weight { result.weight ≡ self.now.weight }
    {
        Sum {
            value: self.sum,
            weight: self.weight,
        }
    }
}
