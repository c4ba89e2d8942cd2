//! Sums of contributions to one monomial.
ghost use Rattle.std.specs.Prelude.{◌≤◌, ◌+◌, ◌+ℤ◌, unsigned_abs};
ghost use Rattle.sparse_poly.specs.Standing.{Agree};

/// A sum of contributions, with that of their absolute values. A weight above the limit stands for all those.
#[derive(Clone, Copy)]
pub struct Sum {
    pub value: i128,
    pub weight: u128,
    ghost within: { unsigned_abs value ≤ weight },
}

/// Two sums of contributions as one.
pub fn joined_sum(x: Sum, y: Sum) -> Sum
    ensures { Agree result.weight result.value (x.weight + y.weight) (x.value +ℤ y.value) }
{
    let weight = x.weight.saturating_add(y.weight);
    if weight > i128::MAX as u128 {
        return Sum {
            value: 0,
            weight: u128::MAX,
        };
    }
    Sum {
        value: x.value + y.value,
        weight,
    }
}
