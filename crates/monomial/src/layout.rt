//! Eight variables, whose exponents stand in one word.
ghost use Rattle.std.specs.Prelude.{◌≡◌, ◌<◌, ◌≤◌, ℕ, IsTrue, ◌↔◌, MatchOption, length};
ghost use Rattle.monomial.specs.Layouts.{lane, lanes, AreFalling, IsLayout};

use std::marker::Model;

/// Eight variables below 65,536, seen as their list from the greatest down.
#[derive(Drop)]
pub struct Layout {
    // Sixteen bits a variable, the greatest highest.
    variables: u128,
}

impl Model for Layout {
    ghost use Rattle.std.specs.Prelude.{List, ℕ};
    ghost use Rattle.monomial.specs.Layouts.{lanes, IsLayout};

    ghost Value = { List ℕ };

    ghost view = { λ l. lanes 8 l.variables };

    ghost invariant = { λ l. IsLayout (lanes 8 l.variables) };
}

impl Layout {
    /// The layout of eight variables, and `None` exactly where they are not eight, do not fall strictly, or one is 65,536 or more.
    pub fn new(variables: &[u32]) -> Option<Layout>
        ensures { MatchOption result (IsLayout variables.now → ⊥) (λ l. l ≡ variables.now) }
    {
        if variables.len() != 8 {
            return None;
        }
        let mut word = 0u128;
        for variable in variables {
            if *variable > 65535 {
                return None;
            }
            word = word * 65536 + u128::from(*variable);
        }
        if are_falling(word) {
            Some(Layout { variables: word })
        } else {
            None
        }
    }

    /// The same layout.
    pub fn copy(&self) -> Layout
        ensures value { result ≡ self.now }
        ensures layout { IsLayout self.now }
    {
        Layout {
            variables: self.variables,
        }
    }

    // Whether the variables are the same.
    pub(crate) fn is_same(&self, other: &Layout) -> bool
        ensures { IsTrue result ↔ (self.now ≡ other.now) }
    {
        self.variables == other.variables
    }

    // The word of the variables, sixteen bits each.
    pub(crate) fn word(&self) -> u128
        ensures value { self.now ≡ lanes 8 result }
        ensures layout { IsLayout self.now }
    {
        self.variables
    }
}

/// Sixteen bits of a word, where places count from the lowest.
#[inline(always)]
pub fn lane(word: u128, place: usize) -> u16
    requires { place < 8 }
    ensures { result ≡ lane word place }
{
    ((word >> (16 * place)) % 65536) as u16
}

// Whether the variables of a word fall strictly.
fn are_falling(variables: u128) -> bool
    ensures { IsTrue result ↔ AreFalling (lanes 8 variables) }
{
    for place in 1..8 {
        if lane(variables, place) <= lane(variables, place - 1) {
            return false;
        }
    }
    true
}
