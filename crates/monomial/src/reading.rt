//! Reading the powers of a monomial one after the other.
ghost use Rattle.std.specs.Prelude.{◌≡◌, ℕ, List, map, IfOk};
ghost use Rattle.std.specs.Iterator.{YieldsFirst, item_count};
ghost use Rattle.monomial.specs.Keys.{power_of};
ghost use Rattle.monomial.specs.Readings.{left_powers};

use crate::keys::{Key, key_at, same_keys};
use crate::powers::Powers;
use arrayvec::ArrayVec;
use std::alloc::{AllocError, Global};

// The powers that are left, by how they are stored.
#[derive(Drop)]
enum Left<'a> {
    // The keys of a word, from a place on.
    Word {
        keys: ArrayVec<Key, 8>,
        place: usize,
    },
    Few(&'a [Key]),
    Many(&'a [(u32, u16)]),
}

/// The powers `(variable, exponent)` of a monomial that are left to read, from the greatest variable down.
#[derive(Drop)]
pub struct PowersLeft<'a> {
    left: Left<'a>,
}

impl<'a> PowersLeft<'a> {
    /// The powers of a word, whose keys these are.
    #[inline(always)]
    pub(crate) fn of_word(keys: ArrayVec<Key, 8>) -> PowersLeft<'a>
        ensures { left_powers result ≡ map power_of keys.items }
    {
        PowersLeft {
            left: Left::Word { keys, place: 0 },
        }
    }

    /// The powers of keys.
    #[inline(always)]
    pub(crate) fn of_keys(keys: &'a [Key]) -> PowersLeft<'a>
        ensures { left_powers result ≡ map power_of keys.now }
    {
        PowersLeft {
            left: Left::Few(keys),
        }
    }

    /// The powers of a list.
    #[inline(always)]
    pub(crate) fn of_list(powers: &'a [(u32, u16)]) -> PowersLeft<'a>
        ensures { left_powers result ≡ powers.now }
    {
        PowersLeft {
            left: Left::Many(powers),
        }
    }

    // The powers that are left, not as a word. It fails only where no memory is left.
    pub(crate) fn stored(self, alloc: Global) -> Result<Powers, AllocError>
        ensures { IfOk result (λ p. p ≡ left_powers self.entry) }
    {
        if let Left::Word { keys, place } = &self.left {
            if *place == 0 {
                return Ok(Powers::of_keys(alloc, same_keys(keys.as_slice())));
            }
        }
        pushed(alloc, self)
    }
}

impl<'a> Iterator for PowersLeft<'a> {
    type Item = (u32, u16);

    ghost next_gives = { YieldsFirst left_powers };

    ghost remaining = { item_count left_powers };

    #[inline(always)]
    fn next(&mut self) -> Option<(u32, u16)> {
        match &mut self.left {
            Left::Word { keys, place } => {
                if *place >= keys.len() {
                    return None;
                }
                let key = key_at(keys.as_slice(), *place);
                *place += 1;
                Some(key.power())
            }
            Left::Few(keys) => {
                let (first, others) = keys.split_first()?;
                *keys = others;
                Some(first.power())
            }
            Left::Many(powers) => {
                let (first, others) = powers.split_first()?;
                *powers = others;
                Some(*first)
            }
        }
    }
}

// The powers that are left, one after the other.
fn pushed(alloc: Global, mut left: PowersLeft<'_>) -> Result<Powers, AllocError>
    ensures { IfOk result (λ p. p ≡ left_powers left.entry) }
{
    let mut powers = Powers::new(alloc);
    'powers: while let Some(power) = left.next() {
        powers.push(power)?;
    }
    Ok(powers)
}
