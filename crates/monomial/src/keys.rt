//! Powers in one word each, and lists of at most eight of them.
ghost use Rattle.std.specs.Prelude.{◌≡◌, ◌≢◌, ◌<◌, ◌≤◌, ◌/◌, ◌%◌, ℕ, ◌+◌, ◌-◌, List, [], ◌∷◌, ◌++◌, IfOk, OnOk, MatchOption, map, length, slice_index_or};
ghost use Rattle.monomial.specs.Keys.{power_of};
ghost use Rattle.std.specs.declared.option.Option.TheVariants.{Some};
ghost use Rattle.monomial.specs.Monomials.{exponent, lowered, monomial_cmp, monomial_times, too_high, IsProductOf};

use arrayvec::ArrayVec;
use std::alloc::{AllocError, Global};
use std::cmp::Ordering;

/// The number of powers that are kept in the value itself.
pub const FEW: usize = 8;

/// A power of a variable below 65,536 in one word: the variable times 65,536, and the exponent. Keys are ordered by
/// their variables, then by their exponents.
#[derive(Clone, Copy, Default, Eq, Ord, PartialEq, PartialOrd)]
pub struct Key {
    word: u32,
}

impl Key {
    /// The key of a power, where its variable is below 65,536.
    pub fn of(power: (u32, u16)) -> Option<Key>
        ensures { MatchOption result (65536 ≤ power.0) (λ k. power_of k ≡ power) }
    {
        if power.0 < 65536 {
            Some(Key {
                word: power.0 * 65536 + u32::from(power.1),
            })
        } else {
            None
        }
    }

    /// The key of a power whose variable has sixteen bits.
    #[inline(always)]
    pub fn of_lanes(var: u16, exp: u16) -> Key
        ensures { power_of result ≡ (var, exp) }
    {
        Key {
            word: u32::from(var) * 65536 + u32::from(exp),
        }
    }

    /// The power of this key.
    pub fn power(self) -> (u32, u16)
        ensures value { result ≡ power_of self }
        ensures bound { result.1 ≤ 65535 }
    {
        (self.word / 65536, (self.word % 65536) as u16)
    }

    // The variable.
    fn variable(self) -> u32
        ensures { result ≡ (power_of self).0 }
    {
        self.word / 65536
    }

    // The exponent.
    fn exponent(self) -> u32
        ensures { result ≡ (power_of self).1 }
    {
        self.word % 65536
    }

    // The power with an exponent that is less by a number below it.
    fn lowered(self, less: u32) -> Key
        requires { less < (power_of self).1 }
        ensures { power_of result ≡ ((power_of self).0, (power_of self).1 - less) }
    {
        Key {
            word: self.word - less,
        }
    }

    // The power with both exponents added up, where that is at most 65,535.
    fn times(self, other: Key) -> Option<Key>
        ensures { MatchOption result (65535 < (power_of self).1 + (power_of other).1) (λ k. power_of k ≡ ((power_of self).0, (power_of self).1 + (power_of other).1)) }
    {
        let exponent = other.word % 65536;
        if self.word % 65536 + exponent > 65535 {
            return None;
        }
        Some(Key {
            word: self.word + exponent,
        })
    }
}

/// Multiplies two lists of keys into an empty list that has room for all of them. Where an exponent would be above 65,535, the greatest such variable is the answer.
#[inline(always)]
pub fn multiply_keys<const ROOM: usize>(
    first: &[Key],
    second: &[Key],
    product: &mut ArrayVec<Key, ROOM>,
) -> Option<u32>
    requires empty { product.old.items ≡ [] }
    requires room { length first.now + length second.now ≤ ROOM }
    ensures { MatchOption result (IsProductOf (map power_of first.now) (map power_of second.now) (map power_of product.new.items)) (λ v. too_high (monomial_times (map power_of first.now) (map power_of second.now)) ≡ Some v) }
{
    let mut i = 0;
    let mut j = 0;
    'both: while i < first.len() && j < second.len() {
        let x = key_at(first, i);
        let y = key_at(second, j);
        if x.variable() < y.variable() {
            product.push(y);
            j += 1;
        } else if y.variable() < x.variable() {
            product.push(x);
            i += 1;
        } else {
            let Some(key) = x.times(y) else {
                return Some(x.variable());
            };
            product.push(key);
            i += 1;
            j += 1;
        }
    }
    'left: while i < first.len() {
        product.push(key_at(first, i));
        i += 1;
    }
    'right: while j < second.len() {
        product.push(key_at(second, j));
        j += 1;
    }
    None
}

/// The keys of a quotient: each exponent less that of the divisor, where that is more than nothing.
#[inline(always)]
pub fn divide_keys(keys: &[Key], divisor: &[Key]) -> ArrayVec<Key, 8>
    requires { length keys.now ≤ 8 }
    ensures { map power_of result.items ≡ lowered (map power_of keys.now) (map power_of divisor.now) }
{
    let mut quotient = ArrayVec::new();
    for key in keys {
        let less = exponent_in_keys(divisor, key.variable());
        if key.exponent() <= less {
            continue;
        }
        quotient.push(key.lowered(less));
    }
    quotient
}

// The exponent of a variable in a list of keys, which is 0 where it does not occur.
fn exponent_in_keys(keys: &[Key], var: u32) -> u32
    ensures { result ≡ exponent (map power_of keys.now) var }
{
    for key in keys {
        if key.variable() == var {
            return key.exponent();
        }
    }
    0
}

/// The lexicographic order of two lists of keys.
#[inline(always)]
pub fn order_of_keys(first: &[Key], second: &[Key]) -> Ordering
    ensures { result ≡ monomial_cmp (map power_of first.now) (map power_of second.now) }
{
    let mut i = 0;
    'keys: while i < first.len() && i < second.len() {
        let x = first[i].word;
        let y = second[i].word;
        if x != y {
            return x.cmp(&y);
        }
        i += 1;
    }
    first.len().cmp(&second.len())
}

/// The key at a place.
#[inline(always)]
pub fn key_at(keys: &[Key], place: usize) -> Key
    requires { place < length keys.now }
    ensures { power_of result ≡ slice_index_or (map power_of keys.now) place (0, 0) }
{
    keys[place]
}

/// The powers of some keys.
pub fn listed(alloc: Global, keys: &[Key]) -> Result<Vec<(u32, u16)>, AllocError>
    ensures { IfOk result (λ v. v.items ≡ map power_of keys.now) }
{
    let mut powers = Vec::with_capacity(alloc, 2 * FEW)?;
    for key in keys {
        powers.push(key.power())?;
    }
    Ok(powers)
}

/// The same keys.
pub fn same_keys(keys: &[Key]) -> ArrayVec<Key, 8>
    requires { length keys.now ≤ 8 }
    ensures { result.items ≡ keys.now }
{
    let mut same = ArrayVec::new();
    for key in keys {
        same.push(*key);
    }
    same
}
