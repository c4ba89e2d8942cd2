//! Lists of powers, which take little room where the powers are few.
ghost use Rattle.std.specs.Prelude.{◌≡◌, ◌≢◌, ◌<◌, ◌≤◌, ◌/◌, ◌%◌, ℕ, ◌+◌, List, [], ◌∷◌, ◌++◌, IfOk, OnOk, IfSome, MatchOption, MatchResult, map, length, slice_index_or};
ghost use Rattle.std.specs.declared.option.Option.TheVariants.{None, Some};
ghost use Rattle.monomial.specs.Monomials.{power_cmp, monomial_cmp, exponent, lowered, IsProductOf, IsFaultOf};
ghost use Rattle.monomial.specs.Layouts.{IsWordIn};
ghost use Rattle.monomial.specs.Readings.{left_powers, form_powers};
ghost use Rattle.monomial.specs.Keys.{power_of};

use crate::form::Form;
use crate::keys::{FEW, Key, divide_keys, listed, multiply_keys, order_of_keys, same_keys};
use crate::laid::Laid;
use crate::layout::Layout;
use crate::reading::PowersLeft;
use crate::{MonoFault, exponent_in, product, quotient};
use arrayvec::ArrayVec;
use std::alloc::{AllocError, Global};
use std::cmp::Ordering;
use std::marker::Model;

// How powers are stored.
#[derive(Drop)]
enum Stored {
    // Powers of a layout's variables, with all exponents in one word.
    Word(Laid),
    // At most eight powers of variables below 65,536.
    Few(ArrayVec<Key, 8>),
    // Any powers.
    Many(Vec<(u32, u16)>),
}

/// A list of powers `(variable, exponent)`.
#[derive(Drop)]
pub struct Powers {
    stored: Stored,
    alloc: Global,
}

impl Model for Powers {
    ghost use Rattle.std.specs.Prelude.{List, ℕ};
    ghost use Rattle.monomial.specs.Stored.{stored_powers};

    ghost Value = { List (ℕ × ℕ) };

    ghost view = { λ p. stored_powers p.stored };
}

impl Powers {
    /// No powers.
    pub fn new(alloc: Global) -> Powers
        ensures { result ≡ [] }
    {
        Powers {
            stored: Stored::Few(ArrayVec::new()),
            alloc,
        }
    }

    /// The powers of a list.
    pub fn of_list(alloc: Global, powers: Vec<(u32, u16)>) -> Powers
        ensures { result ≡ powers.items }
    {
        Powers {
            stored: Stored::Many(powers),
            alloc,
        }
    }

    /// The powers of keys.
    #[inline(always)]
    pub fn of_keys(alloc: Global, keys: ArrayVec<Key, 8>) -> Powers
        ensures { result ≡ map power_of keys.items }
    {
        Powers {
            stored: Stored::Few(keys),
            alloc,
        }
    }

    /// The powers of a word.
    pub fn of_word(alloc: Global, laid: Laid) -> Powers
        ensures { result ≡ laid }
    {
        Powers {
            stored: Stored::Word(laid),
            alloc,
        }
    }

    /// The powers as they are stored.
    #[inline(always)]
    pub fn form(&self) -> Form<'_>
        ensures { form_powers result ≡ self.now }
    {
        match &self.stored {
            Stored::Word(laid) => laid.form(),
            _ => Form::Powers(self.powers()),
        }
    }

    /// The word in a layout, where that is stored and no exponent is above 32,767.
    #[inline(always)]
    pub fn word_in(&self, layout: &Layout) -> Option<u128>
        ensures { IfSome result (IsWordIn layout.now self.now) }
    {
        match &self.stored {
            Stored::Word(laid) => laid.word_in(layout),
            _ => None,
        }
    }

    /// The powers that are left to read, which are all.
    #[inline(always)]
    pub fn powers(&self) -> PowersLeft<'_>
        ensures { left_powers result ≡ self.now }
    {
        match &self.stored {
            Stored::Word(laid) => PowersLeft::of_word(laid.keys()),
            Stored::Few(keys) => PowersLeft::of_keys(keys.as_slice()),
            Stored::Many(powers) => PowersLeft::of_list(powers),
        }
    }

    /// The exponent of a variable.
    pub fn exponent(&self, var: u32) -> u32
        ensures { result ≡ exponent self.now var }
    {
        match &self.stored {
            Stored::Word(laid) => laid.exponent(var),
            _ => exponent_in(self, var),
        }
    }

    /// The allocator.
    pub fn allocator(&self) -> Global {
        self.alloc
    }

    /// The keys of both, if both are stored so, and together they are at most eight.
    #[inline(always)]
    pub fn few_keys<'a>(&'a self, other: &'a Powers) -> Option<(&'a [Key], &'a [Key])>
        ensures { IfSome result (λ k. (length k.0.now + length k.1.now ≤ 8) × (map power_of k.0.now ≡ self.now) × (map power_of k.1.now ≡ other.now)) }
    {
        if let (Stored::Few(first), Stored::Few(second)) = (&self.stored, &other.stored) {
            if first.len() + second.len() <= FEW {
                return Some((first.as_slice(), second.as_slice()));
            }
        }
        None
    }

    /// The number of powers.
    pub fn len(&self) -> usize
        ensures { result ≡ length self.now }
    {
        match &self.stored {
            Stored::Word(laid) => laid.keys().len(),
            Stored::Few(keys) => keys.len(),
            Stored::Many(powers) => powers.len(),
        }
    }

    /// The power at a place.
    pub fn power_at(&self, place: usize) -> (u32, u16)
        requires { place < length self.now }
        ensures value { result ≡ slice_index_or self.now place (0, 0) }
        ensures bound { result.1 ≤ 65535 }
    {
        match &self.stored {
            Stored::Word(laid) => laid.keys().as_slice()[place].power(),
            Stored::Few(keys) => keys.as_slice()[place].power(),
            Stored::Many(powers) => small(powers[place]),
        }
    }

    /// Appends a power. It fails only where no memory is left.
    pub fn push(&mut self, power: (u32, u16)) -> Result<(), AllocError>
        ensures { OnOk result (self.new ≡ self.old ++ power ∷ []) }
    {
        match &mut self.stored {
            Stored::Word(laid) => {
                let keys = laid.keys();
                let mut powers = listed(self.alloc, keys.as_slice())?;
                powers.push(power)?;
                self.stored = Stored::Many(powers);
            }
            Stored::Few(keys) => match Key::of(power) {
                Some(key) if !keys.is_full() => keys.push(key),
                _ => {
                    let mut powers = listed(self.alloc, keys.as_slice())?;
                    powers.push(power)?;
                    self.stored = Stored::Many(powers);
                }
            },
            Stored::Many(powers) => powers.push(power)?,
        }
        Ok(())
    }

    /// The same powers. It fails only where no memory is left.
    pub fn copy(&self) -> Result<Powers, AllocError>
        ensures { IfOk result (λ p. p ≡ self.now) }
    {
        let stored = match &self.stored {
            Stored::Word(laid) => Stored::Word(laid.copy()),
            Stored::Few(keys) => Stored::Few(same_keys(keys.as_slice())),
            Stored::Many(powers) => Stored::Many(Vec::from_slice(self.alloc, powers)?),
        };
        Ok(Powers {
            stored,
            alloc: self.alloc,
        })
    }

    /// The product. `Degree` comes where an exponent is above 65,535, with the greatest such variable.
    pub fn times(&self, other: &Powers) -> Result<Powers, MonoFault>
        ensures { MatchResult result (IsProductOf self.now other.now) (IsFaultOf self.now other.now) }
    {
        match (&self.stored, &other.stored) {
            (Stored::Few(first), Stored::Few(second)) => {
                self.times_by_keys(other, first.as_slice(), second.as_slice())
            }
            (Stored::Word(first), Stored::Few(second)) => {
                let first = first.keys();
                self.times_by_keys(other, first.as_slice(), second.as_slice())
            }
            (Stored::Few(first), Stored::Word(second)) => {
                let second = second.keys();
                self.times_by_keys(other, first.as_slice(), second.as_slice())
            }
            (Stored::Word(first), Stored::Word(second)) => {
                let first = first.keys();
                let second = second.keys();
                self.times_by_keys(other, first.as_slice(), second.as_slice())
            }
            _ => product(self, other),
        }
    }

    /// The powers of a quotient: each exponent less that of the divisor. It fails only where no memory is left.
    pub fn over(&self, divisor: &Powers) -> Result<Powers, AllocError>
        ensures { IfOk result (λ p. p ≡ lowered self.now divisor.now) }
    {
        if let (Stored::Few(keys), Stored::Few(others)) = (&self.stored, &divisor.stored) {
            let left = divide_keys(keys.as_slice(), others.as_slice());
            return Ok(Powers::of_keys(self.alloc, left));
        }
        quotient(self, divisor)
    }

    // The product of two lists of powers, whose keys these are.
    fn times_by_keys(
        &self,
        other: &Powers,
        first: &[Key],
        second: &[Key],
    ) -> Result<Powers, MonoFault>
        requires few_first { length first.now ≤ 8 }
        requires few_second { length second.now ≤ 8 }
        requires first { map power_of first.now ≡ self.now }
        requires second { map power_of second.now ≡ other.now }
        ensures { MatchResult result (IsProductOf self.now other.now) (IsFaultOf self.now other.now) }
    {
        let mut product: ArrayVec<Key, 16> = ArrayVec::new();
        if let Some(var) = multiply_keys(first, second, &mut product) {
            return Err(MonoFault::Degree { var });
        }
        if product.len() > FEW {
            let powers = listed(self.alloc, product.as_slice())?;
            return Ok(Powers::of_list(self.alloc, powers));
        }
        Ok(Powers::of_keys(self.alloc, same_keys(product.as_slice())))
    }

    /// The lexicographic order, in which powers are ordered by their variables, then by their exponents.
    #[inline(always)]
    pub fn order(&self, other: &Powers) -> Ordering
        ensures { result ≡ monomial_cmp self.now other.now }
    {
        if let (Stored::Few(first), Stored::Few(second)) = (&self.stored, &other.stored) {
            return order_of_keys(first.as_slice(), second.as_slice());
        }
        self.order_of_any(other)
    }

    // The lexicographic order, where one list at least is not stored as keys.
    #[inline(never)]
    fn order_of_any(&self, other: &Powers) -> Ordering
        ensures { result ≡ monomial_cmp self.now other.now }
    {
        match (&self.stored, &other.stored) {
            (Stored::Word(first), Stored::Word(second)) => match first.order(second) {
                Some(order) => order,
                None => self.order_by_power(other),
            },
            _ => self.order_by_power(other),
        }
    }

    // The lexicographic order, power by power.
    fn order_by_power(&self, other: &Powers) -> Ordering
        ensures { result ≡ monomial_cmp self.now other.now }
    {
        let mut i = 0;
        'powers: while i < self.len() && i < other.len() {
            match self.power_at(i).cmp(&other.power_at(i)) {
                Ordering::Less => return Ordering::Less,
                Ordering::Equal => i += 1,
                Ordering::Greater => return Ordering::Greater,
            }
        }
        self.len().cmp(&other.len())
    }
}

/// A power, whose exponent fits its type.
pub fn small(power: (u32, u16)) -> (u32, u16)
    ensures same { result ≡ power }
    ensures bound { power.1 ≤ 65535 }
{
    power
}
