//! Monomials as words of exponents.
ghost use Rattle.std.specs.Prelude.{◌≡◌, ◌<◌, ◌≤◌, ℕ, List, IsTrue, IfSome, map, length, slice_index_or};
ghost use Rattle.monomial.specs.Monomials.{monomial_cmp, exponent};
ghost use Rattle.monomial.specs.Layouts.{lane, lanes, monomial_of, IsWordIn, IsLayout};
ghost use Rattle.monomial.specs.Readings.{form_powers};
ghost use Rattle.monomial.specs.Keys.{power_of};

use crate::form::Form;
use crate::keys::Key;
use crate::layout::{Layout, lane};
use arrayvec::ArrayVec;
use std::cmp::Ordering;
use std::marker::Model;

/// A monomial as the word of its exponents in a layout, seen as the list of its powers.
#[derive(Drop)]
pub struct Laid {
    layout: Layout,
    word: u128,
}

impl Model for Laid {
    ghost use Rattle.std.specs.Prelude.{List, ℕ, ◌<◌, ◌^◌};
    ghost use Rattle.monomial.specs.Layouts.{monomial_of, IsLayout};

    ghost Value = { List (ℕ × ℕ) };

    ghost view = { λ l. monomial_of l.layout l.word };

    ghost invariant = { λ l. IsLayout l.layout × (l.word < 2 ^ 128) };
}

impl Laid {
    /// The monomial of a word in a layout.
    pub fn new(layout: Layout, word: u128) -> Laid
        ensures { result ≡ monomial_of layout word }
    {
        let _variables = layout.word();
        Laid { layout, word }
    }

    /// The same monomial.
    pub fn copy(&self) -> Laid
        ensures { result ≡ self.now }
    {
        Laid {
            layout: self.layout.copy(),
            word: self.word,
        }
    }

    /// The word with its layout.
    pub fn form(&self) -> Form<'_>
        ensures { form_powers result ≡ self.now }
    {
        Form::Word {
            layout: &self.layout,
            word: self.word,
        }
    }

    /// The word in a layout, where that is the layout of this monomial and no exponent is above 32,767.
    pub fn word_in(&self, layout: &Layout) -> Option<u128>
        ensures { IfSome result (IsWordIn layout.now self.now) }
    {
        if self.layout.is_same(layout) && has_small_lanes(self.word) {
            Some(self.word)
        } else {
            None
        }
    }

    /// The order, where both have one layout.
    pub fn order(&self, other: &Laid) -> Option<Ordering>
        ensures { IfSome result (λ o. o ≡ monomial_cmp self.now other.now) }
    {
        if self.layout.is_same(&other.layout) {
            Some(self.word.cmp(&other.word))
        } else {
            None
        }
    }

    /// The exponent of a variable.
    pub fn exponent(&self, var: u32) -> u32
        ensures { result ≡ exponent self.now var }
    {
        let variables = self.layout.word();
        let word = self.word;
        for i in 0..8 {
            if u32::from(lane(variables, 7 - i)) == var {
                return u32::from(lane(word, 7 - i));
            }
        }
        0
    }

    /// The powers as keys.
    pub fn keys(&self) -> ArrayVec<Key, 8>
        ensures { map power_of result.items ≡ self.now }
    {
        let variables = self.layout.word();
        let word = self.word;
        let mut keys = ArrayVec::new();
        for i in 0..8 {
            let exp = lane(word, 7 - i);
            if exp > 0 {
                keys.push(Key::of_lanes(lane(variables, 7 - i), exp));
            }
        }
        keys
    }
}

// Whether no exponent of a word is above 32,767.
fn has_small_lanes(word: u128) -> bool
    ensures { IsTrue result → (n : ℕ) → n < 8 → lane word n ≤ 32767 }
{
    word & 0x8000_8000_8000_8000_8000_8000_8000_8000 == 0
}
