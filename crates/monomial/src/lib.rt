//! Products of powers of variables, in the order of the greatest variable.
#![tactic(auto)]

ghost use Rattle.std.specs.Prelude.{◌≡◌, ◌<◌, ◌≤◌, ℕ, ◌+◌, List, [], ◌∷◌, ◌++◌, IfOk, IfSome, MatchOption, MatchResult, IsTrue, ◌↔◌, length, slice_index_or};
ghost use Rattle.std.specs.declared.option.Option.TheVariants.{None, Some};
ghost use Rattle.monomial.specs.Monomials.{monomial_cmp, monomial_times, exponent, top, too_high, Divides, IsMonomial, IsProductOf, IsFaultOf, each_divides, lowered, without};
ghost use Rattle.monomial.specs.Layouts.{monomial_of, FitsLayout, IsWordIn};
ghost use Rattle.monomial.specs.Readings.{left_powers, form_powers};

mod form;
mod keys;
mod laid;
pub mod laws;
mod layout;
mod powers;
mod reading;

use arrayvec::ArrayVec;
pub use form::Form;
use keys::multiply_keys;
use laid::Laid;
pub use laws::{degree_law, exponents_law, order_law, top_law};
pub use layout::Layout;
use layout::lane;
use powers::{Powers, small};
pub use reading::PowersLeft;
use std::alloc::{AllocError, AllocFailed, Global};
use std::cmp::Ordering;
use std::marker::Model;

/// A product of powers of variables, seen as the list of its powers `(variable, exponent)` from the greatest variable down.
#[derive(Drop)]
pub struct Monomial {
    powers: Powers,
}

impl Model for Monomial {
    ghost use Rattle.std.specs.Prelude.{List, ℕ};
    ghost use Rattle.monomial.specs.Monomials.{IsMonomial};

    ghost Value = { List (ℕ × ℕ) };

    ghost view = { λ m. m.powers };

    ghost invariant = { λ m. IsMonomial m.powers };
}

/// Why a product is not made.
#[derive(Drop)]
pub enum MonoFault {
    /// The exponent of this variable would be above 65,535, and that of no greater one.
    Degree { var: u32 },
    /// No memory was left.
    OutOfMemory,
}

impl From<AllocError> for MonoFault {
    ghost use Rattle.std.specs.Prelude.{◌≡◌};
    ghost use Rattle.monomial.specs.declared.MonoFault.TheVariants.{OutOfMemory};

    ghost from_gives = { λ _ e. e ≡ OutOfMemory };

    fn from(_: AllocError) -> MonoFault {
        MonoFault::OutOfMemory
    }
}

impl<T: Drop> From<AllocFailed<T>> for MonoFault {
    ghost use Rattle.std.specs.Prelude.{◌≡◌};
    ghost use Rattle.monomial.specs.declared.MonoFault.TheVariants.{OutOfMemory};

    ghost from_gives = { λ _ e. e ≡ OutOfMemory };

    fn from(_: AllocFailed<T>) -> MonoFault {
        MonoFault::OutOfMemory
    }
}

impl Monomial {
    /// The monomial one, which has no variable.
    pub fn one(alloc: Global) -> Monomial
        ensures { result ≡ [] }
    {
        Monomial {
            powers: Powers::new(alloc),
        }
    }

    /// The power `var^exp`. It fails only where no memory is left.
    pub fn power(alloc: Global, var: u32, exp: u16) -> Result<Monomial, AllocError>
        requires { 1 ≤ exp }
        ensures { IfOk result (λ m. m ≡ (var, exp) ∷ []) }
    {
        let mut powers = Powers::new(alloc);
        powers.push((var, exp))?;
        Ok(Monomial { powers })
    }

    /// The monomial of a list of powers from the greatest variable down. It fails only where no memory is left.
    pub fn from_powers(alloc: Global, powers: &[(u32, u16)]) -> Result<Monomial, AllocError>
        requires { IsMonomial powers.now }
        ensures { IfOk result (λ m. m ≡ powers.now) }
    {
        let mut list = Powers::new(alloc);
        for power in powers {
            list.push(small(*power))?;
        }
        Ok(Monomial { powers: list })
    }

    /// An equal monomial. It fails only where no memory is left.
    pub fn copy(&self) -> Result<Monomial, AllocError>
        ensures { IfOk result (λ m. m ≡ self.now) }
    {
        Ok(Monomial {
            powers: self.powers.copy()?,
        })
    }

    /// The monomial whose exponents stand in a word in the places of a layout's variables.
    #[inline(always)]
    pub fn of_word(alloc: Global, layout: &Layout, word: u128) -> Monomial
        ensures { result ≡ monomial_of layout.now word }
    {
        Monomial {
            powers: Powers::of_word(alloc, Laid::new(layout.copy(), word)),
        }
    }

    /// The monomial of the powers that are left to read. It fails only where no memory is left.
    pub fn of_powers(alloc: Global, powers: PowersLeft<'_>) -> Result<Monomial, AllocError>
        requires { IsMonomial (left_powers powers) }
        ensures { IfOk result (λ m. m ≡ left_powers powers.entry) }
    {
        Ok(Monomial {
            powers: powers.stored(alloc)?,
        })
    }

    /// This monomial as it is stored.
    #[inline(always)]
    pub fn form(&self) -> Form<'_>
        ensures value { form_powers result ≡ self.now }
        ensures monomial { IsMonomial self.now }
    {
        self.powers.form()
    }

    /// The word of this monomial in a layout, and `None` exactly where it has a variable that the layout has not or an exponent above 32,767.
    #[inline(always)]
    pub fn word_in(&self, layout: &Layout) -> Option<u128>
        ensures { MatchOption result (FitsLayout layout.now self.now → ⊥) (IsWordIn layout.now self.now) }
    {
        match self.powers.word_in(layout) {
            Some(word) => Some(word),
            None => placed_word(self, layout),
        }
    }

    /// The powers `(variable, exponent)`, to be read from the greatest variable down.
    #[inline(always)]
    pub fn powers(&self) -> PowersLeft<'_>
        ensures { left_powers result ≡ self.now }
    {
        self.powers.powers()
    }

    /// The number of powers.
    pub fn len(&self) -> usize
        ensures value { result ≡ length self.now }
        ensures monomial { IsMonomial self.now }
    {
        self.powers.len()
    }

    /// The power `(variable, exponent)` at a place, where places count from the greatest variable down.
    pub fn power_at(&self, place: usize) -> (u32, u16)
        requires { place < length self.now }
        ensures value { result ≡ slice_index_or self.now place (0, 0) }
        ensures bound { result.1 ≤ 65535 }
    {
        self.powers.power_at(place)
    }

    /// The greatest variable, and `None` exactly for the monomial one.
    pub fn top(&self) -> Option<u32>
        ensures { result ≡ top self.now }
    {
        if self.len() == 0 {
            return None;
        }
        Some(self.power_at(0).0)
    }

    /// The exponent of a variable, which is 0 where it does not occur.
    pub fn exponent(&self, var: u32) -> u32
        ensures { result ≡ exponent self.now var }
    {
        self.powers.exponent(var)
    }

    /// The order of monomials: a is below b where, at the greatest variable in which their exponents differ, a has the smaller exponent.
    pub fn order(&self, other: &Monomial) -> Ordering
        ensures { result ≡ monomial_cmp self.now other.now }
    {
        self.powers.order(&other.powers)
    }

    /// Whether this monomial divides the other: no exponent is above that of the other.
    pub fn divides(&self, other: &Monomial) -> bool
        ensures { IsTrue result ↔ Divides self.now other.now }
    {
        divides_powers(&self.powers, &other.powers)
    }

    /// The product, whose exponents are the sums. `Degree` comes exactly where a sum is above 65,535, with the greatest such variable.
    #[inline(always)]
    pub fn times(&self, other: &Monomial) -> Result<Monomial, MonoFault>
        ensures { MatchResult result (IsProductOf self.now other.now) (IsFaultOf self.now other.now) }
    {
        let Some((first, second)) = self.powers.few_keys(&other.powers) else {
            return self.times_of_any(other);
        };
        let mut product = ArrayVec::new();
        if let Some(var) = multiply_keys(first, second, &mut product) {
            return Err(MonoFault::Degree { var });
        }
        Ok(Monomial {
            powers: Powers::of_keys(self.powers.allocator(), product),
        })
    }

    // The product, where it may have more than eight powers, or a monomial is not stored as keys.
    #[inline(never)]
    fn times_of_any(&self, other: &Monomial) -> Result<Monomial, MonoFault>
        ensures { MatchResult result (IsProductOf self.now other.now) (IsFaultOf self.now other.now) }
    {
        let powers = self.powers.times(&other.powers)?;
        Ok(Monomial { powers })
    }

    /// The monomial without a variable. It fails only where no memory is left.
    pub fn without(&self, var: u32) -> Result<Monomial, AllocError>
        ensures { IfOk result (λ m. m ≡ without var self.now) }
    {
        let powers = other_powers(&self.powers, var)?;
        Ok(Monomial { powers })
    }

    /// The quotient by a divisor: the monomial whose product with it is this one. It fails only where no memory is left.
    pub fn over(&self, divisor: &Monomial) -> Result<Monomial, AllocError>
        requires { Divides divisor.now self.now }
        ensures { IfOk result (λ m. monomial_times divisor.now m ≡ self.now) }
    {
        if let Form::Word { layout, .. } = self.form() {
            if let Some(monomial) = self.over_by_words(divisor, layout) {
                return Ok(monomial);
            }
        }
        if divisor.len() == 0 {
            return self.copy();
        }
        let powers = self.powers.over(&divisor.powers)?;
        Ok(Monomial { powers })
    }

    // The quotient by a divisor as a word of a layout, where both fit it.
    #[inline(never)]
    fn over_by_words(&self, divisor: &Monomial, layout: &Layout) -> Option<Monomial>
        requires { Divides divisor.now self.now }
        ensures { IfSome result (λ m. monomial_times divisor.now m ≡ self.now) }
    {
        let _powers = &divisor.powers;
        let word = self.word_in(layout)?;
        let less = divisor.word_in(layout)?;
        Some(Monomial::of_word(self.powers.allocator(), layout, word - less))
    }
}

// The word of a monomial in a layout, power by power.
fn placed_word(monomial: &Monomial, layout: &Layout) -> Option<u128>
    ensures { MatchOption result (FitsLayout layout.now monomial.now → ⊥) (IsWordIn layout.now monomial.now) }
{
    let _powers = monomial.len();
    let variables = layout.word();
    let mut left = monomial.powers();
    let mut power = left.next();
    let mut word = 0u128;
    let mut place = 8;
    'lanes: while place > 0 {
        place -= 1;
        word *= 65536;
        let Some((var, exp)) = power else {
            continue;
        };
        let variable = u32::from(lane(variables, place));
        if var < variable {
            continue;
        }
        if var > variable || exp > 32767 {
            return None;
        }
        word += u128::from(exp);
        power = left.next();
    }
    match power {
        Some(_) => None,
        None => Some(word),
    }
}

/// The exponent of a variable in a list of powers.
pub(crate) fn exponent_in(powers: &Powers, var: u32) -> u32
    ensures { result ≡ exponent powers.now var }
{
    let mut i = 0;
    'powers: while i < powers.len() {
        let power = powers.power_at(i);
        if power.0 == var {
            return u32::from(power.1);
        }
        i += 1;
    }
    0
}

// Whether each power of the divisor divides a list of powers.
fn divides_powers(divisor: &Powers, powers: &Powers) -> bool
    ensures { result ≡ each_divides divisor.now powers.now }
{
    let mut i = 0;
    'powers: while i < divisor.len() {
        let power = divisor.power_at(i);
        if exponent_in(powers, power.0) < u32::from(power.1) {
            return false;
        }
        i += 1;
    }
    true
}

// The powers of other variables.
fn other_powers(powers: &Powers, var: u32) -> Result<Powers, AllocError>
    ensures { IfOk result (λ v. v ≡ without var powers.now) }
{
    let mut left = Powers::new(powers.allocator());
    let mut i = 0;
    'powers: while i < powers.len() {
        let power = powers.power_at(i);
        if power.0 != var {
            left.push(power)?;
        }
        i += 1;
    }
    Ok(left)
}

// The powers of a quotient: each exponent less that of the divisor, power by power.
fn quotient(powers: &Powers, divisor: &Powers) -> Result<Powers, AllocError>
    ensures { IfOk result (λ v. v ≡ lowered powers.now divisor.now) }
{
    let mut left = Powers::new(powers.allocator());
    let mut i = 0;
    'powers: while i < powers.len() {
        let power = powers.power_at(i);
        let less = exponent_in(divisor, power.0);
        if less < u32::from(power.1) {
            left.push((power.0, (u32::from(power.1) - less) as u16))?;
        }
        i += 1;
    }
    Ok(left)
}

// The product of two lists of powers, of which one at least is stored as a list.
fn product(first: &Powers, second: &Powers) -> Result<Powers, MonoFault>
    ensures { MatchResult result (IsProductOf first.now second.now) (IsFaultOf first.now second.now) }
{
    let alloc = first.allocator();
    let mut powers = Vec::with_capacity(alloc, first.len().saturating_add(second.len()))?;
    let mut i = 0;
    let mut j = 0;
    'both: while i < first.len() && j < second.len() {
        let x = first.power_at(i);
        let y = second.power_at(j);
        match x.0.cmp(&y.0) {
            Ordering::Less => {
                powers.push(y)?;
                j += 1;
            }
            Ordering::Equal => {
                let sum = sum_of(x.1, y.1);
                if sum > 65535 {
                    return Err(MonoFault::Degree { var: x.0 });
                }
                powers.push((x.0, sum as u16))?;
                i += 1;
                j += 1;
            }
            Ordering::Greater => {
                powers.push(x)?;
                i += 1;
            }
        }
    }
    'left: while i < first.len() {
        powers.push(first.power_at(i))?;
        i += 1;
    }
    'right: while j < second.len() {
        powers.push(second.power_at(j))?;
        j += 1;
    }
    Ok(Powers::of_list(alloc, powers))
}

// The sum of two exponents.
fn sum_of(x: u16, y: u16) -> u32
    ensures { result ≡ x + y }
{
    x as u32 + y as u32
}
