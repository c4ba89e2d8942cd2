//! Polynomials in several variables with whole coefficients, seen as finite maps from monomials to coefficients.
#![tactic(auto)]

ghost use Rattle.std.specs.Prelude.{◌≡◌, ◌≢◌, ◌<◌, ◌≤◌, ℕ, ◌+◌, ℤ, pos, unsigned_abs, Bool, IsTrue, ◌↔◌, List, [], ◌∷◌, ◌++◌, IfOk, IfErr, MatchOption, MatchResult, IsSome};
ghost use Rattle.std.specs.List.{Contains};
ghost use Rattle.std.specs.declared.option.Option.TheVariants.{None, Some};
ghost use Rattle.sparse_poly.specs.declared.Term.{Term};
ghost use Rattle.sparse_poly.specs.Polynomials.{products, constant, variable};
ghost use Rattle.sparse_poly.specs.Contributions.{max_coeff, contributions, IsPoly, IsResult, IsFault, IsNoDegree};
ghost use Rattle.sparse_poly.specs.Order.{poly_cmp, term_cmp};
ghost use Rattle.sparse_poly.specs.Primitive.{DividesAll, IsPrimitivePart};
ghost use Rattle.sparse_poly.specs.Factors.{AllDivided, IsQuotient};
ghost use Rattle.sparse_poly.specs.Units.{IsStripped, IsOneOrMember};
ghost use Rattle.sparse_poly.specs.Clearing.{DividesOpenly, IsCleared, IsUnit};
ghost use Rattle.sparse_poly.specs.Reads.{degree_in, main_variable, coefficient_of_power};

mod clearing;
mod dividing;
mod entry;
mod falling;
mod hashing;
pub mod laws;
mod layout;
mod merging;
mod multiplying;
mod order;
mod owing;
mod packed_entry;
mod packing;
mod shared;
mod signs;
mod sources;
mod squeezing;
mod stripping;
mod weighing;

pub use clearing::is_in_form;
use dividing::{degrees_divide, ends_divide, quotient_by};
use falling::is_polynomial;
pub use laws::{
    clear_law, clearing_product_law, coefficients_law, combined_law, one_clearing_law, order_law,
    primitive_law, product_law, strip_law, subtraction_law, sum_law, unit_law, value_law,
};
use layout::{laid, without_layout};
use monomial::Monomial;
use multiplying::{added, combined, multiplied, summed};
use shared::SharedTerms;
use signs::values_divide;
use std::alloc::{AllocError, AllocFailed, Global};
use std::cmp::Ordering;
use std::marker::Model;
pub use stripping::contains;
use stripping::{content_of, quotients, terms_of_power, unit_monomial};

/// A monomial with its coefficient.
#[derive(Drop)]
pub struct Term {
    pub monomial: Monomial,
    pub coeff: i128,
}

/// A polynomial, seen as the list of its terms from the greatest monomial to the least. No coefficient is 0, and each has an absolute value of at most 2^127 - 1.
#[derive(Drop)]
pub struct Poly {
    terms: SharedTerms,
}

impl Model for Poly {
    ghost use Rattle.std.specs.Prelude.{List};
    ghost use Rattle.sparse_poly.specs.declared.Term.{Term};
    ghost use Rattle.sparse_poly.specs.Contributions.{IsPoly};

    ghost Value = { List Term };

    ghost view = { λ p. p.terms };

    ghost invariant = { λ p. IsPoly p.terms };
}

/// Why a sum or a product is not made.
#[derive(Drop)]
pub enum PolyFault {
    /// A contribution has an exponent above 65,535. This is the greatest such variable.
    Degree { var: u32 },
    /// The absolute values of all contributions to a monomial add up to more than 2^127 - 1. This is the greatest such monomial.
    Heavy { monomial: Monomial },
    /// No memory was left.
    OutOfMemory,
}

impl From<AllocError> for PolyFault {
    ghost use Rattle.std.specs.Prelude.{◌≡◌};
    ghost use Rattle.sparse_poly.specs.declared.PolyFault.TheVariants.{OutOfMemory};

    ghost from_gives = { λ _ e. e ≡ OutOfMemory };

    fn from(_: AllocError) -> PolyFault {
        PolyFault::OutOfMemory
    }
}

impl<T: Drop> From<AllocFailed<T>> for PolyFault {
    ghost use Rattle.std.specs.Prelude.{◌≡◌};
    ghost use Rattle.sparse_poly.specs.declared.PolyFault.TheVariants.{OutOfMemory};

    ghost from_gives = { λ _ e. e ≡ OutOfMemory };

    fn from(_: AllocFailed<T>) -> PolyFault {
        PolyFault::OutOfMemory
    }
}

/// A factor and a rest, whose product is the polynomial that was stripped or cleared.
#[derive(Drop)]
pub struct Stripped {
    pub factor: Poly,
    pub rest: Poly,
}

impl Poly {
    /// The polynomial zero, which has no terms.
    pub fn zero(alloc: Global) -> Poly
        ensures { result ≡ [] }
    {
        Poly {
            terms: SharedTerms::none(alloc),
        }
    }

    // The polynomial with these terms.
    fn of(alloc: Global, terms: Vec<Term>) -> Result<Poly, AllocError>
        requires { IsPoly terms.items }
        ensures { IfOk result (λ p. p ≡ terms.items) }
    {
        let terms = SharedTerms::of(alloc, terms)?;
        Ok(Poly { terms })
    }

    /// The constant polynomial of a number. It fails only where no memory is left.
    pub fn constant(alloc: Global, n: i128) -> Result<Poly, AllocError>
        requires { unsigned_abs n ≤ max_coeff }
        ensures { IfOk result (λ p. p ≡ constant n) }
    {
        let mut terms = Vec::new(alloc);
        if n != 0 {
            terms.push(Term {
                monomial: Monomial::one(alloc),
                coeff: n,
            })?;
        }
        Poly::of(alloc, terms)
    }

    /// The polynomial of a variable. It fails only where no memory is left.
    pub fn variable(alloc: Global, var: u32) -> Result<Poly, AllocError>
        ensures { IfOk result (λ p. p ≡ variable var) }
    {
        let monomial = Monomial::power(alloc, var, 1)?;
        let mut terms = Vec::new(alloc);
        terms.push(Term { monomial, coeff: 1 })?;
        Poly::of(alloc, terms)
    }

    /// An equal polynomial, which owns its terms together with this one. It fails only where they can't have one more owner.
    pub fn copy(&self) -> Result<Poly, AllocError>
        ensures { IfOk result (λ p. p ≡ self.now) }
    {
        let terms = self.terms.another_owner()?;
        Ok(Poly { terms })
    }

    /// The polynomial that these terms add up to. `Heavy` comes exactly where the absolute values of the coefficients of a monomial add up to
    /// more than 2^127 - 1, with the greatest such monomial. `Degree` never comes, since no monomial has an exponent above 65,535.
    pub fn from_terms(alloc: Global, terms: Vec<Term>) -> Result<Poly, PolyFault>
        ensures answer { MatchResult result (IsResult terms.items) (IsFault terms.items) }
        ensures degree { IfErr result IsNoDegree }
    {
        let terms = laid(alloc, terms);
        if is_polynomial(&terms) {
            return Ok(Poly::of(alloc, terms)?);
        }
        let terms = summed(alloc, terms)?;
        Ok(Poly::of(alloc, terms)?)
    }

    /// The terms, from the greatest monomial to the least.
    pub fn terms(&self) -> &[Term]
        ensures value { result.now ≡ self.now }
        ensures poly { IsPoly self.now }
    {
        self.terms.as_slice()
    }

    /// Whether this is the constant polynomial 1.
    pub fn is_one(&self) -> bool
        ensures { IsTrue result ↔ (self.now ≡ constant (pos 1)) }
    {
        matches!(self.constant_value(), Some(1))
    }

    /// Whether this is the polynomial zero.
    pub fn is_zero(&self) -> bool
        ensures { IsTrue result ↔ (self.now ≡ []) }
    {
        self.terms.as_slice().is_empty()
    }

    /// The combination `l*q - a*p`. A contribution is the product of one term of each factor, with its sign. `Degree` comes exactly where a
    /// contribution has an exponent above 65,535, with the greatest such variable. Otherwise `Heavy` comes exactly where the absolute values
    /// of all contributions to a monomial add up to more than 2^127 - 1, even where they cancel, with the greatest such monomial.
    pub fn combine(alloc: Global, l: &Poly, q: &Poly, a: &Poly, p: &Poly) -> Result<Poly, PolyFault>
        ensures { MatchResult result (IsResult (contributions l.now q.now a.now p.now)) (IsFault (contributions l.now q.now a.now p.now)) }
    {
        let terms = combined(alloc, l.terms(), q.terms(), a.terms(), p.terms())?;
        Ok(Poly::of(alloc, terms)?)
    }

    /// The product. Its contributions, `Degree` and `Heavy` are as for `combine`.
    pub fn times(&self, other: &Poly) -> Result<Poly, PolyFault>
        ensures { MatchResult result (IsResult (products self.now other.now)) (IsFault (products self.now other.now)) }
    {
        let alloc = self.terms.allocator();
        let terms = multiplied(alloc, self.terms(), other.terms())?;
        Ok(Poly::of(alloc, terms)?)
    }

    /// The sum. A contribution is a term of either summand, so `Heavy` comes exactly where the absolute values of the coefficients of a
    /// monomial add up to more than 2^127 - 1, with the greatest such monomial, and `Degree` never comes.
    pub fn plus(&self, other: &Poly) -> Result<Poly, PolyFault>
        ensures answer { MatchResult result (IsResult (self.now ++ other.now)) (IsFault (self.now ++ other.now)) }
        ensures degree { IfErr result IsNoDegree }
    {
        let alloc = self.terms.allocator();
        let terms = added(alloc, self.terms(), other.terms())?;
        Ok(Poly::of(alloc, terms)?)
    }

    /// The primitive part: the polynomial over its content, with a positive leading coefficient, and zero for zero. It fails only where no
    /// memory is left.
    pub fn primitive_part(&self) -> Result<Poly, AllocError>
        ensures { IfOk result (λ q. IsPrimitivePart self.now q) }
    {
        let terms = self.terms();
        let one = Monomial::one(self.terms.allocator());
        self.over(&one, content_of(terms))
    }

    // The polynomial over a monomial and a number that divide it. Over 1 it owns its terms together with this one.
    fn over(&self, monomial: &Monomial, divisor: i128) -> Result<Poly, AllocError>
        requires nonzero { divisor ≢ pos 0 }
        requires number { DividesAll (unsigned_abs divisor) self.now }
        requires monomials { AllDivided monomial.now self.now }
        ensures { IfOk result (λ p. IsQuotient self.now (record { monomial = monomial.now; coeff = divisor }) p) }
    {
        let terms = self.terms();
        let powers = monomial.len();
        if powers == 0 && divisor == 1 {
            return self.copy();
        }
        let alloc = self.terms.allocator();
        let rest = quotients(alloc, terms, monomial, divisor)?;
        Poly::of(alloc, rest)
    }

    /// The polynomial stripped under the units: made primitive, and then divided, as often as it divides, by each variable that is a member of
    /// the units. The quotient is the rest, and the factor is what was divided out, sign included. Zero has the factor 1. It fails only where
    /// no memory is left.
    pub fn strip(&self, units: &[Poly]) -> Result<Stripped, AllocError>
        ensures { IfOk result (λ s. IsStripped units.now self.now s.factor s.rest) }
    {
        let alloc = self.terms.allocator();
        let terms = self.terms();
        let content = content_of(terms);
        let monomial = unit_monomial(alloc, terms, units)?;
        let rest = self.over(&monomial, content)?;
        let mut factor = Vec::new(alloc);
        factor.push(Term {
            monomial,
            coeff: content,
        })?;
        Ok(Stripped {
            factor: Poly::of(alloc, factor)?,
            rest,
        })
    }

    /// The quotient by a polynomial that divides openly: `g` with `self = n*g`, where such a polynomial exists and the product `n*g` is neither
    /// of too high degree nor heavy, and `None` exactly otherwise. It fails only where no memory is left.
    pub fn quotient(&self, n: &Poly) -> Result<Option<Poly>, AllocError>
        requires { n.now ≢ [] }
        ensures { IfOk result (λ o. MatchOption o ((g : List Term) → DividesOpenly n.now self.now g → ⊥) (λ g. DividesOpenly n.now self.now g)) }
    {
        let whole = self.terms();
        let divisor = n.terms();
        if !ends_divide(whole, divisor)
            || !degrees_divide(whole, divisor)
            || !values_divide(whole, divisor)
        {
            return Ok(None);
        }
        let alloc = self.terms.allocator();
        let divisor = without_layout(alloc, divisor)?;
        let [leading, others @ ..] = divisor.as_slice() else {
            return Ok(None);
        };
        let Some(terms) = quotient_by(alloc, whole, leading, others)? else {
            return Ok(None);
        };
        let quotient = Poly::of(alloc, laid(alloc, terms))?;
        match quotient.times(n) {
            Ok(_) => Ok(Some(quotient)),
            Err(PolyFault::Degree { .. }) => Ok(None),
            Err(PolyFault::Heavy { .. }) => Ok(None),
            Err(PolyFault::OutOfMemory) => Err(AllocError),
        }
    }

    /// The polynomial cleared of the units: stripped, and then divided by the units in form, in their order, each as often as it divides openly
    /// and the products with the factor are not stopped. It fails only where no memory is left.
    pub fn clear(&self, units: &[Poly]) -> Result<Stripped, AllocError>
        ensures { IfOk result (λ s. IsCleared units.now self.now s.factor s.rest) }
    {
        let stripped = self.strip(units)?;
        stripped.cleared(units)
    }

    /// Whether this is a unit: the rest of its strip or of its clearing is the constant 1 or a member of the units. It fails only where no
    /// memory is left, and the constant 1 takes none.
    pub fn is_unit(&self, units: &[Poly]) -> Result<bool, AllocError>
        ensures { IfOk result (λ b. IsTrue b ↔ IsUnit units.now self.now) }
    {
        if self.is_one() {
            return Ok(true);
        }
        let _terms = self.terms();
        let stripped = self.strip(units)?;
        if is_one_or_member(units, &stripped.rest) {
            return Ok(true);
        }
        let cleared = stripped.cleared(units)?;
        Ok(is_one_or_member(units, &cleared.rest))
    }

    /// The coefficient of `var^exp`: the terms in which the variable has this exponent, without it. It fails only where no memory is left.
    pub fn coefficient_in(&self, var: u32, exp: u32) -> Result<Poly, AllocError>
        ensures { IfOk result (λ p. p ≡ coefficient_of_power var exp self.now) }
    {
        let alloc = self.terms.allocator();
        let terms = terms_of_power(alloc, self.terms(), var, exp)?;
        Poly::of(alloc, terms)
    }

    /// The order of polynomials: terms are compared from the greatest monomial down, first by monomial and then by coefficient, and a proper
    /// prefix is below the longer list. Zero is the least.
    pub fn order(&self, other: &Poly) -> Ordering
        ensures { result ≡ poly_cmp self.now other.now }
    {
        order_terms(self.terms.as_slice(), other.terms.as_slice())
    }

    /// The degree in a variable, which is 0 where it does not occur.
    pub fn degree_in(&self, var: u32) -> u32
        ensures { result ≡ degree_in var self.now }
    {
        greatest_exponent(self.terms.as_slice(), var)
    }

    /// The main variable, which is the greatest that occurs, and `None` exactly for a constant.
    pub fn main(&self) -> Option<u32>
        ensures { result ≡ main_variable self.now }
    {
        match self.terms.as_slice().first() {
            Some(term) => term.monomial.top(),
            None => None,
        }
    }

    /// The number whose constant polynomial this is, and `None` exactly where a variable occurs.
    pub fn constant_value(&self) -> Option<i128>
        ensures { MatchOption result (IsSome (main_variable self.now)) (λ n. self.now ≡ constant n) }
    {
        match self.terms.as_slice().first() {
            Some(term) => match term.monomial.top() {
                Some(_) => None,
                None => Some(term.coeff),
            },
            None => Some(0),
        }
    }
}

// Whether a polynomial is the constant 1 or a member of a list.
fn is_one_or_member(units: &[Poly], rest: &Poly) -> bool
    ensures { IsTrue result ↔ IsOneOrMember units.now rest.now }
{
    if rest.is_one() {
        return true;
    }
    contains(units, rest)
}

// The order of two lists of terms.
fn order_terms(first: &[Term], second: &[Term]) -> Ordering
    ensures { result ≡ poly_cmp first.now second.now }
{
    let mut i = 0;
    'terms: while i < first.len() && i < second.len() {
        match order_term(&first[i], &second[i]) {
            Ordering::Less => return Ordering::Less,
            Ordering::Equal => i += 1,
            Ordering::Greater => return Ordering::Greater,
        }
    }
    first.len().cmp(&second.len())
}

// The order of two terms.
fn order_term(first: &Term, second: &Term) -> Ordering
    ensures { result ≡ term_cmp first.now second.now }
{
    match first.monomial.order(&second.monomial) {
        Ordering::Less => Ordering::Less,
        Ordering::Equal => first.coeff.cmp(&second.coeff),
        Ordering::Greater => Ordering::Greater,
    }
}

// The greatest exponent of a variable.
fn greatest_exponent(terms: &[Term], var: u32) -> u32
    ensures { result ≡ degree_in var terms.now }
{
    let mut degree = 0;
    for term in terms {
        degree = degree.max(term.monomial.exponent(var));
    }
    degree
}
