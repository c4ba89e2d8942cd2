//! One step of pseudo-division.
ghost use Rattle.std.specs.Prelude.{◌≡◌, ◌≤◌, IfOk, MatchResult};
ghost use Rattle.sparse_poly.specs.Reads.{degree_in};
ghost use Rattle.std.specs.declared.option.Option.TheVariants.{None};
ghost use Rattle.monomial.specs.Monomials.{monomial_times, too_high};
ghost use Rattle.pseudo_rem.specs.Steps.{raised, times_power, AreLow, CanReduce, IsReduction, IsStep, IsStepFault, IsTail, IsTailStep, IsTailFault};
ghost use Rattle.sparse_poly.specs.Contributions.{contributions, IsFault};

use monomial::{MonoFault, Monomial};
use sparse_poly::{Poly, PolyFault, Term};
use std::alloc::{AllocError, Global};

/// A step of pseudo-division of a polynomial `q` by a polynomial `p`: `l*q = a*p + m*r`.
#[derive(Drop)]
pub struct Reduction {
    pub l: Poly,
    pub a: Poly,
    pub m: Poly,
    pub r: Poly,
}

/// The reduction of `q` by `p` in a variable: `l` is the coefficient of the highest power of the variable in `p`, `a` that in `q` times the
/// power that is left, and `l*q - a*p` is stripped of the units into `m*r`. `Degree` and `Heavy` come exactly where the combination
/// `l*q - a*p` answers so.
pub fn reduce_once(
    alloc: Global,
    q: &Poly,
    p: &Poly,
    var: u32,
    units: &[Poly],
) -> Result<Reduction, PolyFault>
    requires { CanReduce q.now p.now var }
    ensures { MatchResult result (IsReduction units.now q.now p.now var) (IsStepFault q.now p.now var) }
{
    let _terms = q.terms();
    let lower = p.degree_in(var);
    let upper = q.degree_in(var);
    let l = p.coefficient_in(var, lower)?;
    let leading = q.coefficient_in(var, upper)?;
    let a = times_power(alloc, &leading, var, upper - lower)?;
    step(alloc, l, q, a, p, units)
}

/// The tail step of `q`, whose main variable is `var` and whose initial is `factor*rest` by its strip or its clearing: `q` loses its initial
/// by `rest`. So `l` is 1, `p` is `rest`, `a` is `factor` times the highest power of the variable in `q`, and `q - a*rest` is stripped of the
/// units into `m*r`. `Degree` and `Heavy` come exactly where the combination `l*q - a*rest` answers so.
pub fn tail_step(
    alloc: Global,
    q: &Poly,
    var: u32,
    factor: &Poly,
    rest: &Poly,
    units: &[Poly],
) -> Result<Reduction, PolyFault>
    requires { IsTail units.now var q.now factor.now rest.now }
    ensures { MatchResult result (IsTailStep units.now var q.now factor.now rest.now) (IsTailFault var q.now factor.now rest.now) }
{
    let _terms = q.terms();
    let l = Poly::constant(alloc, 1)?;
    let a = times_power(alloc, factor, var, q.degree_in(var))?;
    step(alloc, l, q, a, rest, units)
}

// The step with these multipliers.
fn step(
    alloc: Global,
    l: Poly,
    q: &Poly,
    a: Poly,
    p: &Poly,
    units: &[Poly],
) -> Result<Reduction, PolyFault>
    ensures { MatchResult result (λ s. (s.l ≡ l) × (s.a ≡ a) × IsStep units.now q.now p.now s) (IsFault (contributions l q.now a p.now)) }
{
    let combined = Poly::combine(alloc, &l, q, &a, p)?;
    let stripped = combined.strip(units)?;
    Ok(Reduction {
        l,
        a,
        m: stripped.factor,
        r: stripped.rest,
    })
}

/// The polynomial times a power of a variable that does not occur in it. It fails only where no memory is left.
pub fn times_power(alloc: Global, poly: &Poly, var: u32, exp: u32) -> Result<Poly, AllocError>
    requires apart { degree_in var poly.now ≡ 0 }
    requires small { exp ≤ 65535 }
    ensures { IfOk result (λ p. p ≡ times_power var exp poly.now) }
{
    if exp == 0 {
        return poly.copy();
    }
    let power = Monomial::power(alloc, var, exp as u16)?;
    let terms = raised(alloc, poly.terms(), &power)?;
    match Poly::from_terms(alloc, terms) {
        Ok(product) => Ok(product),
        Err(PolyFault::Degree { .. }) => unreachable!(),
        Err(PolyFault::Heavy { .. }) => unreachable!(),
        Err(PolyFault::OutOfMemory) => Err(AllocError),
    }
}

// The terms times a monomial.
fn raised(alloc: Global, terms: &[Term], power: &Monomial) -> Result<Vec<Term>, AllocError>
    requires { AreLow power.now terms.now }
    ensures { IfOk result (λ v. v.items ≡ raised power.now terms.now) }
{
    let mut products = Vec::with_capacity(alloc, terms.len())?;
    for term in terms {
        products.push(Term {
            monomial: product(power, &term.monomial)?,
            coeff: term.coeff,
        })?;
    }
    Ok(products)
}

// The product of monomials that is not of too high degree.
fn product(first: &Monomial, second: &Monomial) -> Result<Monomial, AllocError>
    requires { too_high (monomial_times first.now second.now) ≡ None }
    ensures { IfOk result (λ m. m ≡ monomial_times first.now second.now) }
{
    match first.times(second) {
        Ok(product) => Ok(product),
        Err(MonoFault::Degree { .. }) => unreachable!(),
        Err(MonoFault::OutOfMemory) => Err(AllocError),
    }
}
