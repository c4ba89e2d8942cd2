//! Equations that are stripped and cleared of known conditions, and the lines for it.
ghost use Rattle.std.specs.Prelude.{◌≡◌, ◌<◌, ◌≤◌, ℕ, false, IfOk, IfSome, MatchOption, List, [], ◌∷◌, length, drop};
ghost use Rattle.std.specs.List.{AllByRecursion, Contains};
ghost use Rattle.sparse_poly.specs.declared.Term.{Term};
ghost use Rattle.sparse_poly.specs.Polynomials.{variable};
ghost use Rattle.sparse_poly.specs.Clearing.{IsInForm, IsDividedBy, leading_degree};
ghost use Rattle.case_rules.specs.Clearings.{Divides, quotient_line};
ghost use Rattle.case_system.specs.declared.kept.Kept.{Kept};
ghost use Rattle.case_system.specs.Appending.{Grows, IsClearedBy, IsStrippedBy, AreStrippedBy};
ghost use Rattle.case_system.specs.CaseLines.{all_lines};
ghost use Rattle.case_system.specs.Facts.{HasFacts, HasBareFacts, HaveFacts};
ghost use Rattle.case_system.specs.Outlines.{IsOutlineOf};
ghost use Rattle.case_system.specs.Kept.{equations_of, AreAddedCleared};
ghost use Rattle.case_system.specs.Places.{Ascend};

use crate::conditions::Conditions;
use crate::copies::copied_equation;
use crate::kept::{Facts, Kept, KeptList, add};
use crate::lines::CaseLines;
use case_rules::Equation;
use derive_lines::{Item, Line, Way, is_same};
use sparse_poly::{Poly, Stripped};
use std::alloc::{AllocError, Global};
use std::collections::VecDeque;

// The line that divides an equation by m.
fn quotient_line(alloc: Global, from: Item, m: Poly, made: Poly) -> Result<Line, AllocError>
    ensures { IfOk result (λ line. line ≡ quotient_line from m made) }
{
    Ok(Line {
        way: Way::Fwd,
        from: Some(from),
        by: None,
        l: Poly::constant(alloc, 1)?,
        a: Poly::zero(alloc),
        m,
        made,
    })
}

// The quotient of a polynomial by a condition in form that divides it.
#[tactic(auto, using(crate::proofs::BeingCleared::quotient_smaller))]
fn divided(p: &Poly, n: &Poly) -> Result<Option<Poly>, AllocError>
    requires { IsInForm n.now }
    ensures answer { IfOk result (λ o. MatchOption o ((h : List Term) → Divides n.now p.now h → ⊥) (λ h. Divides n.now p.now h)) }
    ensures smaller { IfOk result (λ o. IfSome o (λ h. leading_degree h < leading_degree p.now)) }
{
    if p.is_zero() {
        return Ok(None);
    }
    p.quotient(n)
}

// Divides an equation by a condition in form, as often as it goes, with a line each time.
fn divide_out(
    alloc: Global,
    n: &Poly,
    equation: Equation,
    lines: &mut CaseLines,
) -> Result<Equation, AllocError>
    requires { IsInForm n.now }
    ensures grows { Grows lines.old lines.new }
    ensures cleared { IfOk result (λ e. IsClearedBy (n.now ∷ []) (all_lines lines.old) equation (all_lines lines.new) e) }
{
    let mut now = equation;
    'divisions: while let Some(h) = divided(&now.poly, n)? {
        let item = Item::Line(lines.len() as u64);
        lines.push(quotient_line(alloc, now.item, n.copy()?, h.copy()?)?)?;
        now = Equation { poly: h, item };
    }
    Ok(now)
}

// Clears an equation of the conditions from a place on, with the lines for it.
fn clear_from(
    alloc: Global,
    conditions: &Conditions,
    from: usize,
    equation: Equation,
    lines: &mut CaseLines,
) -> Result<Equation, AllocError>
    requires { from ≤ length conditions.now }
    ensures grows { Grows lines.old lines.new }
    ensures cleared { IfOk result (λ e. IsClearedBy (drop from conditions.now) (all_lines lines.old) equation (all_lines lines.new) e) }
{
    let polys = conditions.polys();
    let mut now = equation;
    'conditions: for i in from..polys.len() {
        if !conditions.is_in_form(i) {
            continue;
        }
        now = divide_out(alloc, &polys[i], now, lines)?;
    }
    Ok(now)
}

/// Clears an equation of known conditions, of which the first ones that it is clean under are passed, and appends the lines for it. Where no
/// memory is left some of them may have been appended.
pub fn clear_equation(
    alloc: Global,
    conditions: &Conditions,
    kept: Kept,
    lines: &mut CaseLines,
) -> Result<Kept, AllocError>
    requires { HasBareFacts conditions.now kept.equation.poly kept.facts }
    ensures grows { Grows lines.old lines.new }
    ensures cleared { IfOk result (λ k. IsClearedBy conditions.now (all_lines lines.old) kept.equation (all_lines lines.new) k.equation) }
    ensures known { IfOk result (λ k. HasFacts conditions.now k.equation.poly k.facts) }
{
    let before = lines.len();
    let equation = clear_from(alloc, conditions, kept.facts.clean, kept.equation, lines)?;
    if lines.len() > before {
        return Ok(Kept::new(equation));
    }
    let facts = Facts {
        clean: conditions.polys().len(),
        outline: kept.facts.outline,
    };
    Ok(Kept { equation, facts })
}

/// Clears equations, one after the other, and adds each to those before it, at its place in the order.
pub fn clear_equations(
    alloc: Global,
    conditions: &Conditions,
    stripped: Vec<Kept>,
    lines: &mut CaseLines,
) -> Result<KeptList, AllocError>
    requires { AllByRecursion (λ (k : Kept). HasBareFacts conditions.now k.equation.poly k.facts) stripped.items }
    ensures cleared { IfOk result (λ l. AreAddedCleared conditions.now (all_lines lines.old) (equations_of stripped.items) (all_lines lines.new) l.equations.items) }
    ensures ascending { IfOk result (λ l. Ascend l.equations.items) }
    ensures known { IfOk result (λ l. HaveFacts conditions.now l.equations.items l.facts.items) }
{
    let n = stripped.len();
    let mut left = VecDeque::from(stripped);
    let mut list = KeptList {
        equations: Vec::with_capacity(alloc, n)?,
        facts: Vec::with_capacity(alloc, n)?,
    };
    'equations: while let Some(kept) = left.pop_front() {
        let cleared = clear_equation(alloc, conditions, kept, lines)?;
        add(&mut list, cleared)?;
    }
    Ok(list)
}

// Whether the main variable of a condition divides a polynomial. Where the condition is a variable that divides it, it does.
fn may_strip_by(condition: &Poly, poly: &Poly) -> bool
    ensures { result ≡ false → (v : ℕ) → condition.now ≡ variable v → IsDividedBy v poly.now → ⊥ }
{
    let Some(var) = condition.main() else {
        return false;
    };
    let terms = poly.terms();
    for term in terms {
        if term.monomial.exponent(var) == 0 {
            return false;
        }
    }
    true
}

// Whether one of some conditions may be stripped off a polynomial. Where one is a variable that divides it, one may.
fn may_strip(conditions: &[Poly], poly: &Poly) -> bool
    ensures { result ≡ false → (v : ℕ) → Contains conditions.now (variable v) → IsDividedBy v poly.now → ⊥ }
{
    for condition in conditions {
        if may_strip_by(condition, poly) {
            return true;
        }
    }
    false
}

// The conditions from a place on.
fn conditions_from(conditions: &[Poly], from: usize) -> &[Poly]
    requires { from ≤ length conditions.now }
    ensures { result.now ≡ drop from conditions.now }
{
    &conditions[from..]
}

// Whether one of the conditions that an equation is not known to be clean under may be stripped off it. Where one is a variable that divides it,
// one may.
fn may_strip_later(conditions: &[Poly], poly: &Poly, facts: Facts) -> bool
    requires within { facts.clean ≤ length conditions.now }
    requires outline { IsOutlineOf poly.now facts.outline }
    ensures { result ≡ false → (v : ℕ) → Contains (drop facts.clean conditions.now) (variable v) → IsDividedBy v poly.now → ⊥ }
{
    if !facts.outline.may_be_divided() {
        return false;
    }
    may_strip(conditions_from(conditions, facts.clean), poly)
}

// Strips an equation, with a line where it changes. One that is clean under the first conditions stays as it is where no later one may be
// stripped off it.
fn strip_equation(
    alloc: Global,
    conditions: &[Poly],
    equation: &Equation,
    facts: Facts,
    lines: &mut CaseLines,
) -> Result<Kept, AllocError>
    requires { HasFacts conditions.now equation.now.poly facts }
    ensures stripped { IfOk result (λ k. IsStrippedBy conditions.now (all_lines lines.old) equation.now (all_lines lines.new) k.equation) }
    ensures bare { IfOk result (λ k. HasBareFacts conditions.now k.equation.poly k.facts) }
{
    let _terms = equation.poly.terms();
    if facts.clean > 0 && !may_strip_later(conditions, &equation.poly, facts) {
        return Ok(Kept {
            equation: copied_equation(equation)?,
            facts,
        });
    }
    let Stripped { factor, rest } = equation.poly.strip(conditions)?;
    if is_same(&rest, &equation.poly) {
        let equation = Equation {
            poly: rest,
            item: equation.item,
        };
        return Ok(Kept { equation, facts });
    }
    let item = Item::Line(lines.len() as u64);
    lines.push(quotient_line(alloc, equation.item, factor, rest.copy()?)?)?;
    Ok(Kept::new(Equation { poly: rest, item }))
}

/// Strips equations, one after the other, with a line for each that changes.
pub fn strip_equations(
    alloc: Global,
    conditions: &[Poly],
    list: &KeptList,
    lines: &mut CaseLines,
) -> Result<Vec<Kept>, AllocError>
    requires { HaveFacts conditions.now list.now.equations.items list.now.facts.items }
    ensures stripped { IfOk result (λ v. AreStrippedBy conditions.now (all_lines lines.old) list.now.equations.items (all_lines lines.new) (equations_of v.items)) }
    ensures bare { IfOk result (λ v. AllByRecursion (λ (k : Kept). HasBareFacts conditions.now k.equation.poly k.facts) v.items) }
{
    let mut stripped = Vec::with_capacity(alloc, list.equations.len())?;
    for i in 0..list.equations.len() {
        let kept = strip_equation(alloc, conditions, &list.equations[i], list.facts[i], lines)?;
        stripped.push(kept)?;
    }
    Ok(stripped)
}
