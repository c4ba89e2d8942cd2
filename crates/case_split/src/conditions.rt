//! How the strategy ends on a case in which no move is due: refuted by a known condition, or as a triangular leaf.
ghost use Rattle.std.specs.Prelude.{◌≡◌, ◌<◌, ◌++◌, ℕ, List, length, IfOk, MatchOption};
ghost use Rattle.pseudo_rem.specs.declared.remainders.Step.{Step};
ghost use Rattle.pseudo_rem.specs.Remainders.{rest_of};
ghost use Rattle.sparse_poly.specs.Reads.{HaveMainVariables};
ghost use Rattle.case_rules.specs.Cases.{known, polys};
ghost use Rattle.case_rules.specs.Rules.{IsAlive, IsSettled, HasZeroRemainder, condition};
ghost use Rattle.case_rules.specs.Belonging.{Belongs};
ghost use Rattle.case_rules.specs.Ends.{back_lines, IsEnd, IsRefutation};
ghost use Rattle.case_split.specs.Found.{back_line};

use crate::ends::leaf;
use case_rules::Outcome;
use case_state::{Case, SharedCase};
use derive_lines::{Item, Line, Way};
use leaf_cert::{Leaf, LeafEnd};
use pseudo_rem::{Reduction, Step, remainder, remainder_answer_law};
use refute_cert::Refutation;
use sparse_poly::{Poly, PolyFault};
use std::alloc::{AllocError, Global};

/// The end of a case in which no move is due: a refutation by the first known condition whose full remainder by the equations is zero, or a
/// triangular leaf.
pub fn settled(
    alloc: Global,
    root: &[Poly],
    case: &Case,
) -> Result<Outcome<SharedCase, Refutation, Leaf>, AllocError>
    requires belongs { Belongs root.now case.now }
    requires alive { IsAlive case.now }
    requires settled { IsSettled case.now }
    ensures { IfOk result (λ o. (budget : ℕ) → IsEnd root.now budget case.now o) }
{
    let equations = case.equations().polys(alloc)?;
    let mut k = 0;
    'conditions: while k < case.known().len() {
        let n = &case.known()[k];
        if let Some(steps) = zero_remainder(alloc, case, n, &equations)? {
            return Ok(Outcome::Dead(refuted(alloc, root, case, k, steps)?));
        }
        k += 1;
    }
    Ok(Outcome::Leaf(leaf(alloc, root, case, LeafEnd::Triangular)?))
}

// The steps of the full remainder of a polynomial by the equations, where it is zero. A remainder that is stopped counts as not zero.
fn zero_remainder(
    alloc: Global,
    case: &Case,
    n: &Poly,
    equations: &[Poly],
) -> Result<Option<Vec<Step>>, AllocError>
    requires equations { equations.now ≡ polys case.now }
    requires variables { HaveMainVariables equations.now }
    ensures { IfOk result (λ o. MatchOption o ((steps : List Step) → HasZeroRemainder case.now n.now steps → ⊥) (λ v. HasZeroRemainder case.now n.now v.items)) }
{
    remainder_answer_law();
    let steps = match remainder(alloc, n, equations, case.known()) {
        Ok(steps) => steps,
        Err(PolyFault::OutOfMemory) => return Err(AllocError),
        Err(PolyFault::Degree { .. }) => return Ok(None),
        Err(PolyFault::Heavy { .. }) => return Ok(None),
    };
    if !rest_after(n, &steps).is_zero() {
        return Ok(None);
    }
    Ok(Some(steps))
}

// What these steps leave of a polynomial.
fn rest_after<'a>(n: &'a Poly, steps: &'a [Step]) -> &'a Poly
    ensures { result.now ≡ rest_of n.now steps.now }
{
    match steps.last() {
        Some(step) => &step.reduction.r,
        None => n,
    }
}

// The refutation by known condition k, whose full remainder is zero in these steps: the lines that lead back to it are appended, and the last of
// them is the end.
fn refuted(
    alloc: Global,
    root: &[Poly],
    case: &Case,
    k: usize,
    steps: Vec<Step>,
) -> Result<Refutation, AllocError>
    requires belongs { Belongs root.now case.now }
    requires settled { IsSettled case.now }
    requires place { k < length (known case.now) }
    requires zero { HasZeroRemainder case.now (condition case.now k) steps.items }
    ensures { IfOk result (IsRefutation root.now case.now k) }
{
    let mut lines = case.lines().copies(alloc)?;
    push_back_lines(case, &case.known()[k], steps, &mut lines)?;
    let end = Item::Line(lines.len() as u64 - 1);
    Refutation::cone_under(
        alloc,
        root,
        case.decisions().as_slice(),
        case.known(),
        &lines,
        end,
    )
}

// Appends the lines that lead back from the last step of a full remainder to the polynomial.
fn push_back_lines(
    case: &Case,
    n: &Poly,
    steps: Vec<Step>,
    lines: &mut Vec<Line>,
) -> Result<(), AllocError>
    requires { HasZeroRemainder case.now n.now steps.items }
    ensures { IfOk result (λ _. lines.new.items ≡ lines.old.items ++ back_lines case.now (length lines.old.items) n.now steps.items) }
{
    let mut left = steps;
    let mut from = None;
    'steps: while let Some(step) = left.pop() {
        let made = rest_after(n, &left).copy()?;
        let by = case.equations().item(step.by as u64);
        let item = Item::Line(lines.len() as u64);
        lines.push(back_line(from, by, step.reduction, made))?;
        from = Some(item);
    }
    Ok(())
}

// The line that leads back over a reduction.
fn back_line(from: Option<Item>, by: Item, reduction: Reduction, made: Poly) -> Line
    ensures { result ≡ back_line from by reduction made }
{
    let Reduction { l, a, m, .. } = reduction;
    Line {
        way: Way::Back,
        from,
        by: Some(by),
        l,
        a,
        m,
        made,
    }
}
