//! The rules of the strategy.
ghost use Rattle.std.specs.Prelude.{◌≢◌, ◌<◌, IfOk, MatchOption};
ghost use Rattle.std.specs.declared.option.Option.TheVariants.{None, Some};
ghost use Rattle.sparse_poly.specs.Polynomials.{variable};
ghost use Rattle.sparse_poly.specs.Reads.{main_variable};
ghost use Rattle.case_rules.specs.Cases.{known, poly, count};
ghost use Rattle.case_rules.specs.Rules.{IsLeast, None_has, IsAlive, IsFactorAt, IsFactorMove, IsUndecidedAt, IsMove, IsSettled};
ghost use Rattle.case_split.specs.Found.{AreInOrder, HaveMain, AreDecided, IsSplitFor};
ghost use Rattle.case_split.specs.Searched.{IsSearched};

use crate::linear::{Progress, linear_move};
use crate::pairs::pair;
use crate::variables::is_variable;
use case_rules::Move;
use case_state::Case;
use case_system::lowest_dividing;
use char_set::decided;
use sparse_poly::Poly;
use std::alloc::{AllocError, Global};

/// A reduction of equation `q` by equation `p` in a variable.
#[derive(Clone, Copy)]
pub struct Operands {
    pub q: u64,
    pub p: u64,
    pub var: u32,
}

/// The move that is due, by the first of the rules Linear, Factor, Pair and Initial that applies. The search by Linear goes on where it stopped.
pub fn due_move(
    alloc: Global,
    case: &Case,
    progress: &mut Progress,
) -> Result<Option<Move>, AllocError>
    requires in_order { AreInOrder case.now }
    requires alive { IsAlive case.now }
    requires progress { IsSearched case.now progress.old }
    ensures due { IfOk result (λ o. MatchOption o (IsSettled case.now) (IsMove case.now)) }
    ensures progress { IsSearched case.now progress.new }
{
    if let Some(Operands { q, p, var }) = linear_move(case, progress) {
        return Ok(Some(Move::Reduce { q, p, v: var }));
    }
    if let Some(var) = factor_move(case) {
        let by = Poly::variable(alloc, var)?;
        return Ok(Some(Move::Split { by, tail: None }));
    }
    if let Some(Operands { q, p, var }) = pair(case) {
        if decided(case.equations().at(p), case.known())? {
            return Ok(Some(Move::Reduce { q, p, v: var }));
        }
        return Ok(Some(initial_split(alloc, case, p)?));
    }
    match undecided_at(case)? {
        Some(i) => Ok(Some(initial_split(alloc, case, i)?)),
        None => Ok(None),
    }
}

// Factor: the lowest variable that divides the least equation which one divides and which is not itself a variable.
fn factor_move(case: &Case) -> Option<u32>
    requires { AreInOrder case.now }
    ensures { MatchOption result (None_has (IsFactorAt case.now)) (λ v. IsFactorMove case.now (variable v) None) }
{
    let equations = case.equations();
    for i in 0..equations.len() {
        let Some(var) = equations.lowest_dividing(i) else {
            continue;
        };
        if is_variable(equations.at(i)) {
            continue;
        }
        return Some(var);
    }
    None
}

// Initial: the least equation that is not decided.
fn undecided_at(case: &Case) -> Result<Option<u64>, AllocError>
    requires { HaveMain case.now }
    ensures { IfOk result (λ o. MatchOption o (AreDecided case.now) (IsLeast (IsUndecidedAt case.now))) }
{
    let equations = case.equations();
    for i in 0..equations.len() {
        if !decided(equations.at(i), case.known())? {
            return Ok(Some(i));
        }
    }
    Ok(None)
}

// The split on the initial of an equation.
fn initial_split(alloc: Global, case: &Case, i: u64) -> Result<Move, AllocError>
    requires in_order { AreInOrder case.now }
    requires place { i < count case.now }
    requires varied { main_variable (poly case.now i) ≢ None }
    ensures { IfOk result (IsSplitFor case.now i) }
{
    let poly = case.equations().at(i);
    let Some(var) = poly.main() else {
        unreachable!()
    };
    let _terms = poly.terms();
    let initial = poly.coefficient_in(var, poly.degree_in(var))?;
    let rest = initial.clear(case.known())?.rest;
    match lowest_dividing(&rest) {
        Some(var) => Ok(Move::Split {
            by: Poly::variable(alloc, var)?,
            tail: None,
        }),
        None => Ok(Move::Split {
            by: rest,
            tail: Some(i),
        }),
    }
}
