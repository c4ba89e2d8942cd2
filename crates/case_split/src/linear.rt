//! Rule Linear, whose search goes on where it stopped.
ghost use Rattle.std.specs.Prelude.{◌≡◌, ◌<◌, ℕ, MatchOption};
ghost use Rattle.std.specs.declared.option.Option.TheVariants.{Some};
ghost use Rattle.case_rules.specs.Cases.{poly, count};
ghost use Rattle.case_rules.specs.Rules.{IsLeast, None_has, IsLinearIn, IsOtherWith, IsLinearAt, IsLinearMove};
ghost use Rattle.case_split.specs.Found.{None_below, IsSomePlace, IsLeftOf, IsMovedBy, AreInOrder};
ghost use Rattle.case_split.specs.Searched.{IsPassed, IsPassedBut, IsSearched};

use crate::rules::Operands;
use crate::variables::linear_in;
use case_state::Case;

/// The first equations, of which at most one contains a variable.
#[derive(Clone, Copy)]
pub struct Passed {
    pub var: u32,
    pub first: u64,
}

/// How far the search by Linear has come: none of the first `done` equations is due by it, and these equations are passed.
#[derive(Clone, Copy)]
pub struct Progress {
    pub done: u64,
    pub passed: Passed,
}

/// Linear: the least equation that is linear in its main variable and reduces another one, and the least one that it reduces.
pub fn linear_move(case: &Case, progress: &mut Progress) -> Option<Operands>
    requires in_order { AreInOrder case.now }
    requires progress { IsSearched case.now progress.old }
    ensures due { MatchOption result (None_has (IsLinearAt case.now)) (λ o. IsLinearMove case.now o.q o.p o.var) }
    ensures progress { IsSearched case.now progress.new }
{
    let equations = case.equations();
    'equations: while progress.done < equations.len() {
        if let Some(operands) = linear_at(case, progress.done, &mut progress.passed) {
            return Some(operands);
        }
        progress.done += 1;
    }
    None
}

// The reduction by equation p, where it is due by Linear and none before it is.
fn linear_at(case: &Case, p: u64, passed: &mut Passed) -> Option<Operands>
    requires in_order { AreInOrder case.now }
    requires place { p < count case.now }
    requires done { None_below (IsLinearAt case.now) p }
    requires passed { IsPassed case.now passed.old }
    ensures due { MatchOption result (IsLinearAt case.now p → ⊥) (λ o. IsLinearMove case.now o.q o.p o.var) }
    ensures passed { IsPassed case.now passed.new }
{
    let var = linear_in(case.equations().at(p))?;
    let Some(q) = other_with(case, p, var, *passed) else {
        *passed = Passed {
            var,
            first: case.equations().len(),
        };
        return None;
    };
    *passed = Passed { var, first: q };
    Some(Operands { q, p, var })
}

// The least other equation that contains the variable in which equation p is linear, where none before p is due by Linear. Equations before p do
// not contain it, and of those that are passed with it only p does.
fn other_with(case: &Case, p: u64, var: u32, passed: Passed) -> Option<u64>
    requires in_order { AreInOrder case.now }
    requires place { p < count case.now }
    requires linear { IsLinearIn (poly case.now p) var }
    requires done { None_below (IsLinearAt case.now) p }
    requires passed { IsPassed case.now passed }
    ensures { MatchOption result (None_has (IsOtherWith case.now p var)) (IsLeast (IsOtherWith case.now p var)) }
{
    if passed.var == var && p < passed.first {
        return other_from(case, p, var, passed.first);
    }
    let _count = case.equations().len();
    other_from(case, p, var, p + 1)
}

// The least equation other than p that contains a variable, where none before a place does.
fn other_from(case: &Case, p: u64, var: u32, from: u64) -> Option<u64>
    requires after { p < from }
    requires none { None_below (IsOtherWith case.now p var) from }
    ensures { MatchOption result (None_has (IsOtherWith case.now p var)) (IsLeast (IsOtherWith case.now p var)) }
{
    let equations = case.equations();
    for q in from..equations.len() {
        if equations.contains(q, var) {
            return Some(q);
        }
    }
    None
}

/// How many of the first equations are done, where of some of them only the one at a place may be due by Linear.
pub fn done_after(case: &Case, done: u64, at: Option<u64>) -> u64
    requires place { IsSomePlace case.now at }
    requires only { (i : ℕ) → i < done → IsLinearAt case.now i → at ≡ Some i }
    ensures { None_below (IsLinearAt case.now) result }
{
    let Some(i) = at else {
        return done;
    };
    if i >= done {
        return done;
    }
    match linear_in(case.equations().at(i)) {
        Some(_) => i,
        None => done,
    }
}

/// The equations that are passed, where of some of them the one at a place may contain the variable as well.
pub fn passed_after(case: &Case, passed: Passed, at: Option<u64>) -> Passed
    requires place { IsSomePlace case.now at }
    requires passed { IsPassedBut case.now at passed }
    ensures { IsPassed case.now result }
{
    let Some(i) = at else {
        return passed;
    };
    if i < passed.first && case.equations().contains(i, passed.var) {
        return Passed {
            var: passed.var,
            first: i,
        };
    }
    passed
}

/// The equations that are left of those that are passed where equation `q` is taken out.
pub fn passed_left(passed: Passed, q: u64) -> Passed
    ensures var { result.var ≡ passed.var }
    ensures first { IsLeftOf passed.first q result.first }
{
    Passed {
        var: passed.var,
        first: left_of(passed.first, q),
    }
}

/// How many of the first equations are left where equation `q` is taken out.
pub fn left_of(first: u64, q: u64) -> u64
    ensures { IsLeftOf first q result }
{
    if q < first { first - 1 } else { first }
}

/// Up to where the first equations go, once a new one comes to a place.
pub fn moved_by(first: u64, at: Option<u64>) -> u64
    ensures { IsMovedBy at first result }
{
    match at {
        Some(i) if i <= first => first.saturating_add(1),
        _ => first,
    }
}
