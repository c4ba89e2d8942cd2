//! When a case is dead.
ghost use Rattle.std.specs.Prelude.{◌≡◌, ◌≤◌, ◌↔◌, [], ◌∷◌, ℕ, IsTrue, MatchOption};
ghost use Rattle.derive_lines.specs.Refuting.{IsNonzeroConstant, IsContradiction};
ghost use Rattle.case_rules.specs.Cases.{known, count};
ghost use Rattle.case_rules.specs.Rules.{IsLeast, IsAlive, IsDeadAt};
ghost use Rattle.case_split.specs.Found.{IsOnlyAt, IsSomePlace, IsFirstOf, AreInOrder};

use case_state::Case;
use sparse_poly::{Poly, contains};
use std::cmp::Ordering;

/// The least equation that is a nonzero constant or a known condition. Equations ascend, so where one is constant, the first is so.
pub fn dead_at(case: &Case) -> Option<u64>
    requires { AreInOrder case.now }
    ensures { MatchOption result (IsAlive case.now) (IsLeast (IsDeadAt case.now)) }
{
    let equations = case.equations();
    if equations.len() == 0 {
        return None;
    }
    if is_nonzero_constant(equations.at(0)) {
        return Some(0);
    }
    let first = first_known(case);
    if first == equations.len() {
        return None;
    }
    Some(first)
}

// The first equation that is a known condition, or their number where none is.
fn first_known(case: &Case) -> u64
    requires { AreInOrder case.now }
    ensures { IsFirstOf case.now (known case.now) (count case.now) result }
{
    let mut first = case.equations().len();
    for condition in case.known() {
        first = first_of(case, condition, first);
    }
    first
}

// The place of a polynomial among the first n equations, or n where it does not stand there.
fn first_of(case: &Case, poly: &Poly, n: u64) -> u64
    requires in_order { AreInOrder case.now }
    requires within { n ≤ count case.now }
    ensures { IsFirstOf case.now (poly.now ∷ []) n result }
{
    let equations = case.equations();
    let mut low = 0;
    let mut high = n;
    'halves: while low < high {
        let middle = low + (high - low) / 2;
        match equations.at(middle).order(poly) {
            Ordering::Less => low = middle + 1,
            Ordering::Equal => return middle,
            Ordering::Greater => high = middle,
        }
    }
    n
}

/// The equation that is a contradiction, where only that at a place can be one.
pub fn dead_after(case: &Case, at: Option<u64>) -> Option<u64>
    requires place { IsSomePlace case.now at }
    requires only { IsOnlyAt (IsDeadAt case.now) at }
    ensures { MatchOption result (IsAlive case.now) (IsLeast (IsDeadAt case.now)) }
{
    let i = at?;
    if is_contradiction(case.equations().at(i), case.known()) {
        return Some(i);
    }
    None
}

// Whether a polynomial is a nonzero constant or a known condition.
fn is_contradiction(poly: &Poly, known: &[Poly]) -> bool
    ensures { IsTrue result ↔ IsContradiction known.now poly.now }
{
    is_nonzero_constant(poly) || contains(known, poly)
}

// Whether a polynomial is a nonzero constant.
fn is_nonzero_constant(poly: &Poly) -> bool
    ensures { IsTrue result ↔ IsNonzeroConstant poly.now }
{
    match poly.constant_value() {
        Some(n) => n != 0,
        None => false,
    }
}
