//! Equations with one main variable.
ghost use Rattle.std.specs.Prelude.{MatchOption};
ghost use Rattle.case_rules.specs.Rules.{None_has, IsPaired, HasMain};
ghost use Rattle.case_split.specs.Found.{AreInOrder, HaveMain, IsPair, IsFirstWith};

use crate::rules::Operands;
use case_state::Case;

/// The highest variable that is main in two equations, the one of the least degree in it of these, and the least other one. Equations ascend, so
/// those with one main variable stand together, a higher one later, and the one of the least degree first.
pub fn pair(case: &Case) -> Option<Operands>
    requires in_order { AreInOrder case.now }
    requires main { HaveMain case.now }
    ensures { MatchOption result (None_has (IsPaired case.now)) (λ o. IsPair case.now o.q o.p o.var) }
{
    let equations = case.equations();
    let mut i = equations.len();
    'equations: while i > 1 {
        i -= 1;
        let Some(var) = equations.at(i).main() else {
            unreachable!()
        };
        if equations.at(i - 1).main() != Some(var) {
            continue;
        }
        let p = first_with(case, var, i - 1);
        return Some(Operands { q: p + 1, p, var });
    }
    None
}

// The first of the equations up to i that have the main variable of equation i.
fn first_with(case: &Case, var: u32, i: u64) -> u64
    requires in_order { AreInOrder case.now }
    requires main { HaveMain case.now }
    requires has { HasMain case.now var i }
    ensures { IsFirstWith case.now var i result }
{
    let equations = case.equations();
    let mut p = i;
    'equations: while p > 0 {
        if equations.at(p - 1).main() != Some(var) {
            return p;
        }
        p -= 1;
    }
    p
}
