//! The conditions and the decisions that are kept.
ghost use Rattle.std.specs.Prelude.{◌≡◌, ◌⊎◌, ◌↔◌, ℕ, List, IfOk, IsTrue, true, false, length};
ghost use Rattle.sparse_poly.specs.declared.Term.{Term};
ghost use Rattle.derive_lines.specs.Lines.{multiplier};
ghost use Rattle.derive_lines.specs.Known.{Holds};
ghost use Rattle.refute_cert.specs.Marks.{IsMarked, IsKeptBy, IsKeptPlace};
ghost use Rattle.refute_cert.specs.Resting.{IsRestedOn, IsVariedEnd};

use crate::copies::line_at;
use crate::ending::is_nonzero_constant;
use crate::marks::is_marked;
use crate::resting::add_conditions;
use derive_lines::{Decision, Known, Line, Way};
use sparse_poly::Poly;
use std::alloc::{AllocError, Global};

/// The conditions on which the multiplier of a marked line rests, and the end, where it is no nonzero constant. No polynomial is copied. It
/// fails only where no memory is left.
pub fn kept_conditions<'a>(
    alloc: Global,
    lines: &[Line],
    marks: &[bool],
    units: &'a [Poly],
    end: &'a Poly,
) -> Result<Known<'a>, AllocError>
    requires { length marks.now ≡ length lines.now }
    ensures { IfOk result (λ known. (n : List Term) → Holds units.now n → (Holds known n ↔ (IsVariedEnd end.now n ⊎ ((k : ℕ) × IsRestedOn lines.now marks.now units.now n k)))) }
{
    let mut known = Known::new(alloc);
    if !is_nonzero_constant(end) {
        known.insert(end)?;
    }
    let mut k = 0;
    'lines: while k < lines.len() {
        let place = k;
        k += 1;
        if !is_marked(marks, place) {
            continue;
        }
        add_conditions(alloc, &mut known, units, multiplier(line_at(lines, place)))?;
    }
    Ok(known)
}

/// The multiplier of a line, which has to be a unit: `m` of a forward and `l` of a back line.
pub fn multiplier(line: &Line) -> &Poly
    ensures { result.now ≡ multiplier line.now }
{
    match line.way {
        Way::Fwd => &line.m,
        Way::Back => &line.l,
    }
}

/// Marks of the decisions that are kept: the marked zero decisions, and the nonzero ones whose condition is known to be kept. It fails only
/// where no memory is left.
pub fn kept_decisions<'a>(
    alloc: Global,
    decisions: &'a [Decision],
    marks: &[bool],
    known: &Known<'a>,
) -> Result<Vec<bool>, AllocError>
    requires { length marks.now ≡ length decisions.now }
    ensures { IfOk result (λ v. (j : ℕ) → IsMarked v.items j ↔ IsKeptPlace decisions.now marks.now known.now j) }
{
    let mut kept = Vec::new(alloc);
    let mut j = 0;
    'decisions: while j < decisions.len() {
        kept.push(is_kept(&decisions[j], marks[j], known))?;
        j += 1;
    }
    Ok(kept)
}

// Whether a decision is kept.
fn is_kept<'a>(decision: &'a Decision, mark: bool, known: &Known<'a>) -> bool
    ensures { IsTrue result ↔ (((decision.now.zero ≡ true) × IsTrue mark) ⊎ ((decision.now.zero ≡ false) × Holds known.now decision.now.poly)) }
{
    if decision.zero {
        mark
    } else {
        known.has(&decision.poly)
    }
}
