//! Refutations: derivations of a contradiction from root equations and decisions.
#![tactic(auto)]

ghost use Rattle.std.specs.Prelude.{◌≡◌, MatchResult, IfOk};
ghost use Rattle.derive_lines.specs.Lines.{conditions};
ghost use Rattle.derive_lines.specs.Refuting.{Refutes};
ghost use Rattle.refute_cert.specs.Refutations.{IsRefutation, IsCertStop};
ghost use Rattle.refute_store.specs.Live.{IsWithin};
ghost use Rattle.refute_cert.specs.Cone.{IsCone};

mod checking;
mod copies;
mod ending;
mod kept;
mod kept_places;
pub mod laws;
mod marks;
mod needed;
mod resting;

pub use checking::check_refutation;
use copies::{copied_decisions, copied_lines, renumbered};
use derive_lines::{Decision, Item, Line, LineCause, conditions};
use kept_places::kept_places;
pub use laws::{cert_answer_law, cone_law, good_cone_law};
use sparse_poly::Poly;
use std::alloc::{AllocError, AllocFailed, Global};
use std::marker::Model;

/// A refutation, seen as the decisions of its pattern, its lines and its end. That it is good over a root is a clause of the calls that make it.
#[derive(Drop)]
pub struct Refutation {
    pattern: Vec<Decision>,
    lines: Vec<Line>,
    end: Item,
}

impl Model for Refutation {
    ghost use Rattle.refute_cert.specs.Parts.{RefutationParts};

    ghost Value = { RefutationParts };

    ghost view = { λ r. record { pattern = r.pattern.items; lines = r.lines.items; end = r.end } };
}

/// Why a refutation is not good.
#[derive(Clone, Copy, Debug, PartialEq, Eq)]
pub enum CertStop {
    /// Line `k` is the first that is bad, with its first cause.
    Line { k: u64, cause: LineCause },
    /// The lines are good, and the end is no item that is a nonzero constant or the polynomial of a nonzero decision.
    End,
    /// No memory was left.
    OutOfMemory,
}

impl From<AllocError> for CertStop {
    ghost use Rattle.std.specs.Prelude.{◌≡◌};
    ghost use Rattle.refute_cert.specs.declared.CertStop.TheVariants.{OutOfMemory};

    ghost from_gives = { λ _ e. e ≡ OutOfMemory };

    fn from(_: AllocError) -> CertStop {
        CertStop::OutOfMemory
    }
}

impl<T: Drop> From<AllocFailed<T>> for CertStop {
    ghost use Rattle.std.specs.Prelude.{◌≡◌};
    ghost use Rattle.refute_cert.specs.declared.CertStop.TheVariants.{OutOfMemory};

    ghost from_gives = { λ _ e. e ≡ OutOfMemory };

    fn from(_: AllocFailed<T>) -> CertStop {
        CertStop::OutOfMemory
    }
}

impl Refutation {
    /// The refutation of these parts, which is good over the root. `Line` comes exactly where a line is bad, and `End` exactly where the lines
    /// are good and the end is no item, or one that is neither a nonzero constant nor the polynomial of a nonzero decision of the pattern.
    pub fn checked(
        alloc: Global,
        root: &[Poly],
        pattern: Vec<Decision>,
        lines: Vec<Line>,
        end: Item,
    ) -> Result<Refutation, CertStop>
        ensures { MatchResult result (IsRefutation root.now pattern.items lines.items end) (IsCertStop root.now pattern.items lines.items end) }
    {
        check_refutation(alloc, root, &pattern, &lines, end)?;
        Ok(Refutation {
            pattern,
            lines,
            end,
        })
    }

    /// The cone: the decisions and lines that the end needs. It is good over the root, and its pattern is within the decisions. It fails only
    /// where no memory is left.
    pub fn cone(
        alloc: Global,
        root: &[Poly],
        decisions: &[Decision],
        lines: &[Line],
        end: Item,
    ) -> Result<Refutation, AllocError>
        requires { Refutes root.now decisions.now lines.now end }
        ensures cone { IfOk result (λ r. IsCone root.now decisions.now lines.now end r) }
        ensures good { IfOk result (λ r. Refutes root.now r.pattern r.lines r.end) }
        ensures within { IfOk result (λ r. IsWithin r.pattern decisions.now) }
    {
        let units = conditions(alloc, decisions)?;
        Refutation::cone_under(alloc, root, decisions, &units, lines, end)
    }

    /// The cone, where `units` are the polynomials of the nonzero decisions, in order. No polynomial is copied that the cone does not keep.
    pub fn cone_under(
        alloc: Global,
        root: &[Poly],
        decisions: &[Decision],
        units: &[Poly],
        lines: &[Line],
        end: Item,
    ) -> Result<Refutation, AllocError>
        requires refutes { Refutes root.now decisions.now lines.now end }
        requires units { units.now ≡ conditions decisions.now }
        ensures cone { IfOk result (λ r. IsCone root.now decisions.now lines.now end r) }
        ensures good { IfOk result (λ r. Refutes root.now r.pattern r.lines r.end) }
        ensures within { IfOk result (λ r. IsWithin r.pattern decisions.now) }
    {
        let kept = kept_places(alloc, root, decisions, units, lines, end)?;
        let of_decisions: &[usize] = &kept.decisions;
        let of_lines: &[usize] = &kept.lines;
        let pattern = copied_decisions(alloc, decisions, of_decisions)?;
        let copies = copied_lines(alloc, lines, of_decisions, of_lines)?;
        let new_end = renumbered(end, of_decisions, of_lines);
        Ok(Refutation {
            pattern,
            lines: copies,
            end: new_end,
        })
    }

    /// The decisions of the pattern.
    pub fn pattern(&self) -> &[Decision]
        ensures { result.now ≡ self.now.pattern }
    {
        &self.pattern
    }

    /// The lines.
    pub fn lines(&self) -> &[Line]
        ensures { result.now ≡ self.now.lines }
    {
        &self.lines
    }

    /// The end.
    pub fn end(&self) -> Item
        ensures { result ≡ self.now.end }
    {
        self.end
    }
}
