//! The replay of entries, one after the other.
ghost use Rattle.std.specs.Prelude.{◌≡◌, ◌<◌, ◌≤◌, List, [], ◌∷◌, length, slice_get, slice_set, IfOk, MatchOption, MatchResult};
ghost use Rattle.std.specs.declared.option.Option.TheVariants.{None, Some};
ghost use Rattle.sparse_poly.specs.declared.Term.{Term};
ghost use Rattle.derive_lines.specs.declared.parts.Decision.{Decision};
ghost use Rattle.refute_cert.specs.Refutations.{IsCertStop};
ghost use Rattle.leaf_cert.specs.Leaves.{IsLeafStop};
ghost use Rattle.leaf_cert.specs.declared.certificate.RawEntry.TheVariants.{Split, Post, Close, Publish};
ghost use Rattle.case_history.specs.History.{decisions_of, patterns, IsPending, IsLeastPending, IsComplete};
ghost use Rattle.case_history.specs.Replay.{MayClose};
ghost use Rattle.cert_check.specs.Kept.{IsReplay, AreAllSettled, IsFirstKept};
ghost use Rattle.cert_check.specs.Refusals.{IsCloseCause, IsEntryStop};

use crate::answers::{AcceptStop, Part, RefuseCause};
use crate::path::Path;
use derive_lines::{Decision, Item, Line};
use leaf_cert::{LeafEnd, LeafStop, RawEntry, Rows, check_leaf};
use refute_cert::{CertStop, check_refutation};
use sparse_poly::Poly;
use std::alloc::{AllocError, Global};
use std::marker::Model;

/// What is kept of the entries replayed so far, whose polynomials are borrowed: of each case that was made its decisions, while it is pending, and
/// the patterns.
#[derive(Drop)]
pub struct Replay<'a> {
    cases: Vec<Option<Path<'a>>>,
    patterns: Vec<&'a Rows<Decision>>,
}

impl<'a> Model for Replay<'a> {
    ghost use Rattle.cert_check.specs.Kept.{ReplayParts, lists_of};

    ghost Value = { ReplayParts };

    ghost view = { λ r. record { cases = r.cases.items; stored = lists_of r.patterns.items } };
}

impl<'a> Replay<'a> {
    /// What is kept before the first entry: the root case is pending. It fails only where no memory is left.
    pub fn new(alloc: Global) -> Result<Replay<'a>, AllocError>
        ensures { IfOk result (λ r. (root : List (List Term)) → IsReplay root [] r) }
    {
        let mut cases = Vec::new(alloc);
        cases.push(Some(Path::root(alloc)))?;
        Ok(Replay {
            cases,
            patterns: Vec::new(alloc),
        })
    }

    /// Replays one more entry. A refusal says its part, its number and its first cause; what is kept then is that of no history.
    pub fn enter(
        &mut self,
        alloc: Global,
        root: &[Poly],
        entry: &'a RawEntry,
    ) -> Result<(), AcceptStop>
        ensures { (h : _) → IsReplay root.now h self.old → MatchResult result (λ _. IsReplay root.now (entry.now ∷ h) self.new) (IsEntryStop root.now h entry.now) }
    {
        match entry {
            RawEntry::Split { n, by } => self.split(alloc, *n, by),
            RawEntry::Post {
                decisions,
                lines,
                end,
            } => self.post(alloc, root, decisions, lines.items(), *end),
            RawEntry::Close { n, k } => self.close(*n, *k),
            RawEntry::Publish {
                n,
                decisions,
                lines,
                equations,
                end,
            } => self.publish(
                alloc,
                root,
                *n,
                decisions.items(),
                lines.items(),
                equations.items(),
                end,
            ),
        }
    }

    /// The number of the least pending case, if one is pending.
    pub fn least_pending(&self) -> Option<u64>
        ensures { (root h : _) → IsReplay root h self.now → MatchOption result (IsComplete h) (IsLeastPending h) }
    {
        Some(first_kept(&self.cases)? as u64)
    }

    // The decisions of a case, if it is pending.
    fn pending(&self, n: u64) -> Option<&Path<'a>>
        ensures { MatchOption result ((ds : List Decision) → slice_get self.now.cases n ≡ Some (Some ds) → ⊥) (λ path. slice_get self.now.cases n ≡ Some (Some path.now)) }
    {
        self.cases.get(n as usize)?.as_ref()
    }

    // The pattern of a number, if it was posted.
    fn pattern(&self, k: u64) -> Option<&'a Rows<Decision>>
        ensures { MatchOption result (length self.now.stored ≤ k) (λ pattern. slice_get self.now.stored k ≡ Some pattern.now) }
    {
        self.patterns.get(k as usize).copied()
    }

    // Settles a case.
    fn settle(&mut self, n: u64)
        requires { n < length self.old.cases }
        ensures { self.new ≡ record { cases = slice_set self.old.cases n None; stored = self.old.stored } }
    {
        self.cases[n as usize] = None;
    }

    // Splits a case by a polynomial.
    fn split(&mut self, alloc: Global, n: u64, by: &'a Poly) -> Result<(), AcceptStop>
        ensures { (root h : _) → IsReplay root h self.old → MatchResult result (λ _. IsReplay root (Split n by.now ∷ h) self.new) (IsEntryStop root h (Split n by.now)) }
    {
        let Some(path) = self.pending(n) else {
            return Err(AcceptStop::Refused {
                part: Part::Split,
                number: n,
                cause: RefuseCause::NotPending,
            });
        };
        let zero = path.decided(alloc, by, true)?;
        let nonzero = path.decided(alloc, by, false)?;
        self.settle(n);
        self.cases.push(Some(zero))?;
        self.cases.push(Some(nonzero))?;
        Ok(())
    }

    // Posts the pattern of a refutation.
    fn post(
        &mut self,
        alloc: Global,
        root: &[Poly],
        decisions: &'a Rows<Decision>,
        lines: &[Line],
        end: Item,
    ) -> Result<(), AcceptStop>
        ensures { (h : _) → IsReplay root.now h self.old → MatchResult result (λ _. IsReplay root.now (Post decisions.now lines.now end ∷ h) self.new) (IsEntryStop root.now h (Post decisions.now lines.now end)) }
    {
        if let Err(stop) = check_refutation(alloc, root, decisions.items(), lines, end) {
            return Err(pattern_stop(self.patterns.len() as u64, stop));
        }
        self.patterns.push(decisions)?;
        Ok(())
    }

    // Closes a case by a pattern.
    fn close(&mut self, n: u64, k: u64) -> Result<(), AcceptStop>
        ensures { (root h : _) → IsReplay root h self.old → MatchResult result (λ _. IsReplay root (Close n k ∷ h) self.new) (IsEntryStop root h (Close n k)) }
    {
        if let Some(cause) = self.close_cause(n, k) {
            return Err(AcceptStop::Refused {
                part: Part::Close,
                number: n,
                cause,
            });
        }
        self.settle(n);
        Ok(())
    }

    // Why a case may not be closed by a pattern, if it may not.
    fn close_cause(&self, n: u64, k: u64) -> Option<RefuseCause>
        ensures cause { (root h : _) → IsReplay root h self.now → MatchOption result (MayClose h n k) (IsCloseCause h n k) }
        ensures made { MatchOption result (n < length self.now.cases) (λ _. Unit {0}) }
    {
        let Some(path) = self.pending(n) else {
            return Some(RefuseCause::NotPending);
        };
        let Some(pattern) = self.pattern(k) else {
            return Some(RefuseCause::NotStored);
        };
        if !path.has_within(pattern.items()) {
            return Some(RefuseCause::NotWithin);
        }
        None
    }

    // Publishes the leaf of a case.
    fn publish(
        &mut self,
        alloc: Global,
        root: &[Poly],
        n: u64,
        decisions: &[Decision],
        lines: &[Line],
        equations: &[Poly],
        end: &LeafEnd,
    ) -> Result<(), AcceptStop>
        ensures { (h : _) → IsReplay root.now h self.old → MatchResult result (λ _. IsReplay root.now (Publish n decisions.now lines.now equations.now end.now ∷ h) self.new) (IsEntryStop root.now h (Publish n decisions.now lines.now equations.now end.now)) }
    {
        let Some(path) = self.pending(n) else {
            return Err(AcceptStop::Refused {
                part: Part::Leaf,
                number: n,
                cause: RefuseCause::NotPending,
            });
        };
        if !path.is(decisions) {
            return Err(AcceptStop::Refused {
                part: Part::Leaf,
                number: n,
                cause: RefuseCause::Decisions,
            });
        }
        if let Err(stop) = check_leaf(alloc, root, decisions, lines, equations, end) {
            return Err(leaf_stop(n, stop));
        }
        self.settle(n);
        Ok(())
    }
}

// The place of the first case whose decisions are kept.
fn first_kept(cases: &[Option<Path<'_>>]) -> Option<usize>
    ensures { MatchOption result (AreAllSettled cases.now) (IsFirstKept cases.now) }
{
    for (n, case) in cases.iter().enumerate() {
        if case.is_some() {
            return Some(n);
        }
    }
    None
}

// The answer to a refutation that is not good.
fn pattern_stop(number: u64, stop: CertStop) -> AcceptStop
    ensures { (root h ds ls end : _) → number ≡ length (patterns h) → IsCertStop root ds ls end stop → IsEntryStop root h (Post ds ls end) result }
{
    match stop {
        CertStop::Line { k, cause } => AcceptStop::Refused {
            part: Part::Pattern,
            number,
            cause: RefuseCause::Line { k, cause },
        },
        CertStop::End => AcceptStop::Refused {
            part: Part::Pattern,
            number,
            cause: RefuseCause::End,
        },
        CertStop::OutOfMemory => AcceptStop::OutOfMemory,
    }
}

// The answer to a leaf that is not good, where its case is pending and it has the decisions of the case.
fn leaf_stop(n: u64, stop: LeafStop) -> AcceptStop
    ensures { (root h ds ls es end : _) → IsPending h n → ds ≡ decisions_of h n → IsLeafStop root ds ls es end stop → IsEntryStop root h (Publish n ds ls es end) result }
{
    let cause = match stop {
        LeafStop::Line { k, cause } => RefuseCause::Line { k, cause },
        LeafStop::Equation { i } => RefuseCause::Equation { i },
        LeafStop::Lost { item } => RefuseCause::Lost { item },
        LeafStop::End => RefuseCause::End,
        LeafStop::OutOfMemory => return AcceptStop::OutOfMemory,
    };
    AcceptStop::Refused {
        part: Part::Leaf,
        number: n,
        cause,
    }
}
