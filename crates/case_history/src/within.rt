//! Whether a pattern is within decisions, as a close by it asks.
ghost use Rattle.std.specs.Prelude.{◌↔◌, IsTrue, Contains, ◌≡◌};
ghost use Rattle.refute_store.specs.Live.{IsWithin};

use derive_lines::{Decision, is_same};

/// Whether each decision of a pattern is among the decisions of a case. Only then may a close of the case name the pattern.
pub fn is_within(pattern: &[Decision], decisions: &[Decision]) -> bool
    ensures { IsTrue result ↔ IsWithin pattern.now decisions.now }
{
    for decision in pattern {
        if !is_among(decision, decisions) {
            return false;
        }
    }
    true
}

// Whether a decision is among decisions.
fn is_among(decision: &Decision, decisions: &[Decision]) -> bool
    ensures { IsTrue result ↔ Contains decisions.now decision.now }
{
    for other in decisions {
        if is_decision(other, decision) {
            return true;
        }
    }
    false
}

// Whether two decisions are the same.
fn is_decision(first: &Decision, second: &Decision) -> bool
    ensures { IsTrue result ↔ (first.now ≡ second.now) }
{
    if first.zero != second.zero {
        return false;
    }
    is_same(&first.poly, &second.poly)
}
