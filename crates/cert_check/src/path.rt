//! The decisions of a case, borrowed from the splits that made it.
ghost use Rattle.std.specs.Prelude.{◌≡◌, ◌↔◌, [], IfOk, IsTrue, Contains};
ghost use Rattle.derive_lines.specs.Refuting.{decided};
ghost use Rattle.refute_store.specs.Live.{IsWithin};

use derive_lines::{Decision, is_same};
use sparse_poly::Poly;
use std::alloc::{AllocError, Global};
use std::marker::Model;

/// A decision over a borrowed polynomial, seen as that decision.
#[derive(Drop)]
pub struct Choice<'a> {
    poly: &'a Poly,
    zero: bool,
}

impl<'a> Model for Choice<'a> {
    ghost use Rattle.derive_lines.specs.declared.parts.Decision.{Decision};

    ghost Value = { Decision };

    ghost view = { λ c. record { poly = c.poly.now; zero = c.zero } };
}

impl<'a> Choice<'a> {
    // The same choice.
    fn copy(&self) -> Choice<'a>
        ensures { result ≡ self.now }
    {
        Choice {
            poly: self.poly,
            zero: self.zero,
        }
    }

    // Whether this is a decision.
    fn is(&self, decision: &Decision) -> bool
        ensures { IsTrue result ↔ (self.now ≡ decision.now) }
    {
        if self.zero != decision.zero {
            return false;
        }
        is_same(self.poly, &decision.poly)
    }
}

/// The decisions of a case, in order, seen as their list.
#[derive(Drop)]
pub struct Path<'a> {
    choices: Vec<Choice<'a>>,
}

impl<'a> Model for Path<'a> {
    ghost use Rattle.std.specs.Prelude.{List};
    ghost use Rattle.derive_lines.specs.declared.parts.Decision.{Decision};

    ghost Value = { List Decision };

    ghost view = { λ p. p.choices.items };
}

impl<'a> Path<'a> {
    /// No decisions.
    pub fn root(alloc: Global) -> Path<'a>
        ensures { result ≡ [] }
    {
        Path {
            choices: Vec::new(alloc),
        }
    }

    /// These decisions with one more. It fails only where no memory is left.
    pub fn decided(&self, alloc: Global, by: &'a Poly, zero: bool) -> Result<Path<'a>, AllocError>
        ensures { IfOk result (λ p. p ≡ decided self.now by.now zero) }
    {
        let mut choices = copies(alloc, &self.choices)?;
        choices.push(Choice { poly: by, zero })?;
        Ok(Path { choices })
    }

    /// Whether these are the decisions, in order.
    pub fn is(&self, decisions: &[Decision]) -> bool
        ensures { IsTrue result ↔ (decisions.now ≡ self.now) }
    {
        are_decisions(&self.choices, decisions)
    }

    /// Whether each decision of a pattern is among these.
    pub fn has_within(&self, pattern: &[Decision]) -> bool
        ensures { IsTrue result ↔ IsWithin pattern.now self.now }
    {
        are_among(pattern, &self.choices)
    }
}

// The same choices, with room for one more.
fn copies<'a>(alloc: Global, choices: &[Choice<'a>]) -> Result<Vec<Choice<'a>>, AllocError>
    ensures { IfOk result (λ v. v.items ≡ choices.now) }
{
    let mut copies = Vec::with_capacity(alloc, choices.len() + 1)?;
    for choice in choices {
        copies.push(choice.copy())?;
    }
    Ok(copies)
}

// Whether choices are the decisions, in order.
fn are_decisions(choices: &[Choice<'_>], decisions: &[Decision]) -> bool
    ensures { IsTrue result ↔ (decisions.now ≡ choices.now) }
{
    if choices.len() != decisions.len() {
        return false;
    }
    for (i, choice) in choices.iter().enumerate() {
        if !choice.is(&decisions[i]) {
            return false;
        }
    }
    true
}

// Whether decisions are all among choices.
fn are_among(decisions: &[Decision], choices: &[Choice<'_>]) -> bool
    ensures { IsTrue result ↔ IsWithin decisions.now choices.now }
{
    for decision in decisions {
        if !is_among(decision, choices) {
            return false;
        }
    }
    true
}

// Whether a decision is among choices.
fn is_among(decision: &Decision, choices: &[Choice<'_>]) -> bool
    ensures { IsTrue result ↔ Contains choices.now decision.now }
{
    for choice in choices {
        if choice.is(decision) {
            return true;
        }
    }
    false
}
