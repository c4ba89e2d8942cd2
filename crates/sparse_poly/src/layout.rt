//! The layout in which the monomials of a product are words.
ghost use Rattle.std.specs.Prelude.{◌≡◌, ◌≤◌, length, IsTrue, IfOk, IfSome};
ghost use Rattle.monomial.specs.Layouts.{IsLayout};
ghost use Rattle.sparse_poly.specs.Packing.{AllFit};

use crate::Term;
use arrayvec::ArrayVec;
use monomial::{Form, Layout, Monomial};
use std::alloc::{AllocError, Global};

/// The layout for `l*q - a*p`, and `None` where words don't serve: where more than eight variables occur or one from 65,536 on, an exponent is
/// above 32,767, or the terms are stored in several ways and there are less than three contributions for each.
pub fn layout_for(alloc: Global, l: &[Term], q: &[Term], a: &[Term], p: &[Term]) -> Option<Layout>
    ensures layout { IfSome result IsLayout }
    ensures l { IfSome result (λ y. AllFit y l.now) }
    ensures q { IfSome result (λ y. AllFit y q.now) }
    ensures a { IfSome result (λ y. AllFit y a.now) }
    ensures p { IfSome result (λ y. AllFit y p.now) }
{
    if let Some(layout) = stored_layout(q) {
        if all_factors_fit(&layout, l, q, a, p) {
            return Some(layout);
        }
    }
    if are_few(l, q, a, p) {
        return None;
    }
    let layout = common_layout(alloc, l, q, a, p)?;
    all_factors_fit(&layout, l, q, a, p).then_some(layout)
}

/// Whether there are less than three contributions to `l*q - a*p` for each term of the factors.
#[inline(always)]
pub fn are_few(l: &[Term], q: &[Term], a: &[Term], p: &[Term]) -> bool {
    let contributions = (l.len().saturating_mul(q.len())).saturating_add(
        a.len().saturating_mul(p.len()),
    );
    let terms = (l.len().saturating_add(q.len())).saturating_add(a.len().saturating_add(p.len()));
    contributions / 3 < terms
}

/// The same terms, which are stored as words of one layout where they fit one. One or two terms are so only where their variables are below
/// eight: then all such polynomials have one layout.
pub fn laid(alloc: Global, terms: Vec<Term>) -> Vec<Term>
    ensures { result.items ≡ terms.items }
{
    if terms.len() < 3 && !has_low_variables(&terms) {
        return terms;
    }
    let mut terms = terms;
    if let Some(layout) = common_layout(alloc, &terms, &[], &[], &[]) {
        lay(alloc, &mut terms, &layout);
    }
    terms
}

// Whether all variables are below eight.
fn has_low_variables(terms: &[Term]) -> bool {
    for term in terms {
        if let Some(var) = term.monomial.top() {
            if var >= 8 {
                return false;
            }
        }
    }
    true
}

/// Whether the first monomial is stored as a word.
#[inline(always)]
pub fn is_laid(terms: &[Term]) -> bool {
    stored_layout(terms).is_some()
}

/// Equal terms, whose monomials are not stored as words.
pub fn without_layout(alloc: Global, terms: &[Term]) -> Result<Vec<Term>, AllocError>
    ensures { IfOk result (λ v. v.items ≡ terms.now) }
{
    let mut listed = Vec::with_capacity(alloc, terms.len())?;
    for term in terms {
        let monomial = listed_powers(alloc, &term.monomial)?;
        listed.push(Term {
            monomial,
            coeff: term.coeff,
        })?;
    }
    Ok(listed)
}

/// The same monomial, not stored as a word.
pub fn listed_powers(alloc: Global, monomial: &Monomial) -> Result<Monomial, AllocError>
    ensures { IfOk result (λ m. m ≡ monomial.now) }
{
    match monomial.form() {
        Form::Word { .. } => Monomial::of_powers(alloc, monomial.powers()),
        Form::Powers(_) => monomial.copy(),
    }
}

// Stores the monomials of terms as words of a layout, where they fit.
fn lay(alloc: Global, terms: &mut [Term], layout: &Layout)
    ensures { terms.new ≡ terms.old }
{
    for term in terms {
        if let Some(word) = as_word(alloc, &term.monomial, layout) {
            term.monomial = word;
        }
    }
}

// The same monomial, stored as a word of a layout, if it fits.
#[inline(always)]
fn as_word(alloc: Global, monomial: &Monomial, layout: &Layout) -> Option<Monomial>
    ensures { IfSome result (λ m. m ≡ monomial.now) }
{
    let _form = monomial.form();
    let word = monomial.word_in(layout)?;
    Some(Monomial::of_word(alloc, layout, word))
}

/// The same monomial, stored as a word of the layout of another, where that is stored so and the layout has its variables.
pub fn stored_as(alloc: Global, monomial: Monomial, other: &Monomial) -> Monomial
    ensures { result ≡ monomial }
{
    let Form::Word { layout, .. } = other.form() else {
        return monomial;
    };
    match as_word(alloc, &monomial, layout) {
        Some(word) => word,
        None => monomial,
    }
}

// The layout of the first term, if it is stored as a word.
#[inline(always)]
fn stored_layout(terms: &[Term]) -> Option<Layout> {
    match terms.first()?.monomial.form() {
        Form::Word { layout, .. } => Some(layout.copy()),
        Form::Powers(_) => None,
    }
}

// Whether all monomials of four factors fit a layout.
fn all_factors_fit(layout: &Layout, l: &[Term], q: &[Term], a: &[Term], p: &[Term]) -> bool
    ensures layout { IsTrue result → IsLayout layout.now }
    ensures l { IsTrue result → AllFit layout.now l.now }
    ensures q { IsTrue result → AllFit layout.now q.now }
    ensures a { IsTrue result → AllFit layout.now a.now }
    ensures p { IsTrue result → AllFit layout.now p.now }
{
    all_fit(layout, l) && all_fit(layout, q) && all_fit(layout, a) && all_fit(layout, p)
}

// Whether all monomials fit a layout.
fn all_fit(layout: &Layout, terms: &[Term]) -> bool
    ensures layout { IsTrue result → IsLayout layout.now }
    ensures fit { IsTrue result → AllFit layout.now terms.now }
{
    let _layout = layout.copy();
    for term in terms {
        let Some(_) = term.monomial.word_in(layout) else {
            return false;
        };
    }
    true
}

// A layout of all variables that occur in these terms, if there is one.
fn common_layout(alloc: Global, l: &[Term], q: &[Term], a: &[Term], p: &[Term]) -> Option<Layout> {
    let mut occurring = Occurring {
        variables: ArrayVec::new(),
        last: None,
        bits: 0,
    };
    if occurring.note_terms(alloc, l)
        && occurring.note_terms(alloc, q)
        && occurring.note_terms(alloc, a)
        && occurring.note_terms(alloc, p)
    {
        occurring.layout(alloc)
    } else {
        None
    }
}

// The variables that occur in monomials.
#[derive(Drop)]
struct Occurring {
    // At most eight, from the greatest down.
    variables: ArrayVec<u32, 8>,
    // The layout of the last monomial that was stored as a word, and all bits of the words in it: their variables are not noted yet.
    last: Option<Layout>,
    bits: u128,
}

impl Occurring {
    // Notes the variables of terms, and says whether there is room for all.
    fn note_terms(&mut self, alloc: Global, terms: &[Term]) -> bool {
        for term in terms {
            if !self.note_monomial(alloc, &term.monomial) {
                return false;
            }
        }
        true
    }

    // Notes the variables of a monomial, and says whether there is room for all.
    fn note_monomial(&mut self, alloc: Global, monomial: &Monomial) -> bool {
        if let Some(layout) = &self.last {
            if let Some(word) = monomial.word_in(layout) {
                self.bits |= word;
                return true;
            }
        }
        let Form::Word { layout, .. } = monomial.form() else {
            return self.note_powers(monomial);
        };
        let Some(word) = monomial.word_in(layout) else {
            return false;
        };
        let noted = self.note_last(alloc);
        self.last = Some(layout.copy());
        self.bits = word;
        noted
    }

    // Notes the variables of the words in the last layout, and says whether there is room for all.
    fn note_last(&mut self, alloc: Global) -> bool {
        let words = match &self.last {
            Some(layout) => Monomial::of_word(alloc, layout, self.bits),
            None => return true,
        };
        self.note_powers(&words)
    }

    // Notes the variables of powers, and says whether there is room for all.
    fn note_powers(&mut self, monomial: &Monomial) -> bool {
        for power in monomial.powers() {
            if power.1 > 32767 || !self.note_variable(power.0) {
                return false;
            }
        }
        true
    }

    // Notes a variable, and says whether there is room for it.
    fn note_variable(&mut self, var: u32) -> bool {
        let place = self.place_of(var);
        if place < self.variables.len() && self.variables.as_slice()[place] == var {
            return true;
        }
        if self.variables.len() >= 8 {
            return false;
        }
        self.variables.insert(place, var);
        true
    }

    // How many variables are greater.
    fn place_of(&self, var: u32) -> usize
        ensures { result ≤ length self.now.variables.items }
    {
        let variables = self.variables.as_slice();
        for place in 0..variables.len() {
            if variables[place] <= var {
                return place;
            }
        }
        variables.len()
    }

    // The layout of the variables, filled up with the least others.
    fn layout(mut self, alloc: Global) -> Option<Layout> {
        if self.variables.is_empty() {
            if let Some(layout) = &self.last {
                return Some(layout.copy());
            }
        }
        if !self.note_last(alloc) {
            return None;
        }
        for var in 0..8 {
            self.note_variable(var);
        }
        Layout::new(self.variables.as_slice())
    }
}
