//! The parts of a case, as lists that are shown.

ghost use Rattle.std.specs.Prelude.{◌≡◌, ◌≢◌, ◌<◌, ◌↔◌, [], IsTrue, IfOk, MatchOption, length, slice_get};
ghost use Rattle.std.specs.declared.option.Option.TheVariants.{Some};
ghost use Rattle.sparse_poly.specs.Reads.{degree_in};
ghost use Rattle.sparse_poly.specs.Clearing.{IsDividedBy};
ghost use Rattle.case_rules.specs.Cases.{equation_at, polys_of};
ghost use Rattle.case_rules.specs.Rules.{None_has, IsLowestDividing};

use crate::copies::{copied_decisions, polys_of};
use case_rules::Equation;
use case_system::{CaseLines, System};
use derive_lines::{Decision, Item, Line};
use sparse_poly::Poly;
use std::alloc::{AllocError, Global};
use std::marker::Model;

/// Decisions, seen as a list.
#[derive(Drop)]
pub struct Decisions<'a> {
    pub(crate) list: &'a [Decision],
}

impl<'a> Model for Decisions<'a> {
    ghost use Rattle.std.specs.Prelude.{List};
    ghost use Rattle.derive_lines.specs.declared.parts.Decision.{Decision};

    ghost Value = { List Decision };

    ghost view = { λ d. d.list.now };
}

/// Equations with their items, seen as a list.
#[derive(Drop)]
pub struct Equations<'a> {
    pub(crate) system: &'a System,
}

impl<'a> Model for Equations<'a> {
    ghost use Rattle.std.specs.Prelude.{List};
    ghost use Rattle.case_rules.specs.declared.equation.Equation.{Equation};

    ghost Value = { List Equation };

    ghost view = { λ d. d.system.now.equations };
}

/// Lines, seen as a list.
#[derive(Drop)]
pub struct Lines<'a> {
    pub(crate) lines: &'a CaseLines,
}

impl<'a> Model for Lines<'a> {
    ghost use Rattle.std.specs.Prelude.{List};
    ghost use Rattle.derive_lines.specs.declared.parts.Line.{Line};
    ghost use Rattle.case_system.specs.CaseLines.{all_lines};

    ghost Value = { List Line };

    ghost view = { λ d. all_lines d.lines.now };
}

impl<'a> Decisions<'a> {
    /// How many there are.
    pub fn len(&self) -> u64
        ensures { result ≡ length self.now }
    {
        self.list.len() as u64
    }

    /// Copies of all of them, the oldest first. It fails only where no memory is left.
    pub fn copies(&self, alloc: Global) -> Result<Vec<Decision>, AllocError>
        ensures { IfOk result (λ v. v.items ≡ self.now) }
    {
        copied_decisions(alloc, self.list)
    }

    /// All of them, the oldest first.
    pub fn as_slice(&self) -> &'a [Decision]
        ensures { result.now ≡ self.now }
    {
        self.list
    }

    /// The decision at a place.
    pub fn at(&self, i: u64) -> &'a Decision
        requires { i < length self.now }
        ensures { slice_get self.now i ≡ Some result.now }
    {
        decision(self.list, i)
    }
}

impl<'a> Equations<'a> {
    /// How many there are.
    pub fn len(&self) -> u64
        ensures { result ≡ length self.now }
    {
        self.system.equations().len() as u64
    }

    /// Copies of all their polynomials, in ascending order. It fails only where no memory is left.
    pub fn polys(&self, alloc: Global) -> Result<Vec<Poly>, AllocError>
        ensures { IfOk result (λ v. v.items ≡ polys_of self.now) }
    {
        polys_of(alloc, self.system.equations())
    }

    /// The polynomial of the equation at a place.
    pub fn at(&self, i: u64) -> &'a Poly
        requires { i < length self.now }
        ensures { result.now ≡ (equation_at self.now i).poly }
    {
        &equation(self.system.equations(), i).poly
    }

    /// The item that is kept for the equation at a place.
    pub fn item(&self, i: u64) -> Item
        requires { i < length self.now }
        ensures { result ≡ (equation_at self.now i).item }
    {
        equation(self.system.equations(), i).item
    }

    /// Whether a variable occurs in the equation at a place. It is mostly told without reading the polynomial where the variable does not occur.
    #[inline(always)]
    pub fn contains(&self, i: u64, var: u32) -> bool
        requires { i < length self.now }
        ensures { IsTrue result ↔ (0 < degree_in var (equation_at self.now i).poly) }
    {
        self.system.contains(i, var)
    }

    /// The lowest variable that divides the equation at a place. It is mostly told without reading the polynomial where none divides.
    #[inline(always)]
    pub fn lowest_dividing(&self, i: u64) -> Option<u32>
        requires place { i < length self.now }
        requires nonzero { (equation_at self.now i).poly ≢ [] }
        ensures { MatchOption result (None_has (λ v. IsDividedBy v (equation_at self.now i).poly)) (IsLowestDividing (equation_at self.now i).poly) }
    {
        self.system.lowest_dividing(i)
    }
}

impl<'a> Lines<'a> {
    /// How many there are.
    pub fn len(&self) -> u64
        ensures { result ≡ length self.now }
    {
        self.lines.len() as u64
    }

    /// Copies of all of them, the oldest first. It fails only where no memory is left.
    pub fn copies(&self, alloc: Global) -> Result<Vec<Line>, AllocError>
        ensures { IfOk result (λ v. v.items ≡ self.now) }
    {
        self.lines.copies(alloc)
    }
}

// The equation at a place.
fn equation(list: &[Equation], i: u64) -> &Equation
    requires { i < length list.now }
    ensures { result.now ≡ equation_at list.now i }
{
    &list[i as usize]
}

// The decision at a place.
fn decision(list: &[Decision], i: u64) -> &Decision
    requires { i < length list.now }
    ensures { slice_get list.now i ≡ Some result.now }
{
    &list[i as usize]
}
