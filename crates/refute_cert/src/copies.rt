//! Copies of what a refutation keeps, by new places.
ghost use Rattle.std.specs.Prelude.{◌≡◌, ◌<◌, ℕ, List, IfOk, length, slice_get};
ghost use Rattle.std.specs.declared.option.Option.{Option};
ghost use Rattle.std.specs.declared.option.Option.TheVariants.{None, Some};
ghost use Rattle.sparse_poly.specs.Contributions.{IsPoly};
ghost use Rattle.derive_lines.specs.Lines.{multiplier};
ghost use Rattle.derive_lines.specs.declared.parts.Decision.{Decision};
ghost use Rattle.derive_lines.specs.declared.parts.Line.{Line};
ghost use Rattle.refute_cert.specs.Cone.{AscendFrom, IsAmong, StandsAt, IsRenumbered, IsRenumberedOperand, IsRenumberedLine, HavePolyMultipliers};
ghost use Rattle.refute_cert.specs.Renumbering.{HasPlace, HasPlaces, AllHavePlaces, AllWithin};

use crate::kept::multiplier;
use derive_lines::{Decision, Item, Line};
use std::alloc::{AllocError, Global};

/// The decisions at these places. It fails only where no memory is left.
pub fn copied_decisions(
    alloc: Global,
    decisions: &[Decision],
    places: &[usize],
) -> Result<Vec<Decision>, AllocError>
    requires { AllWithin places.now (length decisions.now) }
    ensures length { IfOk result (λ v. length v.items ≡ length places.now) }
    ensures each { IfOk result (λ v. (i : ℕ) (d : Decision) → slice_get v.items i ≡ Some d → StandsAt decisions.now places.now i (λ (old : Decision). old ≡ d)) }
{
    let mut copies = Vec::new(alloc);
    let mut i = 0;
    'places: while i < places.len() {
        let decision = decision_at(decisions, place_at(places, i));
        copies.push(copied_decision(decision)?)?;
        i += 1;
    }
    Ok(copies)
}

/// The lines at the kept places, with their items by new places. It fails only where no memory is left.
pub fn copied_lines(
    alloc: Global,
    lines: &[Line],
    of_decisions: &[usize],
    of_lines: &[usize],
) -> Result<Vec<Line>, AllocError>
    requires decisions { AscendFrom 0 of_decisions.now }
    requires lines { AscendFrom 0 of_lines.now }
    requires within { AllWithin of_lines.now (length lines.now) }
    requires places { AllHavePlaces lines.now of_decisions.now of_lines.now }
    ensures length { IfOk result (λ v. length v.items ≡ length of_lines.now) }
    ensures polys { IfOk result (λ v. HavePolyMultipliers v.items) }
    ensures each { IfOk result (λ v. (i : ℕ) (new : Line) → slice_get v.items i ≡ Some new → StandsAt lines.now of_lines.now i (λ (old : Line). IsRenumberedLine of_decisions.now of_lines.now old new)) }
{
    let mut copies = Vec::new(alloc);
    let mut i = 0;
    'places: while i < of_lines.len() {
        let line = line_at(lines, place_at(of_lines, i));
        copies.push(copied_line(line, of_decisions, of_lines)?)?;
        i += 1;
    }
    Ok(copies)
}

// The place that stands here.
fn place_at(places: &[usize], i: usize) -> usize
    requires { i < length places.now }
    ensures { slice_get places.now i ≡ Some result }
{
    places[i]
}

// The decision at a place.
fn decision_at(decisions: &[Decision], k: usize) -> &Decision
    requires { k < length decisions.now }
    ensures { slice_get decisions.now k ≡ Some result.now }
{
    &decisions[k]
}

/// The line at a place.
pub fn line_at(lines: &[Line], k: usize) -> &Line
    requires { k < length lines.now }
    ensures { slice_get lines.now k ≡ Some result.now }
{
    &lines[k]
}

// An equal decision.
fn copied_decision(decision: &Decision) -> Result<Decision, AllocError>
    ensures { IfOk result (λ d. decision.now ≡ d) }
{
    Ok(Decision {
        poly: decision.poly.copy()?,
        zero: decision.zero,
    })
}

// A line with its items by new places.
fn copied_line(line: &Line, of_decisions: &[usize], of_lines: &[usize]) -> Result<Line, AllocError>
    requires decisions { AscendFrom 0 of_decisions.now }
    requires lines { AscendFrom 0 of_lines.now }
    requires from { HasPlaces of_decisions.now of_lines.now line.now.from }
    requires by { HasPlaces of_decisions.now of_lines.now line.now.by }
    ensures line { IfOk result (λ new. IsRenumberedLine of_decisions.now of_lines.now line.now new) }
    ensures poly { IfOk result (λ new. IsPoly (multiplier new)) }
{
    let _terms = multiplier(line).terms();
    Ok(Line {
        way: line.way,
        from: renumbered_operand(line.from, of_decisions, of_lines),
        by: renumbered_operand(line.by, of_decisions, of_lines),
        l: line.l.copy()?,
        a: line.a.copy()?,
        m: line.m.copy()?,
        made: line.made.copy()?,
    })
}

// The same for an item that may be absent.
fn renumbered_operand(
    item: Option<Item>,
    of_decisions: &[usize],
    of_lines: &[usize],
) -> Option<Item>
    requires decisions { AscendFrom 0 of_decisions.now }
    requires lines { AscendFrom 0 of_lines.now }
    requires place { HasPlaces of_decisions.now of_lines.now item }
    ensures { IsRenumberedOperand of_decisions.now of_lines.now item result }
{
    match item {
        Some(item) => Some(renumbered(item, of_decisions, of_lines)),
        None => None,
    }
}

/// An item by its new place.
pub fn renumbered(item: Item, of_decisions: &[usize], of_lines: &[usize]) -> Item
    requires decisions { AscendFrom 0 of_decisions.now }
    requires lines { AscendFrom 0 of_lines.now }
    requires place { HasPlace of_decisions.now of_lines.now item }
    ensures { IsRenumbered of_decisions.now of_lines.now item result }
{
    match item {
        Item::Root(i) => Item::Root(i),
        Item::Decision(j) => Item::Decision(place_of(of_decisions, j as usize) as u64),
        Item::Line(k) => Item::Line(place_of(of_lines, k as usize) as u64),
    }
}

// Where a place stands among others.
fn place_of(places: &[usize], k: usize) -> usize
    requires ascend { AscendFrom 0 places.now }
    requires among { IsAmong places.now k }
    ensures { slice_get places.now result ≡ Some k }
{
    match places.binary_search(&k) {
        Ok(i) => i,
        Err(_) => unreachable!(),
    }
}
