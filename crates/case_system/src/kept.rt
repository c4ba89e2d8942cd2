//! Lists of equations in order.
ghost use Rattle.std.specs.Prelude.{◌≡◌, ◌≢◌, ◌<◌, List, [], IsTrue, IfOk, IfSome, MatchResult, length, remove, slice_set, vec_len, vec_capacity};
ghost use Rattle.sparse_poly.specs.declared.Term.{Term};
ghost use Rattle.case_rules.specs.Cases.{equation_at};
ghost use Rattle.case_rules.specs.Kept.{older, added, item_of};
ghost use Rattle.case_system.specs.Facts.{HasFacts, HaveFacts, with_facts, IsFactsPlace};
ghost use Rattle.case_system.specs.Outlines.{IsOutlineOf};
ghost use Rattle.case_system.specs.Places.{Ascend, StandsAt, GoesTo, HasPlace};

use crate::exchanging::exchange;
use crate::outline::Outline;
use case_rules::Equation;
use derive_lines::{Item, is_same};
use sparse_poly::Poly;
use std::alloc::{AllocError, Global};
use std::cmp::Ordering;

// Where a polynomial stands among equations, or else where it goes.
fn place_of(equations: &[Equation], poly: &Poly) -> Result<usize, usize>
    requires { Ascend equations.now }
    ensures { MatchResult result (StandsAt poly.now equations.now) (GoesTo poly.now equations.now) }
{
    if goes_last(equations, poly) {
        return Err(equations.len());
    }
    equations.binary_search_by(|equation| equation.poly.order(poly))
}

// Whether the last equation is below a polynomial. Equations that are made in order go to the end one after the other.
fn goes_last(equations: &[Equation], poly: &Poly) -> bool
    requires { Ascend equations.now }
    ensures { IsTrue result → GoesTo poly.now equations.now (length equations.now) }
{
    let n = equations.len();
    n > 0 && matches!(equations[n - 1].poly.order(poly), Ordering::Less)
}

// Of two items the older one.
fn older(first: Item, second: Item) -> Item
    ensures { result ≡ older first second }
{
    match first {
        Item::Line(k) => match second {
            Item::Line(n) => Item::Line(if n < k { n } else { k }),
            Item::Root(_) => second,
            Item::Decision(_) => second,
        },
        Item::Root(_) => first,
        Item::Decision(_) => first,
    }
}

// The equation at a place keeps the older of its item and another one.
fn keep_older(equations: &mut [Equation], i: usize, item: Item)
    requires { i < length equations.old }
    ensures { equations.new ≡ slice_set equations.old i (record { poly = (equation_at equations.old i).poly; item = older (equation_at equations.old i).item item }) }
{
    equations[i].item = older(equations[i].item, item);
}

// Adds an equation at its place in the order, and answers the place of a polynomial that is new. Zero is dropped, and of two equations with one
// polynomial the older item stays.
fn add_equation(equations: &mut Vec<Equation>, equation: Equation) -> Option<u64>
    requires room { vec_len equations.old < vec_capacity equations.old }
    requires ascending { Ascend equations.old.items }
    ensures added { equations.new.items ≡ added equation equations.old.items }
    ensures place { HasPlace equation.poly equations.old.items result }
{
    if equation.poly.is_zero() {
        return None;
    }
    match place_of(equations, &equation.poly) {
        Ok(i) => {
            keep_older(equations, i, equation.item);
            None
        }
        Err(i) => {
            let Ok(()) = equations.insert(i, equation) else {
                unreachable!()
            };
            Some(i as u64)
        }
    }
}

// Adds facts where a new equation goes.
fn add_facts(list: &mut Vec<Facts>, place: Option<u64>, facts: Facts)
    requires room { vec_len list.old < vec_capacity list.old }
    requires place { IsFactsPlace place list.old.items }
    ensures { list.new.items ≡ with_facts place facts list.old.items }
{
    if let Some(i) = place {
        let Ok(()) = list.insert(i as usize, facts) else {
            unreachable!()
        };
    }
}

/// What is known of an equation: under how many of the known conditions, from the oldest on, it is clean, and its outline.
#[derive(Clone, Copy)]
pub struct Facts {
    pub clean: usize,
    pub outline: Outline,
}

impl Facts {
    /// The facts of a new equation, of which nothing is known but its polynomial.
    pub fn of(poly: &Poly) -> Facts
        ensures clean { result.clean ≡ 0 }
        ensures outline { IsOutlineOf poly.now result.outline }
    {
        Facts {
            clean: 0,
            outline: Outline::of(poly),
        }
    }
}

/// An equation, and what is known of it.
#[derive(Drop)]
pub struct Kept {
    pub equation: Equation,
    pub facts: Facts,
}

impl Kept {
    /// A new equation.
    pub fn new(equation: Equation) -> Kept
        ensures equation { result.equation ≡ equation }
        ensures clean { result.facts.clean ≡ 0 }
        ensures outline { IsOutlineOf equation.poly result.facts.outline }
    {
        let facts = Facts::of(&equation.poly);
        Kept { equation, facts }
    }
}

/// Equations, and what is known of each.
#[derive(Drop)]
pub struct KeptList {
    pub equations: Vec<Equation>,
    pub facts: Vec<Facts>,
}

/// The facts of new equations. It fails only where no memory is left.
pub fn new_facts(alloc: Global, equations: &[Equation]) -> Result<Vec<Facts>, AllocError>
    ensures { IfOk result (λ v. (units : List (List Term)) → HaveFacts units equations.now v.items) }
{
    let mut list = Vec::with_capacity(alloc, equations.len())?;
    for equation in equations {
        list.push(Facts::of(&equation.poly))?;
    }
    Ok(list)
}

/// Adds an equation at its place in the order, and answers the place of a polynomial that is new. Zero is dropped, and of two equations with
/// one polynomial the older item stays.
pub fn add_in_room(list: &mut KeptList, kept: Kept) -> Option<u64>
    requires room { vec_len list.old.equations < vec_capacity list.old.equations }
    requires facts_room { vec_len list.old.facts < vec_capacity list.old.facts }
    requires ascending { Ascend list.old.equations.items }
    requires facts { length list.old.facts.items ≡ length list.old.equations.items }
    ensures added { list.new.equations.items ≡ added kept.equation list.old.equations.items }
    ensures place { HasPlace kept.equation.poly list.old.equations.items result }
    ensures known { (units : List (List Term)) → HaveFacts units list.old.equations.items list.old.facts.items → HasFacts units kept.equation.poly kept.facts → HaveFacts units list.new.equations.items list.new.facts.items }
{
    let place = add_equation(&mut list.equations, kept.equation);
    add_facts(&mut list.facts, place, kept.facts);
    place
}

/// The same, where room may be wanting. It fails only where no memory is left.
pub fn add(list: &mut KeptList, kept: Kept) -> Result<(), AllocError>
    requires ascending { Ascend list.old.equations.items }
    requires facts { length list.old.facts.items ≡ length list.old.equations.items }
    ensures added { IfOk result (λ _. list.new.equations.items ≡ added kept.equation list.old.equations.items) }
    ensures ascending { Ascend list.new.equations.items }
    ensures known { (units : List (List Term)) → HaveFacts units list.old.equations.items list.old.facts.items → HasFacts units kept.equation.poly kept.facts → HaveFacts units list.new.equations.items list.new.facts.items }
{
    list.equations.reserve(1)?;
    list.facts.reserve(1)?;
    let _place = add_in_room(list, kept);
    Ok(())
}

// The place where a polynomial goes among the equations other than that at q, unless it is zero or stands among all of them.
fn place_beside(equations: &[Equation], q: usize, poly: &Poly) -> Option<usize>
    requires place { q < length equations.now }
    requires ascending { Ascend equations.now }
    ensures goes { IfSome result (GoesTo poly.now (remove equations.now q)) }
    ensures nonzero { IfSome result (λ _. poly.now ≢ []) }
{
    if poly.is_zero() {
        return None;
    }
    match equations.binary_search_by(|equation| equation.poly.order(poly)) {
        Ok(_) => None,
        Err(i) => Some(if i <= q { i } else { i - 1 }),
    }
}

/// Adds an equation to those other than that at a place, which is dropped, and answers the place of a polynomial that is new. Zero is dropped,
/// and of two equations with one polynomial the older item stays.
pub fn replace_at(list: &mut KeptList, q: usize, kept: Kept) -> Option<u64>
    requires place { q < length list.old.equations.items }
    requires ascending { Ascend list.old.equations.items }
    requires facts { length list.old.facts.items ≡ length list.old.equations.items }
    ensures added { list.new.equations.items ≡ added kept.equation (remove list.old.equations.items q) }
    ensures place { HasPlace kept.equation.poly (remove list.old.equations.items q) result }
    ensures known { (units : List (List Term)) → HaveFacts units list.old.equations.items list.old.facts.items → HasFacts units kept.equation.poly kept.facts → HaveFacts units list.new.equations.items list.new.facts.items }
{
    let Some(to) = place_beside(&list.equations, q, &kept.equation.poly) else {
        let _replaced = list.equations.remove(q);
        let _facts = list.facts.remove(q);
        return add_in_room(list, kept);
    };
    let Kept { equation, facts } = kept;
    let _replaced = exchange(&mut list.equations, q, equation, to);
    let _facts = exchange(&mut list.facts, q, facts, to);
    Some(to as u64)
}

/// The item of a polynomial among equations, and another item where it does not stand there.
pub fn item_of(equations: &[Equation], poly: &Poly, other: Item) -> Item
    ensures { result ≡ item_of poly.now other equations.now }
{
    for equation in equations {
        if is_same(&equation.poly, poly) {
            return equation.item;
        }
    }
    other
}
