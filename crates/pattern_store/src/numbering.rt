//! Numbers that stand for decisions.
ghost use Rattle.std.specs.Prelude.{◌<◌, ◌^◌, IfOk, OnOk, IfSome, MatchOption};
ghost use Rattle.std.specs.List.Sorted.{IsStrictlyIncreasing};
ghost use Rattle.pattern_store.specs.Numbers.{IsPlace, HasNoPlace, IsSetOf, IsNumbered, AllNamed, GrowsTo};

use derive_lines::Decision;
use indexmap::IndexSet;
use sparse_poly::Poly;
use std::alloc::{AllocError, Global};

// The numbers of the decisions, ascending, each once. Those that have none get one.
pub fn numbered(
    alloc: Global,
    names: &mut IndexSet<Poly>,
    decisions: &[Decision],
) -> Result<Vec<u64>, AllocError>
    ensures grows { GrowsTo names.old.keys names.new.keys }
    ensures set { IfOk result (λ v. IsNumbered names.new.keys v.items decisions.now) }
    ensures ascending { IfOk result (λ v. IsStrictlyIncreasing v.items) }
{
    name_all(names, decisions)?;
    literals(alloc, names, decisions)
}

// The numbers of the decisions that have one, ascending, each once.
pub fn literals(
    alloc: Global,
    names: &IndexSet<Poly>,
    decisions: &[Decision],
) -> Result<Vec<u64>, AllocError>
    ensures set { IfOk result (λ v. IsSetOf names.now.keys v.items decisions.now) }
    ensures ascending { IfOk result (λ v. IsStrictlyIncreasing v.items) }
{
    let mut all = all_literals(alloc, names, decisions)?;
    all.sort()?;
    all.dedup();
    Ok(all)
}

// The same in the order of the decisions, with repeats.
fn all_literals(
    alloc: Global,
    names: &IndexSet<Poly>,
    decisions: &[Decision],
) -> Result<Vec<u64>, AllocError>
    ensures { IfOk result (λ v. IsSetOf names.now.keys v.items decisions.now) }
{
    let mut all = Vec::new(alloc);
    for d in decisions {
        let Some(i) = number(names, &d.poly) else {
            continue;
        };
        let l = if d.zero { 2 * i } else { 2 * i + 1 };
        all.push(l)?;
    }
    Ok(all)
}

// Gives each polynomial of the decisions a number.
fn name_all(names: &mut IndexSet<Poly>, decisions: &[Decision]) -> Result<(), AllocError>
    ensures grows { GrowsTo names.old.keys names.new.keys }
    ensures ok { OnOk result (AllNamed names.new.keys decisions.now) }
{
    for d in decisions {
        name(names, &d.poly)?;
    }
    Ok(())
}

// Gives a polynomial a number.
fn name(names: &mut IndexSet<Poly>, poly: &Poly) -> Result<(), AllocError>
    ensures grows { GrowsTo names.old.keys names.new.keys }
    ensures ok { OnOk result ((i : _) × IsPlace names.new.keys poly.now i) }
{
    if number(names, poly).is_some() {
        return Ok(());
    }
    names.insert_full(poly.copy()?)?;
    Ok(())
}

// The number of a polynomial.
fn number(names: &IndexSet<Poly>, poly: &Poly) -> Option<u64>
    ensures place { MatchOption result (HasNoPlace names.now.keys poly.now) (IsPlace names.now.keys poly.now) }
    ensures small { IfSome result (λ i. i < 2 ^ 60) }
{
    let _keys = names.as_slice();
    match names.get_index_of(poly) {
        Some(i) => Some(i as u64),
        None => None,
    }
}
