//! What a cone keeps, by place.
ghost use Rattle.std.specs.Prelude.{◌≡◌, IfOk};
ghost use Rattle.derive_lines.specs.Lines.{conditions};
ghost use Rattle.derive_lines.specs.Refuting.{Refutes};
ghost use Rattle.refute_cert.specs.KeptPlaces.{ArePlaces};

use crate::kept::{kept_conditions, kept_decisions};
use crate::marks::places;
use crate::needed::needed_items;
use derive_lines::{Decision, Item, Line, item_poly};
use sparse_poly::Poly;
use std::alloc::{AllocError, Global};

/// The kept decisions and the needed lines, by their places.
#[derive(Drop)]
pub struct Kept {
    pub decisions: Vec<usize>,
    pub lines: Vec<usize>,
}

/// What the cone of a refutation keeps, where these are the conditions of the decisions. It fails only where no memory is left.
pub fn kept_places(
    alloc: Global,
    root: &[Poly],
    decisions: &[Decision],
    units: &[Poly],
    lines: &[Line],
    end: Item,
) -> Result<Kept, AllocError>
    requires refutes { Refutes root.now decisions.now lines.now end }
    requires units { units.now ≡ conditions decisions.now }
    ensures { IfOk result (λ k. ArePlaces root.now decisions.now lines.now end k.decisions.items k.lines.items) }
{
    let Some(end_poly) = item_poly(root, decisions, lines, end) else {
        unreachable!()
    };
    let needed = needed_items(alloc, decisions.len(), lines, end)?;
    let known = kept_conditions(alloc, lines, &needed.lines, units, end_poly)?;
    let kept = kept_decisions(alloc, decisions, &needed.decisions, &known)?;
    Ok(Kept {
        decisions: places(alloc, &kept)?,
        lines: places(alloc, &needed.lines)?,
    })
}
