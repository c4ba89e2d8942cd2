//! The entries of a board.
ghost use Rattle.std.specs.Prelude.{◌≡◌, ◌<◌, IfOk, length, slice_index_or};
ghost use Rattle.legal_history.specs.Legal.{post};
ghost use Rattle.case_history.specs.History.{publish};
ghost use Rattle.case_ledger.specs.Entries.{entry_of, entries_of, no_refutation, IsPosted, ArePosted};

use crate::copies::copied_end;
use case_state::{copied_decisions, copied_lines, copied_polys};
use leaf_cert::{Leaf, RawEntry, Rows};
use pattern_store::PatternStore;
use sparse_poly::Poly;
use std::alloc::{AllocError, Global};

/// An entry of the history as it is kept. The refutation of a post stands in the store of patterns alone, under this number.
#[derive(Drop)]
pub enum Kept {
    Split { n: u64, by: Poly },
    Post { k: u64 },
    Close { n: u64, k: u64 },
    Publish { n: u64, leaf: Leaf },
}

/// The entries in full, the oldest first. It fails only where no memory is left.
pub fn raw_entries(
    alloc: Global,
    entries: &[Kept],
    stored: &PatternStore,
) -> Result<Vec<RawEntry>, AllocError>
    requires { ArePosted (length stored.now) entries.now }
    ensures { IfOk result (λ v. v.items ≡ entries_of stored.now entries.now) }
{
    let mut all = Vec::with_capacity(alloc, entries.len())?;
    for entry in entries {
        all.push(raw_entry(alloc, entry, stored)?)?;
    }
    Ok(all)
}

// An entry in full.
fn raw_entry(alloc: Global, entry: &Kept, stored: &PatternStore) -> Result<RawEntry, AllocError>
    requires { IsPosted (length stored.now) entry.now }
    ensures { IfOk result (λ e. e ≡ entry_of stored.now entry.now) }
{
    match entry {
        Kept::Split { n, by } => Ok(RawEntry::Split {
            n: *n,
            by: by.copy()?,
        }),
        Kept::Post { k } => raw_post(alloc, stored, *k),
        Kept::Close { n, k } => Ok(RawEntry::Close { n: *n, k: *k }),
        Kept::Publish { n, leaf } => raw_publish(alloc, *n, leaf),
    }
}

// The entry that posts refutation k.
fn raw_post(alloc: Global, stored: &PatternStore, k: u64) -> Result<RawEntry, AllocError>
    requires { k < length stored.now }
    ensures { IfOk result (λ e. e ≡ post (slice_index_or stored.now k no_refutation)) }
{
    let refutation = stored.refutation(k);
    Ok(RawEntry::Post {
        decisions: Rows::of(copied_decisions(alloc, refutation.pattern())?),
        lines: Rows::of(copied_lines(alloc, refutation.lines())?),
        end: refutation.end(),
    })
}

// The entry that publishes the leaf of case n.
fn raw_publish(alloc: Global, n: u64, leaf: &Leaf) -> Result<RawEntry, AllocError>
    ensures { IfOk result (λ e. e ≡ publish n leaf.now) }
{
    Ok(RawEntry::Publish {
        n,
        decisions: Rows::of(copied_decisions(alloc, leaf.decisions())?),
        lines: Rows::of(copied_lines(alloc, leaf.lines())?),
        equations: Rows::of(copied_polys(alloc, leaf.equations())?),
        end: copied_end(leaf.end())?,
    })
}
