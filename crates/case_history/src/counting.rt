//! The leaves of a list of entries.
ghost use Rattle.std.specs.Prelude.{◌≡◌};
ghost use Rattle.case_history.specs.Counts.{is_leaf, is_open, is_open_leaf, leaf_count, open_count};

use leaf_cert::{LeafEnd, RawEntry};

/// How many entries publish a leaf.
pub fn leaf_count(entries: &[RawEntry]) -> u64
    ensures { result ≡ leaf_count entries.now }
{
    let mut count = 0;
    for entry in entries {
        if is_leaf(entry) {
            count += 1;
        }
    }
    count
}

/// How many entries publish an open leaf.
pub fn open_count(entries: &[RawEntry]) -> u64
    ensures { result ≡ open_count entries.now }
{
    let mut count = 0;
    for entry in entries {
        if is_open_leaf(entry) {
            count += 1;
        }
    }
    count
}

// Whether an entry publishes a leaf.
fn is_leaf(entry: &RawEntry) -> bool
    ensures { result ≡ is_leaf entry.now }
{
    matches!(entry, RawEntry::Publish { .. })
}

// Whether an entry publishes an open leaf.
fn is_open_leaf(entry: &RawEntry) -> bool
    ensures { result ≡ is_open_leaf entry.now }
{
    match entry {
        RawEntry::Publish { end, .. } => is_open(end),
        RawEntry::Split { .. } => false,
        RawEntry::Post { .. } => false,
        RawEntry::Close { .. } => false,
    }
}

// Whether an end is open.
fn is_open(end: &LeafEnd) -> bool
    ensures { result ≡ is_open end.now }
{
    match end {
        LeafEnd::Triangular => false,
        LeafEnd::Open(_) => true,
    }
}
