//! Entries, counted by their kind.

ghost use Rattle.std.specs.Prelude.{◌≡◌, ◌+◌, ◌*◌, reverse};
ghost use Rattle.case_history.specs.History.{cases_made};
ghost use Rattle.cert_summary.specs.Summary.{is_of, kind_count};

use leaf_cert::RawEntry;

/// A kind of entries, other than those that publish leaves.
#[derive(Clone, Copy, Debug, PartialEq, Eq)]
pub enum EntryKind {
    /// A case is split.
    Split,
    /// A pattern is posted.
    Post,
    /// A case is closed by a pattern.
    Close,
}

/// How many entries are of this kind.
pub fn kind_count(kind: EntryKind, entries: &[RawEntry]) -> u64
    ensures { result ≡ kind_count kind entries.now }
{
    let mut count = 0;
    for entry in entries {
        if is_of(kind, entry) {
            count += 1;
        }
    }
    count
}

// Whether an entry is of this kind.
fn is_of(kind: EntryKind, entry: &RawEntry) -> bool
    ensures { result ≡ is_of kind entry.now }
{
    match entry {
        RawEntry::Split { .. } => kind == EntryKind::Split,
        RawEntry::Post { .. } => kind == EntryKind::Post,
        RawEntry::Close { .. } => kind == EntryKind::Close,
        RawEntry::Publish { .. } => false,
    }
}

/// How many cases the entries make: the root's, and two for each split.
pub(crate) fn case_count(entries: &[RawEntry]) -> u64
    ensures { result ≡ cases_made (reverse entries.now) }
{
    2 * kind_count(EntryKind::Split, entries) + 1
}
