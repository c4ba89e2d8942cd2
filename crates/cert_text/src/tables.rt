//! The different lines of a certificate.
ghost use Rattle.std.specs.Prelude.{◌≡◌, OnOk, IfOk, [], flat_map, length};
ghost use Rattle.cert_text.specs.Tables.{entry_lines, place, with_new};
ghost use Rattle.cert_text.specs.Numbers.{HasReferenceInRange, HasLineInRange};

use crate::keys::BorrowedKey;
use derive_lines::{Item, Line};
use indexmap::IndexSet;
use leaf_cert::RawEntry;
use std::alloc::{AllocError, Global};

// The different lines of the entries, in the order of first use.
pub(crate) fn tabulated<'a>(
    alloc: Global,
    entries: &'a [RawEntry],
) -> Result<IndexSet<BorrowedKey<'a>>, AllocError>
    ensures { IfOk result (λ t. t.keys ≡ with_new [] (flat_map entry_lines entries.now)) }
{
    let mut table = IndexSet::new(alloc);
    'entries: for entry in entries {
        add_lines(&mut table, used_lines(entry))?;
    }
    Ok(table)
}

// The lines that an entry uses.
fn used_lines(entry: &RawEntry) -> &[Line]
    ensures { result.now ≡ entry_lines entry.now }
{
    match entry {
        RawEntry::Post { lines, .. } | RawEntry::Publish { lines, .. } => lines.items(),
        _ => &[],
    }
}

// Each line that the table has not yet goes behind its last.
fn add_lines<'a>(table: &mut IndexSet<BorrowedKey<'a>>, lines: &'a [Line]) -> Result<(), AllocError>
    ensures { OnOk result (table.new.keys ≡ with_new table.old.keys lines.now) }
{
    'lines: for line in lines {
        table.insert(BorrowedKey::of(line))?;
    }
    Ok(())
}

// The place of a line in the table, which is the length of the table where the line does not stand there.
pub(crate) fn place(table: &IndexSet<BorrowedKey<'_>>, line: &Line) -> u64
    ensures { result ≡ place table.now.keys line.now }
{
    let i = table
        .get_index_of(&BorrowedKey::of(line))
        .unwrap_or(table.len());
    i as u64
}

// How many lines the table has.
pub(crate) fn size(table: &IndexSet<BorrowedKey<'_>>) -> u64
    ensures { result ≡ length table.now.keys }
{
    table.len() as u64
}

// The number of an item, or 0 where it is absent.
fn number_of(item: Option<Item>) -> u64
    ensures { HasReferenceInRange item }
{
    match item {
        None => 0,
        Some(Item::Root(i)) => i,
        Some(Item::Decision(i)) => i,
        Some(Item::Line(i)) => i,
    }
}

// The numbers of a line are such that its type holds them.
pub(crate) fn line_is_in_range(line: &Line)
    ensures { HasLineInRange line.now }
{
    let _from = number_of(line.from);
    let _by = number_of(line.by);
    let _l = line.l.terms();
    let _a = line.a.terms();
    let _m = line.m.terms();
    let _made = line.made.terms();
}
