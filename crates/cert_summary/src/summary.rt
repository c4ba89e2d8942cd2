//! The text of a summary.

ghost use Rattle.std.specs.Prelude.{◌≡◌, ◌++◌, IfOk, OnOk};
ghost use Rattle.cert_summary.specs.Summary.{count_line, size_lines, end_lines, summary_text};

use crate::counting::{EntryKind, case_count, kind_count};
use case_history::{leaf_count, open_count};
use leaf_cert::Certificate;
use std::alloc::{AllocError, Global};

/// The summary of a certificate: seven lines, each with a word, a number and its end. They are the unknowns and the equations of its root, all cases that
/// were made, those that a pattern closed, the patterns, the leaves, and the open ones among them.
pub fn write_summary(alloc: Global, certificate: &Certificate) -> Result<Vec<u8>, AllocError>
    ensures { IfOk result (λ v. v.items ≡ summary_text certificate.now) }
{
    let mut text = Vec::new(alloc);
    push_sizes(alloc, certificate, &mut text)?;
    push_ends(alloc, certificate, &mut text)?;
    Ok(text)
}

// A line of a word and a number.
fn push_line(alloc: Global, word: &str, count: u64, into: &mut Vec<u8>) -> Result<(), AllocError>
    ensures { OnOk result (into.new.items ≡ into.old.items ++ count_line word.now count) }
{
    let line = format!(in alloc; "{word} {count}\n")?;
    into.extend_from_slice(line.as_bytes())?;
    Ok(())
}

// The lines of the root and the cases.
#[tactic(auto, using(crate::proofs::Lines::three_lines))]
fn push_sizes(
    alloc: Global,
    certificate: &Certificate,
    into: &mut Vec<u8>,
) -> Result<(), AllocError>
    ensures { OnOk result (into.new.items ≡ into.old.items ++ size_lines certificate.now) }
{
    let cases = case_count(certificate.entries.items());
    push_line(alloc, "unknowns", u64::from(certificate.unknowns), into)?;
    push_line(alloc, "equations", u64::from(certificate.equations), into)?;
    push_line(alloc, "cases", cases, into)
}

// The lines of the ends of cases.
#[tactic(auto, using(crate::proofs::Lines::four_lines))]
fn push_ends(alloc: Global, certificate: &Certificate, into: &mut Vec<u8>) -> Result<(), AllocError>
    ensures { OnOk result (into.new.items ≡ into.old.items ++ end_lines certificate.now) }
{
    let entries = certificate.entries.items();
    push_line(alloc, "closed", kind_count(EntryKind::Close, entries), into)?;
    push_line(
        alloc,
        "patterns",
        kind_count(EntryKind::Post, entries),
        into,
    )?;
    push_line(alloc, "leaves", leaf_count(entries), into)?;
    push_line(alloc, "open", open_count(entries), into)
}
