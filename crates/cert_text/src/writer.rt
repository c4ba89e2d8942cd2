//! The writer.
ghost use Rattle.std.specs.Prelude.{◌≡◌, ◌≤◌, ◌++◌, ◌∷◌, [], OnOk, IfOk, All, codes, length, map, flat_map};
ghost use Rattle.sparse_poly.specs.Contributions.{IsPoly};
ghost use Rattle.cert_text.specs.Fields.{ended, count_fields, split_fields, close_fields, leaf_fields, end_fields, equation_fields};
ghost use Rattle.cert_text.specs.Tables.{table};
ghost use Rattle.cert_text.specs.Sentences.{fields, use_of, entry_sentences, head, spelled, text_in};
ghost use Rattle.cert_text.specs.Numbers.{max_number, HasDecisionInRange, HasLineInRange, HasItemInRange, HasEndInRange, HasSplitInRange, HasCloseInRange, HasPostInRange, HasLeafInRange, HasEntryInRange, HasNumbersInRange};
ghost use Rattle.cert_text.specs.declared.sentence.Sentence.TheVariants as says;
ghost use Rattle.cert_text.specs.declared.version.Version.TheVariants as Version;

use crate::keys::BorrowedKey;
use crate::parts::{
    push_count, push_decision, push_item, push_leaf_end, push_line, push_number, push_poly,
    push_text,
};
use crate::tables::{line_is_in_range, place, size, tabulated};
use derive_lines::{Decision, Item, Line};
use indexmap::IndexSet;
use leaf_cert::{Certificate, LeafEnd, RawEntry};
use sparse_poly::Poly;
use std::alloc::{AllocError, Global};

fn push_split(n: u64, by: &Poly, into: &mut Vec<u8>) -> Result<(), AllocError>
    ensures text { OnOk result (into.new.items ≡ into.old.items ++ ended (split_fields n by.now)) }
    ensures numbers { OnOk result (HasSplitInRange n by.now) }
{
    push_text(b"split ", into)?;
    push_number(n, into)?;
    push_poly(by, into)?;
    push_text(b"\n", into)
}

fn push_close(n: u64, k: u64, into: &mut Vec<u8>) -> Result<(), AllocError>
    ensures text { OnOk result (into.new.items ≡ into.old.items ++ ended (close_fields n k)) }
    ensures numbers { OnOk result (HasCloseInRange n k) }
{
    push_text(b"close ", into)?;
    push_number(n, into)?;
    push_text(b" ", into)?;
    push_number(k, into)?;
    push_text(b"\n", into)
}

fn push_leaf(n: u64, end: &LeafEnd, into: &mut Vec<u8>) -> Result<(), AllocError>
    ensures text { OnOk result (into.new.items ≡ into.old.items ++ ended (leaf_fields n end.now)) }
    ensures number { OnOk result (n ≤ max_number) }
    ensures end { OnOk result (HasEndInRange end.now) }
{
    push_text(b"leaf ", into)?;
    push_number(n, into)?;
    push_leaf_end(end, into)
}

fn push_end(item: Item, into: &mut Vec<u8>) -> Result<(), AllocError>
    ensures text { OnOk result (into.new.items ≡ into.old.items ++ ended (end_fields item)) }
    ensures numbers { OnOk result (HasItemInRange item) }
{
    push_text(b"end ", into)?;
    push_item(item, into)?;
    push_text(b"\n", into)
}

fn push_equation(p: &Poly, into: &mut Vec<u8>) -> Result<(), AllocError>
    ensures text { OnOk result (into.new.items ≡ into.old.items ++ ended (equation_fields p.now)) }
    ensures numbers { OnOk result (IsPoly p.now) }
{
    push_text(b"eq", into)?;
    push_poly(p, into)?;
    push_text(b"\n", into)
}

fn push_decisions(decisions: &[Decision], into: &mut Vec<u8>) -> Result<(), AllocError>
    ensures text { OnOk result (into.new.items ≡ into.old.items ++ spelled (map says.Decided decisions.now)) }
    ensures numbers { OnOk result (All HasDecisionInRange decisions.now) }
{
    'decisions: for decision in decisions {
        push_decision(decision, into)?;
    }
    Ok(())
}

// The lines of the table.
fn push_table(table: &IndexSet<BorrowedKey<'_>>, into: &mut Vec<u8>) -> Result<(), AllocError>
    ensures text { OnOk result (into.new.items ≡ into.old.items ++ (ended (count_fields (codes "lines") (length table.now.keys)) ++ spelled (map says.Derived table.now.keys))) }
    ensures size { length table.now.keys ≤ max_number }
{
    push_count(b"lines", size(table), into)?;
    push_lines(table.as_slice(), into)
}

fn push_lines(lines: &[BorrowedKey<'_>], into: &mut Vec<u8>) -> Result<(), AllocError>
    ensures { OnOk result (into.new.items ≡ into.old.items ++ spelled (map says.Derived lines.now)) }
{
    'lines: for line in lines {
        push_line(line.line(), into)?;
    }
    Ok(())
}

// A line by its place in the table.
fn push_use(
    table: &IndexSet<BorrowedKey<'_>>,
    line: &Line,
    into: &mut Vec<u8>,
) -> Result<(), AllocError>
    ensures text { OnOk result (into.new.items ≡ into.old.items ++ ended (fields (use_of table.now.keys line.now))) }
    ensures numbers { HasLineInRange line.now }
{
    line_is_in_range(line);
    push_count(b"use", place(table, line), into)
}

fn push_uses(
    table: &IndexSet<BorrowedKey<'_>>,
    lines: &[Line],
    into: &mut Vec<u8>,
) -> Result<(), AllocError>
    ensures text { OnOk result (into.new.items ≡ into.old.items ++ spelled (map (use_of table.now.keys) lines.now)) }
    ensures numbers { OnOk result (All HasLineInRange lines.now) }
{
    'lines: for line in lines {
        push_use(table, line, into)?;
    }
    Ok(())
}

fn push_equations(equations: &[Poly], into: &mut Vec<u8>) -> Result<(), AllocError>
    ensures text { OnOk result (into.new.items ≡ into.old.items ++ spelled (map says.Equation equations.now)) }
    ensures numbers { OnOk result (All IsPoly equations.now) }
{
    'equations: for equation in equations {
        push_equation(equation, into)?;
    }
    Ok(())
}

#[tactic(auto, using(crate::proofs::Joined::post_joined))]
fn push_post(
    table: &IndexSet<BorrowedKey<'_>>,
    decisions: &[Decision],
    lines: &[Line],
    end: Item,
    into: &mut Vec<u8>,
) -> Result<(), AllocError>
    ensures text { OnOk result (into.new.items ≡ into.old.items ++ spelled (says.Post ∷ (map says.Decided decisions.now ++ (map (use_of table.now.keys) lines.now ++ says.End end ∷ [])))) }
    ensures numbers { OnOk result (HasPostInRange decisions.now lines.now end) }
{
    push_text(b"post\n", into)?;
    push_decisions(decisions, into)?;
    push_uses(table, lines, into)?;
    push_end(end, into)
}

#[tactic(auto, using(crate::proofs::Joined::leaf_joined))]
fn push_publish(
    table: &IndexSet<BorrowedKey<'_>>,
    n: u64,
    decisions: &[Decision],
    lines: &[Line],
    equations: &[Poly],
    end: &LeafEnd,
    into: &mut Vec<u8>,
) -> Result<(), AllocError>
    ensures text { OnOk result (into.new.items ≡ into.old.items ++ spelled (says.Leaf n end.now ∷ (map says.Decided decisions.now ++ (map (use_of table.now.keys) lines.now ++ map says.Equation equations.now)))) }
    ensures numbers { OnOk result (HasLeafInRange n decisions.now lines.now equations.now end.now) }
{
    push_leaf(n, end, into)?;
    push_decisions(decisions, into)?;
    push_uses(table, lines, into)?;
    push_equations(equations, into)
}

fn push_entry(
    table: &IndexSet<BorrowedKey<'_>>,
    entry: &RawEntry,
    into: &mut Vec<u8>,
) -> Result<(), AllocError>
    ensures text { OnOk result (into.new.items ≡ into.old.items ++ spelled (entry_sentences (use_of table.now.keys) entry.now)) }
    ensures numbers { OnOk result (HasEntryInRange entry.now) }
{
    match entry {
        RawEntry::Split { n, by } => push_split(*n, by, into),
        RawEntry::Post {
            decisions,
            lines,
            end,
        } => push_post(table, decisions.items(), lines.items(), *end, into),
        RawEntry::Close { n, k } => push_close(*n, *k, into),
        RawEntry::Publish {
            n,
            decisions,
            lines,
            equations,
            end,
        } => push_publish(
            table,
            *n,
            decisions.items(),
            lines.items(),
            equations.items(),
            end,
            into,
        ),
    }
}

fn push_entries(
    table: &IndexSet<BorrowedKey<'_>>,
    entries: &[RawEntry],
    into: &mut Vec<u8>,
) -> Result<(), AllocError>
    ensures text { OnOk result (into.new.items ≡ into.old.items ++ spelled (flat_map (entry_sentences (use_of table.now.keys)) entries.now)) }
    ensures numbers { OnOk result (All HasEntryInRange entries.now) }
{
    'entries: for entry in entries {
        push_entry(table, entry, into)?;
    }
    Ok(())
}

fn push_head(c: &Certificate, into: &mut Vec<u8>) -> Result<(), AllocError>
    ensures { OnOk result (into.new.items ≡ into.old.items ++ spelled (head Version.Two c.now)) }
{
    push_text(b"braidcert 2\n", into)?;
    push_count(b"unknowns", c.unknowns, into)?;
    push_count(b"equations", c.equations, into)?;
    push_count(b"budget", c.budget, into)
}

/// The text of a certificate, in version 2. It fails only where no memory is left.
pub fn write_certificate(alloc: Global, c: &Certificate) -> Result<Vec<u8>, AllocError>
    ensures text { IfOk result (λ v. v.items ≡ text_in Version.Two c.now) }
    ensures numbers { IfOk result (λ _. HasNumbersInRange c.now) }
    ensures lines { IfOk result (λ _. length (table c.now) ≤ max_number) }
{
    let entries = c.entries.items();
    let table = tabulated(alloc, entries)?;
    let mut text = Vec::new(alloc);
    push_head(c, &mut text)?;
    push_table(&table, &mut text)?;
    push_entries(&table, entries, &mut text)?;
    push_count(b"done", entries.len() as u64, &mut text)?;
    Ok(text)
}
