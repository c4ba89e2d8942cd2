//! The line that tells how a check ended.

ghost use Rattle.std.specs.Prelude.{◌≡◌, string_bytes, IfOk};
ghost use Rattle.check_run.specs.Lines.{check_text, which_word, fault_text, part_word, line_cause_word, lost_text, cause_text, refused_text, verdict_line};

use crate::status::{CheckStatus, Verdict, Which};
use cert_check::{Part, RefuseCause};
use cert_read::CertFault;
use derive_lines::{Item, LineCause};
use root_input::problem_line;
use std::alloc::{AllocError, Global};

/// The line of a status, without an end of line.
pub fn check_line(alloc: Global, status: &CheckStatus) -> Result<String, AllocError>
    ensures { IfOk result (λ s. string_bytes s ≡ check_text status.now) }
{
    match status {
        CheckStatus::Accepted { leaves, opens } => {
            format!(in alloc; "accepted leaves {leaves} open {opens}")
        }
        CheckStatus::Migrated { entries } => format!(in alloc; "migrated entries {entries}"),
        CheckStatus::Usage => String::from_str(alloc, "usage"),
        CheckStatus::ReadFault(which) => {
            let word = which_word(*which);
            format!(in alloc; "read fault {word}")
        }
        CheckStatus::TooLong(which) => {
            let word = which_word(*which);
            format!(in alloc; "too long {word}")
        }
        CheckStatus::Problem(fault) => problem_line(alloc, fault),
        CheckStatus::TooManyUnknowns { count } => format!(in alloc; "too many unknowns {count}"),
        CheckStatus::TooManyEquations { count } => format!(in alloc; "too many equations {count}"),
        CheckStatus::Certificate(fault) => fault_line(alloc, fault),
        CheckStatus::Refused {
            part,
            number,
            cause,
        } => refused_line(alloc, *part, *number, cause),
        CheckStatus::WriteFault => String::from_str(alloc, "write fault"),
        CheckStatus::OutOfMemory => String::from_str(alloc, "out of memory"),
    }
}

/// The line of a verdict, with its end.
pub(crate) fn verdict_line(alloc: Global, verdict: Verdict) -> Result<String, AllocError>
    ensures { IfOk result (λ s. string_bytes s ≡ verdict_line verdict) }
{
    let mut line = check_line(alloc, &CheckStatus::from(verdict))?;
    line.push('\n')?;
    Ok(line)
}

fn which_word(which: Which) -> &'static str
    ensures { result.now ≡ which_word which }
{
    match which {
        Which::Problem => "problem",
        Which::Certificate => "certificate",
    }
}

fn fault_line(alloc: Global, fault: &CertFault) -> Result<String, AllocError>
    ensures { IfOk result (λ s. string_bytes s ≡ fault_text fault.now) }
{
    match fault {
        CertFault::Truncated => String::from_str(alloc, "certificate truncated"),
        CertFault::Number { line } => format!(in alloc; "certificate number {line}"),
        CertFault::Syntax { line } => format!(in alloc; "certificate syntax {line}"),
        CertFault::OutOfMemory => String::from_str(alloc, "out of memory"),
    }
}

fn refused_line(
    alloc: Global,
    part: Part,
    number: u64,
    cause: &RefuseCause,
) -> Result<String, AllocError>
    ensures { IfOk result (λ s. string_bytes s ≡ refused_text part number cause.now) }
{
    let word = part_word(part);
    let cause = cause_line(alloc, cause)?;
    format!(in alloc; "refused {word} {number} {cause}")
}

fn part_word(part: Part) -> &'static str
    ensures { result.now ≡ part_word part }
{
    match part {
        Part::Header => "header",
        Part::Split => "split",
        Part::Pattern => "pattern",
        Part::Close => "close",
        Part::Leaf => "leaf",
        Part::Whole => "whole",
    }
}

fn cause_line(alloc: Global, cause: &RefuseCause) -> Result<String, AllocError>
    ensures { IfOk result (λ s. string_bytes s ≡ cause_text cause.now) }
{
    match cause {
        RefuseCause::Unknowns => String::from_str(alloc, "unknowns"),
        RefuseCause::Equations => String::from_str(alloc, "equations"),
        RefuseCause::NotPending => String::from_str(alloc, "not pending"),
        RefuseCause::NotStored => String::from_str(alloc, "not stored"),
        RefuseCause::NotWithin => String::from_str(alloc, "not within"),
        RefuseCause::Decisions => String::from_str(alloc, "decisions"),
        RefuseCause::Line { k, cause } => {
            let word = line_cause_word(*cause);
            format!(in alloc; "line {k} {word}")
        }
        RefuseCause::Equation { i } => format!(in alloc; "equation {i}"),
        RefuseCause::Lost { item } => lost_line(alloc, *item),
        RefuseCause::End => String::from_str(alloc, "end"),
        RefuseCause::Pending => String::from_str(alloc, "pending"),
    }
}

fn line_cause_word(cause: LineCause) -> &'static str
    ensures { result.now ≡ line_cause_word cause }
{
    match cause {
        LineCause::Reference => "reference",
        LineCause::Multiplier => "multiplier",
        LineCause::Degree => "degree",
        LineCause::Heavy => "heavy",
        LineCause::Identity => "identity",
    }
}

fn lost_line(alloc: Global, item: Item) -> Result<String, AllocError>
    ensures { IfOk result (λ s. string_bytes s ≡ lost_text item) }
{
    match item {
        Item::Root(i) => format!(in alloc; "lost r{i}"),
        Item::Decision(j) => format!(in alloc; "lost d{j}"),
        Item::Line(k) => format!(in alloc; "lost l{k}"),
    }
}
