//! How a run ends, and the line and the exit status that tell it.

ghost use Rattle.std.specs.Prelude.{◌≡◌, string_bytes, IfOk};
ghost use Rattle.solve_run.specs.Lines.{status_text, usage_text, exit_of};

use ring_file::ProblemFault;
use root_input::{InputFault, problem_line};
use run_words::{UsageKind, WordsStop};
use std::alloc::{AllocError, Global};

/// How a run ended.
#[derive(Clone, Copy, Debug, PartialEq)]
pub enum Status {
    /// The whole text or summary was written, and none of its `leaves` leaves is open.
    Done { leaves: u64 },
    /// The whole text or summary was written, and of its `leaves` leaves `opens` are open, at least one.
    Open { leaves: u64, opens: u64 },
    /// The words were refused, and nothing was read.
    Usage(UsageKind),
    /// A read failed, and at most 1,048,576 bytes came before.
    ReadFault,
    /// More than 1,048,576 bytes came before the end.
    TooLong,
    /// The bytes state no problem; the fault is never `OutOfMemory`.
    Problem(ProblemFault),
    /// The ring has `count` unknowns, more than 4,096.
    TooManyUnknowns { count: u64 },
    /// The root has `count` equations, more than 65,536.
    TooManyEquations { count: u64 },
    /// A write failed; a proper prefix of the text or summary was written, so not all of it.
    WriteFault,
    /// Memory could not be had.
    OutOfMemory,
}

impl From<WordsStop> for Status {
    ghost use Rattle.std.specs.Prelude.{◌≡◌};
    ghost use Rattle.solve_run.specs.Statuses.{words_status};

    ghost from_gives = { λ stop status. status ≡ words_status stop };

    fn from(stop: WordsStop) -> Status {
        match stop {
            WordsStop::Usage(kind) => Status::Usage(kind),
            WordsStop::OutOfMemory => Status::OutOfMemory,
        }
    }
}

impl From<InputFault> for Status {
    ghost use Rattle.std.specs.Prelude.{◌≡◌};
    ghost use Rattle.solve_run.specs.Statuses.{input_status};

    ghost from_gives = { λ fault status. status ≡ input_status fault };

    fn from(fault: InputFault) -> Status {
        match fault {
            InputFault::ReadFault => Status::ReadFault,
            InputFault::TooLong => Status::TooLong,
            InputFault::Problem(fault) => Status::Problem(fault),
            InputFault::TooManyUnknowns { count } => Status::TooManyUnknowns { count },
            InputFault::TooManyEquations { count } => Status::TooManyEquations { count },
            InputFault::OutOfMemory => Status::OutOfMemory,
        }
    }
}

/// The line of a status, without an end of line.
pub fn status_line(alloc: Global, status: &Status) -> Result<String, AllocError>
    ensures { IfOk result (λ s. string_bytes s ≡ status_text status.now) }
{
    match status {
        Status::Done { leaves } => format!(in alloc; "done leaves {leaves}"),
        Status::Open { leaves, opens } => format!(in alloc; "open leaves {leaves} open {opens}"),
        Status::Usage(kind) => String::from_str(alloc, usage_line(*kind)),
        Status::ReadFault => String::from_str(alloc, "read fault"),
        Status::TooLong => String::from_str(alloc, "too long"),
        Status::Problem(fault) => problem_line(alloc, fault),
        Status::TooManyUnknowns { count } => format!(in alloc; "too many unknowns {count}"),
        Status::TooManyEquations { count } => format!(in alloc; "too many equations {count}"),
        Status::WriteFault => String::from_str(alloc, "write fault"),
        Status::OutOfMemory => String::from_str(alloc, "out of memory"),
    }
}

// The line of words that are refused.
fn usage_line(kind: UsageKind) -> &'static str
    ensures { result.now ≡ usage_text kind }
{
    match kind {
        UsageKind::Words => "usage words",
        UsageKind::Workers => "usage workers",
        UsageKind::Budget => "usage budget",
        UsageKind::Make => "usage make",
        UsageKind::Summary => "usage summary",
    }
}

/// The exit status of a status.
pub fn exit_code(status: &Status) -> u8
    ensures { result ≡ exit_of status.now }
{
    match status {
        Status::Done { .. } => 0,
        Status::Open { .. } => 1,
        Status::Usage(_) => 2,
        Status::ReadFault => 3,
        Status::TooLong => 4,
        Status::Problem(_) => 5,
        Status::TooManyUnknowns { .. } => 6,
        Status::TooManyEquations { .. } => 7,
        Status::WriteFault => 8,
        Status::OutOfMemory => 9,
    }
}
