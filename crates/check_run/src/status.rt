//! How a check ends, and the exit status that tells it.

ghost use Rattle.std.specs.Prelude.{◌≡◌};
ghost use Rattle.check_run.specs.Lines.{exit_of};

use cert_check::{Part, RefuseCause};
use cert_read::CertFault;
use ring_file::ProblemFault;
use root_input::RootStop;

/// An input of a check.
#[derive(Clone, Copy, Debug, PartialEq, Eq)]
pub enum Which {
    /// The problem, at most 1,048,576 bytes.
    Problem,
    /// The certificate, at most 268,435,456 bytes.
    Certificate,
}

/// The verdict on a certificate for the root of a problem.
#[derive(Clone, Copy, Debug, PartialEq)]
pub enum Verdict {
    /// It is accepted, and of its `leaves` leaves `opens` are open.
    Accepted {
        leaves: u64,
        opens: u64,
    },
    /// The first part that fails, with its number and its first cause.
    Refused {
        part: Part,
        number: u64,
        cause: RefuseCause,
    },
}

/// How a check ended.
#[derive(Clone, Copy, Debug, PartialEq)]
pub enum CheckStatus {
    /// The certificate is accepted, and the line that says so was written. Of its `leaves` leaves `opens` are open.
    Accepted {
        leaves: u64,
        opens: u64,
    },
    /// The certificate's text in version 2 was written; `entries` counts its entries.
    Migrated {
        entries: u64,
    },
    /// There were not two words, and nothing was read.
    Usage,
    /// A read of this input failed, with no more bytes before than it may have.
    ReadFault(Which),
    /// More bytes of this input came than it may have.
    TooLong(Which),
    /// The problem's bytes state no problem; the fault is never `OutOfMemory`.
    Problem(ProblemFault),
    /// The ring has `count` unknowns, more than 4,096.
    TooManyUnknowns {
        count: u64,
    },
    /// The root has `count` equations, more than 65,536.
    TooManyEquations {
        count: u64,
    },
    /// The certificate's bytes are not the text of a certificate; the fault is never `OutOfMemory`.
    Certificate(CertFault),
    /// The certificate is not accepted, and the line that says so was written: the first part that fails, with its number and its first cause.
    Refused {
        part: Part,
        number: u64,
        cause: RefuseCause,
    },
    /// A write failed; a proper prefix of the verdict's line, or of the text, was written, so not all of it.
    WriteFault,
    /// Memory could not be had.
    OutOfMemory,
}

impl From<RootStop> for CheckStatus {
    ghost use Rattle.std.specs.Prelude.{◌≡◌};
    ghost use Rattle.check_run.specs.Statuses.{root_status};

    ghost from_gives = { λ stop status. status ≡ root_status stop };

    fn from(stop: RootStop) -> CheckStatus {
        match stop {
            RootStop::Problem(fault) => CheckStatus::Problem(fault),
            RootStop::TooManyUnknowns { count } => CheckStatus::TooManyUnknowns { count },
            RootStop::TooManyEquations { count } => CheckStatus::TooManyEquations { count },
            RootStop::OutOfMemory => CheckStatus::OutOfMemory,
        }
    }
}

impl From<CertFault> for CheckStatus {
    ghost use Rattle.std.specs.Prelude.{◌≡◌};
    ghost use Rattle.check_run.specs.Statuses.{text_status};

    ghost from_gives = { λ fault status. status ≡ text_status fault };

    fn from(fault: CertFault) -> CheckStatus {
        match fault {
            CertFault::OutOfMemory => CheckStatus::OutOfMemory,
            fault => CheckStatus::Certificate(fault),
        }
    }
}

impl From<Verdict> for CheckStatus {
    ghost use Rattle.std.specs.Prelude.{◌≡◌};
    ghost use Rattle.check_run.specs.Statuses.{verdict_status};

    ghost from_gives = { λ verdict status. status ≡ verdict_status verdict };

    fn from(verdict: Verdict) -> CheckStatus {
        match verdict {
            Verdict::Accepted { leaves, opens } => CheckStatus::Accepted { leaves, opens },
            Verdict::Refused {
                part,
                number,
                cause,
            } => CheckStatus::Refused {
                part,
                number,
                cause,
            },
        }
    }
}

/// The exit status of a status.
pub fn check_exit(status: &CheckStatus) -> u8
    ensures { result ≡ exit_of status.now }
{
    match status {
        CheckStatus::Accepted { .. } | CheckStatus::Migrated { .. } => 0,
        CheckStatus::Refused { .. } => 1,
        CheckStatus::Usage => 2,
        CheckStatus::ReadFault(_) => 3,
        CheckStatus::TooLong(_) => 4,
        CheckStatus::Problem(_) => 5,
        CheckStatus::TooManyUnknowns { .. } => 6,
        CheckStatus::TooManyEquations { .. } => 7,
        CheckStatus::WriteFault => 8,
        CheckStatus::OutOfMemory => 9,
        CheckStatus::Certificate(_) => 10,
    }
}
