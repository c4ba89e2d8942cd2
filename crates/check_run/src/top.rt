//! The check.

ghost use Rattle.std.specs.Prelude.{◌≡◌, ℕ, true, false, map, string_bytes, MatchResult};
ghost use Rattle.root_input.specs.Streams.{TakesSome, between};
ghost use Rattle.check_run.specs.Words.{asks_migration};
ghost use Rattle.check_run.specs.Statuses.{may_write};
ghost use Rattle.check_run.specs.Outcomes.{Judges, IsUnjudged, CheckEnds};

use crate::inputs::bytes_of;
use crate::lines::verdict_line;
use crate::migrating::migrate_from;
use crate::status::{CheckStatus, Verdict, Which};
use crate::verdict::verdict_on;
use braid_io::{Sink, Source, write_all_of};
use case_history::accepted_law;
use field_laws::CharZeroField;
use root_system::laws::root_law;
use std::alloc::Global;

/// Reads a problem and a certificate to their ends, checks the certificate against the root of the problem, and writes the line of the verdict to the
/// sink, with its end.
///
/// `words` leaves out the program's name. `Usage` comes exactly where there are not two, and then nothing is read.
///
/// Where the first is `--migrate`, only the certificate is read, and the problem's source and its count of faults are untouched. The certificate's text in
/// version 2 is written, and `Migrated` comes exactly where all of it was written. `ReadFault`, `TooLong`, `Certificate`, `WriteFault` and `OutOfMemory`
/// come as below.
///
/// Otherwise the problem is read, and then the certificate: `ReadFault` comes only where a read of the input that it names failed, and `TooLong` exactly where more bytes of it came than it may
/// have. `Problem`, `TooManyUnknowns` and `TooManyEquations` come exactly where the problem's bytes state no problem, or one with too many unknowns or
/// equations, and `Certificate` exactly where the certificate's bytes are not the text of a certificate. After these and after `OutOfMemory` nothing
/// was written. `Accepted` and `Refused` come exactly where `cert_check::accept` says so and the whole line was written, and `WriteFault` where a write
/// failed and only a proper prefix of it was written.
///
/// Where it is `Accepted`, in the field, and so in every field of characteristic zero, an assignment is a solution of the problem exactly if it meets a
/// leaf of the certificate, and then it meets just one. After every status the bytes left in each source are a suffix of those left before.
pub fn run_check<F: CharZeroField, S1: Source, S2: Source, K: Sink>(
    alloc: Global,
    words: &[String],
    problem: &mut S1,
    certificate: &mut S2,
    sink: &mut K,
) -> CheckStatus
    // How the check ended, and what an accepted certificate says in the field F.
    ensures ends { CheckEnds F.field (map string_bytes words.now) (between S1.left S1.faults problem.old problem.new) (between S2.left S2.faults certificate.old certificate.new) (between K.written K.faults sink.old sink.new) result }

    // What stays as it was.
    ensures unread { result ≡ CheckStatus.Usage → (problem.new ≡ problem.old) × (certificate.new ≡ certificate.old) }
    ensures untouched { asks_migration (map string_bytes words.now) ≡ true → problem.new ≡ problem.old }
    ensures unwritten { may_write result ≡ false → sink.new ≡ sink.old }
    ensures problem_suffix { TakesSome (between S1.left S1.faults problem.old problem.new) }
    ensures certificate_suffix { TakesSome (between S2.left S2.faults certificate.old certificate.new) }
{
    if words.len() != 2 {
        return CheckStatus::Usage;
    }
    if asks_migration(words) {
        return migrate_from(alloc, certificate, sink);
    }
    let verdict = match judge::<F, _, _>(alloc, problem, certificate) {
        Ok(verdict) => verdict,
        Err(status) => return status,
    };
    let Ok(line) = verdict_line(alloc, verdict) else {
        return CheckStatus::OutOfMemory;
    };
    match write_all_of(sink, line.as_bytes()) {
        Ok(()) => CheckStatus::from(verdict),
        Err(_) => CheckStatus::WriteFault,
    }
}

// Whether there are two words, and the first is `--migrate`.
fn asks_migration(words: &[String]) -> bool
    ensures { result ≡ asks_migration (map string_bytes words.now) }
{
    match words {
        [first, _] => first.as_str() == "--migrate",
        _ => false,
    }
}

// Reads both inputs, and gives the verdict on them.
fn judge<F: CharZeroField, S1: Source, S2: Source>(
    alloc: Global,
    problem: &mut S1,
    certificate: &mut S2,
) -> Result<Verdict, CheckStatus>
    ensures verdict { MatchResult result (Judges F.field (between S1.left S1.faults problem.old problem.new) (between S2.left S2.faults certificate.old certificate.new)) (IsUnjudged (between S1.left S1.faults problem.old problem.new) (between S2.left S2.faults certificate.old certificate.new)) }
    ensures problem_suffix { TakesSome (between S1.left S1.faults problem.old problem.new) }
    ensures certificate_suffix { TakesSome (between S2.left S2.faults certificate.old certificate.new) }
{
    accepted_law::<F>();
    root_law::<F>();
    let problem_bytes = bytes_of(alloc, Which::Problem, problem)?;
    let certificate_bytes = bytes_of(alloc, Which::Certificate, certificate)?;
    verdict_on(alloc, &problem_bytes, &certificate_bytes)
}
