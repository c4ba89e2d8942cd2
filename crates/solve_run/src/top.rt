//! The run.

ghost use Rattle.std.specs.Prelude.{◌≡◌, ◌≤◌, ℕ, length, true, false, is_some, map, string_bytes, IfOk};
ghost use Rattle.cert_text.specs.Tables.{table};
ghost use Rattle.cert_text.specs.Numbers.{max_number, HasNumbersInRange};
ghost use Rattle.root_input.specs.Streams.{TakesSome, between};
ghost use Rattle.run_words.specs.Words.{IsSettings};
ghost use Rattle.solve_run.specs.Statuses.{may_write};
ghost use Rattle.solve_run.specs.Outcomes.{Counts, Ends, output_text};

use crate::input::root_for;
use crate::search::certificate_of;
use crate::status::Status;
use braid_io::{Sink, Source, write_all_of};
use case_history::{accepted_law, leaf_count, open_count};
use cert_summary::write_summary;
use cert_text::write_certificate;
use field_laws::CharZeroField;
use leaf_cert::{Certificate, RawEntry};
use root_system::laws::root_law;
use run_words::{settings_law, settings_of};
use std::alloc::{AllocError, Global};
use std::sync::Wait;
use std::thread::Threads;
use steal_workers::Gate;

/// Reads a problem from the source to its end, or makes one, searches for its solutions, and writes the certificate of the search, or its summary, to the
/// sink.
///
/// `words` leaves out the program's name. One command with the long options `--workers`, `--budget`, `--cyclic` and `--cube`, which take one value each,
/// and the flag `--summary` reads them. `Usage` comes exactly where they are refused, with the first cause, and then nothing is read. Where a ring is made,
/// the source and its count of faults are untouched. `ReadFault` comes only where a read failed, and `TooLong` exactly where more than 1,048,576 bytes
/// came. `Problem`, `TooManyUnknowns` and `TooManyEquations` come exactly where the bytes state no problem, or one with too many unknowns or equations.
/// After these and after `OutOfMemory` nothing was written. `Done` and `Open` come exactly where the whole text or summary was written, and `WriteFault`
/// where a write failed and only a proper prefix of it was written.
///
/// The text that was written is that of the certificate in version 2, and all its numbers are in the ranges that a text may have. On one
/// worker it is the certificate of the search that always settles the least pending case next; several settle cases in the order in which they take
/// turns. In the field, and so in every field of characteristic zero, an assignment is a solution of the
/// problem exactly if it meets a leaf of the certificate, and then it meets just one. After every status the bytes left are a suffix of those left before.
pub fn run<F: CharZeroField, R: Threads + Wait + Sync, S: Source, K: Sink, G: Gate + Sync>(
    rt: &R,
    alloc: Global,
    words: &[String],
    source: &mut S,
    sink: &mut K,
    gate: &G,
) -> Status
    // The headline: how the run ended, and what a certificate says in the field F.
    ensures ends { Ends F.field (map string_bytes words.now) (between S.left S.faults source.old source.new) (between K.written K.faults sink.old sink.new) result }

    // What stays as it was.
    ensures unread { (kind : _) → result ≡ Status.Usage kind → (source.new ≡ source.old) × (sink.new ≡ sink.old) }
    ensures untouched { (settings : _) → IsSettings (map string_bytes words.now) settings → is_some settings.made ≡ true → source.new ≡ source.old }
    ensures unwritten { may_write result ≡ false → sink.new ≡ sink.old }
    ensures suffix { TakesSome (between S.left S.faults source.old source.new) }
{
    settings_law();
    let settings = match settings_of(alloc, words) {
        Ok(settings) => settings,
        Err(stop) => return Status::from(stop),
    };
    let root = match root_for(alloc, settings.made, source) {
        Ok(root) => root,
        Err(fault) => return Status::from(fault),
    };
    let Ok(certificate) = certificate_of(rt, alloc, root, settings.budget, settings.workers, gate)
    else {
        return Status::OutOfMemory;
    };
    let Ok(text) = output_of(alloc, settings.summary, &certificate) else {
        return Status::OutOfMemory;
    };
    accepted_law::<F>();
    root_law::<F>();
    match write_all_of(sink, &text) {
        Ok(()) => status_of(certificate.entries.items()),
        Err(_) => Status::WriteFault,
    }
}

// What is written of a certificate.
fn output_of(alloc: Global, summary: bool, certificate: &Certificate) -> Result<Vec<u8>, AllocError>
    ensures text { IfOk result (λ v. v.items ≡ output_text summary certificate.now) }
    ensures numbers { IfOk result (λ _. summary ≡ false → HasNumbersInRange certificate.now) }
    ensures lines { IfOk result (λ _. summary ≡ false → length (table certificate.now) ≤ max_number) }
{
    if summary {
        return write_summary(alloc, certificate);
    }
    write_certificate(alloc, certificate)
}

// The status of a run that wrote these entries.
fn status_of(entries: &[RawEntry]) -> Status
    ensures { Counts entries.now result }
{
    let leaves = leaf_count(entries);
    match open_count(entries) {
        0 => Status::Done { leaves },
        opens => Status::Open { leaves, opens },
    }
}
