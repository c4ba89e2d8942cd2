//! A certificate, read and written again in version 2.

ghost use Rattle.std.specs.Prelude.{◌≡◌, false, MatchResult};
ghost use Rattle.root_input.specs.Streams.{TakesSome, between};
ghost use Rattle.check_run.specs.Statuses.{may_write};
ghost use Rattle.check_run.specs.Migrations.{ReadsCertificate, IsNotMigrated, MigrationEnds};

use crate::inputs::bytes_of;
use crate::status::{CheckStatus, Which};
use braid_io::{Sink, Source, write_all_of};
use cert_read::read_certificate;
use cert_text::write_certificate;
use leaf_cert::Certificate;
use std::alloc::Global;

/// Reads a certificate to its end, and writes its text in version 2 to the sink.
pub(crate) fn migrate_from<S: Source, K: Sink>(
    alloc: Global,
    certificate: &mut S,
    sink: &mut K,
) -> CheckStatus
    ensures ends { MigrationEnds (between S.left S.faults certificate.old certificate.new) (between K.written K.faults sink.old sink.new) result }
    ensures unwritten { may_write result ≡ false → sink.new ≡ sink.old }
    ensures suffix { TakesSome (between S.left S.faults certificate.old certificate.new) }
{
    let read = match certificate_of(alloc, certificate) {
        Ok(read) => read,
        Err(status) => return status,
    };
    let Ok(text) = write_certificate(alloc, &read) else {
        return CheckStatus::OutOfMemory;
    };
    let entries = read.entries.items().len() as u64;
    match write_all_of(sink, &text) {
        Ok(()) => CheckStatus::Migrated { entries },
        Err(_) => CheckStatus::WriteFault,
    }
}

// The certificate whose text the source tells. The bytes are let go before it is written.
fn certificate_of<S: Source>(alloc: Global, source: &mut S) -> Result<Certificate, CheckStatus>
    ensures read { MatchResult result (ReadsCertificate (between S.left S.faults source.old source.new)) (IsNotMigrated (between S.left S.faults source.old source.new)) }
    ensures suffix { TakesSome (between S.left S.faults source.old source.new) }
{
    let bytes = bytes_of(alloc, Which::Certificate, source)?;
    match read_certificate(alloc, &bytes) {
        Ok(read) => Ok(read),
        Err(fault) => Err(CheckStatus::from(fault)),
    }
}
