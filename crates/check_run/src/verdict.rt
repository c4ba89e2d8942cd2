//! The verdict on the bytes of both inputs.

ghost use Rattle.std.specs.Prelude.{MatchResult};
ghost use Rattle.check_run.specs.Verdicts.{IsVerdict, HasNoVerdict};

use crate::status::{CheckStatus, Verdict};
use cert_check::{AcceptStop, accept};
use cert_read::read_certificate;
use root_input::root_of_bytes;
use std::alloc::Global;

/// The verdict on a certificate's bytes for a problem's.
pub(crate) fn verdict_on(
    alloc: Global,
    problem: &[u8],
    certificate: &[u8],
) -> Result<Verdict, CheckStatus>
    ensures { MatchResult result (IsVerdict problem.now certificate.now) (HasNoVerdict problem.now certificate.now) }
{
    let root = root_of_bytes(alloc, problem)?;
    let certificate = read_certificate(alloc, certificate)?;
    match accept(alloc, &root, &certificate) {
        Ok(counts) => Ok(Verdict::Accepted {
            leaves: counts.leaves,
            opens: counts.opens,
        }),
        Err(
            AcceptStop::Refused {
                part,
                number,
                cause,
            },
        ) => Ok(Verdict::Refused {
            part,
            number,
            cause,
        }),
        Err(AcceptStop::OutOfMemory) => Err(CheckStatus::OutOfMemory),
    }
}
