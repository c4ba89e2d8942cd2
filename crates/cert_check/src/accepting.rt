//! Whether a certificate is accepted.
ghost use Rattle.std.specs.Prelude.{◌≡◌, MatchResult, reverse};
ghost use Rattle.case_history.specs.Replay.{Accepted};
ghost use Rattle.cert_check.specs.Kept.{IsReplay};
ghost use Rattle.cert_check.specs.Refusals.{IsReplayStop};
ghost use Rattle.cert_check.specs.Accepting.{AreCounts, IsAcceptStop};

use crate::answers::{AcceptStop, Counts, Part, RefuseCause};
use crate::head::head_cause;
use crate::replay::Replay;
use case_history::{leaf_count, open_count};
use leaf_cert::{Certificate, RawEntry};
use root_system::Root;
use sparse_poly::Poly;
use std::alloc::Global;

/// Checks a certificate against a root: its head is tested first, then each entry in order, and at the end no case may be pending. Where it is
/// accepted, in every field an assignment is a zero of the root exactly if it meets just one of the leaves (`case_history::accepted_law`). `Refused`
/// comes exactly where it is not: it names the first part that fails, and its first cause. Neither the budget, nor the order of the moves, nor
/// whether a closing pattern is live, is judged.
pub fn accept(alloc: Global, root: &Root, certificate: &Certificate) -> Result<Counts, AcceptStop>
    ensures { MatchResult result (λ counts. Accepted root.now.unknowns root.now.equations certificate.now × AreCounts certificate.now counts) (IsAcceptStop root.now certificate.now) }
{
    if let Some(cause) = head_cause(root, certificate) {
        return Err(AcceptStop::Refused {
            part: Part::Header,
            number: 0,
            cause,
        });
    }
    let entries = certificate.entries.items();
    let replay = replayed(alloc, root.equations(), entries)?;
    if let Some(number) = replay.least_pending() {
        return Err(AcceptStop::Refused {
            part: Part::Whole,
            number,
            cause: RefuseCause::Pending,
        });
    }
    Ok(Counts {
        leaves: leaf_count(entries),
        opens: open_count(entries),
    })
}

// The replay of all entries, or the first that is refused.
fn replayed<'a>(
    alloc: Global,
    root: &[Poly],
    entries: &'a [RawEntry],
) -> Result<Replay<'a>, AcceptStop>
    ensures { MatchResult result (IsReplay root.now (reverse entries.now)) (IsReplayStop root.now entries.now) }
{
    let mut replay = Replay::new(alloc)?;
    for entry in entries {
        replay.enter(alloc, root, entry)?;
    }
    Ok(replay)
}
