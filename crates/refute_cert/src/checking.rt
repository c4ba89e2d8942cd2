//! Whether parts are a refutation.
ghost use Rattle.std.specs.Prelude.{◌≡◌, MatchResult};
ghost use Rattle.derive_lines.specs.Refuting.{Refutes};
ghost use Rattle.refute_cert.specs.Refutations.{IsCertStop};

use crate::CertStop;
use crate::ending::ends;
use derive_lines::{Decision, Item, Line, LineStop, check_lines};
use sparse_poly::Poly;
use std::alloc::Global;

/// Checks that the lines are good and that the end is a contradiction. `Line` comes exactly where a line is bad, and `End` exactly where the lines
/// are good and the end is no item, or one that is neither a nonzero constant nor the polynomial of a nonzero decision of the pattern.
pub fn check_refutation(
    alloc: Global,
    root: &[Poly],
    pattern: &[Decision],
    lines: &[Line],
    end: Item,
) -> Result<(), CertStop>
    ensures { MatchResult result (λ _. Refutes root.now pattern.now lines.now end) (IsCertStop root.now pattern.now lines.now end) }
{
    match check_lines(alloc, root, pattern, lines) {
        Ok(()) => {}
        Err(LineStop::BadLine { k, cause }) => return Err(CertStop::Line { k, cause }),
        Err(LineStop::Lost { .. }) => unreachable!(),
        Err(LineStop::OutOfMemory) => return Err(CertStop::OutOfMemory),
    }
    if !ends(root, pattern, lines, end) {
        return Err(CertStop::End);
    }
    Ok(())
}
