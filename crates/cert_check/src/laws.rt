//! Laws of the check of a certificate.
ghost use Rattle.std.specs.Prelude.{◌≡◌, ◌≢◌};
ghost use Rattle.root_system.specs.Forms.{RootEquations};
ghost use Rattle.case_history.specs.Replay.{Accepted};
ghost use Rattle.cert_check.specs.Accepting.{IsAcceptStop};
ghost use Rattle.cert_check.specs.declared.answers.AcceptStop.TheVariants.{OutOfMemory};

use leaf_cert::leaf_answer_law;
use refute_cert::cert_answer_law;

/// A certificate is accepted, or is refused for one part and one cause, and not both, but for a lack of memory.
pub fn refusal_law()
    ensures refused { (root : RootEquations) (certificate stop : _) → Accepted root.unknowns root.equations certificate → IsAcceptStop root certificate stop → stop ≡ OutOfMemory }
    ensures one { (root : RootEquations) (certificate stop other : _) → IsAcceptStop root certificate stop → IsAcceptStop root certificate other → stop ≢ OutOfMemory → other ≢ OutOfMemory → stop ≡ other }
{
    cert_answer_law();
    leaf_answer_law();
}
