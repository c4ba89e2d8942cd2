//! Whether the head of a certificate is that of a root.
ghost use Rattle.std.specs.Prelude.{◌≡◌, MatchOption};
ghost use Rattle.cert_check.specs.Accepting.{HasHeadOf, IsHeadCause};

use crate::answers::RefuseCause;
use leaf_cert::Certificate;
use root_system::Root;

/// Why the head of a certificate is not that of a root, if it is not.
pub fn head_cause(root: &Root, certificate: &Certificate) -> Option<RefuseCause>
    ensures { MatchOption result (HasHeadOf root.now certificate.now) (IsHeadCause root.now certificate.now) }
{
    if certificate.unknowns != root.unknowns() {
        return Some(RefuseCause::Unknowns);
    }
    if certificate.equations as usize != root.equations().len() {
        return Some(RefuseCause::Equations);
    }
    None
}
