//! Laws of refutations and of their cones.
ghost use Rattle.std.specs.Prelude.{◌≡◌, ◌≢◌};
ghost use Rattle.derive_lines.specs.Refuting.{Refutes};
ghost use Rattle.refute_store.specs.Live.{IsWithin};
ghost use Rattle.refute_cert.specs.Cone.{IsCone, HavePolyMultipliers};
ghost use Rattle.refute_cert.specs.Refutations.{IsCertStop};
ghost use Rattle.refute_cert.specs.declared.CertStop.TheVariants.{OutOfMemory};

use derive_lines::answer_law;

/// Parts are a refutation, or are refused for one cause, and not both, but for a lack of memory.
pub fn cert_answer_law()
    ensures good { (root pattern lines end stop : _) → Refutes root pattern lines end → IsCertStop root pattern lines end stop → stop ≡ OutOfMemory }
    ensures one_stop { (root pattern lines end stop other : _) → IsCertStop root pattern lines end stop → IsCertStop root pattern lines end other → stop ≢ OutOfMemory → other ≢ OutOfMemory → stop ≡ other }
{
    answer_law();
}

/// There is one cone of an end.
pub fn cone_law()
    ensures { (root decisions lines end cone other : _) → IsCone root decisions lines end cone → IsCone root decisions lines end other → cone ≡ other }
{}

/// The cone of a refutation is a refutation, and its pattern is within the decisions.
pub fn good_cone_law()
    ensures good { (root decisions lines end cone : _) → HavePolyMultipliers lines → Refutes root decisions lines end → IsCone root decisions lines end cone → Refutes root cone.pattern cone.lines cone.end }
    ensures within { (root decisions lines end cone : _) → IsCone root decisions lines end cone → IsWithin cone.pattern decisions }
{}
