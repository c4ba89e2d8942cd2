//! What the contract of `Ring::new` says of its answers together, and of the ring's channels.

ghost use Rattle.std.specs.Prelude.{◌≡◌, ◌≢◌, ◌↔◌, IsTrue};
ghost use Rattle.fusion_ring.specs.Fusion.{channel};
ghost use Rattle.fusion_ring.specs.Listed.{IsStatedProduct};
ghost use Rattle.fusion_ring.specs.Faults.{IsRingOf, IsRingFault};

use crate::{RingFault, Triple};

/// Apart from want of memory a list of triples has at most one answer, a ring or a fault. So where
/// there is memory, `Ring::new` gives a fault exactly where the list has it.
pub fn ring_answer_law()
    ensures ok { (n products ring fault : _) → IsRingOf n products ring → IsRingFault n products fault → fault ≡ RingFault.OutOfMemory }
    ensures one { (n products first second : _) → IsRingFault n products first → IsRingFault n products second → first ≢ RingFault.OutOfMemory → second ≢ RingFault.OutOfMemory → first ≡ second }
    ensures ring { (n products first second : _) → IsRingOf n products first → IsRingOf n products second → first ≡ second }
{}

/// In the ring that a list of triples states N(a,b,c) = 1 exactly for the listed triples and for the
/// products of the unit, `0 * a = a = a * 0`.
pub fn channel_law()
    ensures { (n products ring : _) → IsRingOf n products ring → (t : Triple) → IsTrue (channel ring t.a t.b t.c) ↔ IsStatedProduct n products t }
{}
