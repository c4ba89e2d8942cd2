//! What the contracts of the crate say of the problems.

ghost use Rattle.std.specs.Prelude.{◌≡◌};
ghost use Rattle.ring_make.specs.Made.{IsPointed};

use fusion_ring::ring_answer_law;

/// Each of these problems is one.
pub fn made_law()
    ensures { (n product first second : _) → IsPointed n product first → IsPointed n product second → first ≡ second }
{
    ring_answer_law();
}
