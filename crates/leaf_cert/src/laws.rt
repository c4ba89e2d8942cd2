//! A law of leaves in every field of characteristic zero.
ghost use Rattle.std.specs.Prelude.{◌≡◌, ◌≢◌, ◌↔◌};
ghost use Rattle.field_laws.specs.Field.{AllElements};
ghost use Rattle.derive_lines.specs.Refuting.{AllVanish, AllHold};
ghost use Rattle.leaf_cert.specs.Leaves.{GoodLeaf, Meets, IsLeafStop};
ghost use Rattle.leaf_cert.specs.declared.leaf.LeafStop.TheVariants.{OutOfMemory};

use derive_lines::answer_law;
use field_laws::CharZeroField;

/// A good leaf is met exactly where the root vanishes and its decisions hold.
pub fn leaf_law<F: CharZeroField>()
    ensures { (s : _) (root leaf : _) → AllElements F.field s → GoodLeaf root leaf → (Meets F.field s leaf ↔ (AllVanish F.field s root × AllHold F.field s leaf.decisions)) }
{}

/// Parts are a leaf, or are refused for one cause, and not both, but for a lack of memory.
pub fn leaf_answer_law()
    ensures good { (root leaf stop : _) → GoodLeaf root leaf → IsLeafStop root leaf.decisions leaf.lines leaf.equations leaf.end stop → stop ≡ OutOfMemory }
    ensures one_stop { (root ds ls equations end stop other : _) → IsLeafStop root ds ls equations end stop → IsLeafStop root ds ls equations end other → stop ≢ OutOfMemory → other ≢ OutOfMemory → stop ≡ other }
{
    answer_law();
}
