//! Laws of cases, their moves and their ends.
ghost use Rattle.std.specs.Prelude.{◌≡◌, ◌⊎◌, ◌↔◌, true, false};
ghost use Rattle.sparse_poly.specs.Contributions.{IsPoly};
ghost use Rattle.derive_lines.specs.Refuting.{IsSo, HoldsAt};
ghost use Rattle.case_rules.specs.Cases.{root_case};
ghost use Rattle.case_rules.specs.Branches.{IsReduced, IsBranch, CanReduce, CanSplit, CanMake};
ghost use Rattle.case_rules.specs.Rules.{IsMove};
ghost use Rattle.case_rules.specs.Ends.{IsEnd};
ghost use Rattle.case_rules.specs.Belonging.{Belongs, IsRootList};
ghost use Rattle.case_rules.specs.EndLaws.{AreEndLaws};

use field_laws::{CharZeroField, decide_law};
use pseudo_rem::remainder_answer_law;
use refute_cert::{cone_law, good_cone_law};

/// In every field an assignment holds at a branch exactly where it holds at the case and the decision of the branch is so. So where it holds at
/// a case, it holds at one of its two branches, and at no more than one.
pub fn branch_law<F: CharZeroField>()
    ensures branch { (root s c by zero tail d : _) → IsBranch c by zero tail d → HoldsAt F.field s root d.decisions ↔ (HoldsAt F.field s root c.decisions × IsSo F.field s zero by) }
    ensures one { (root s c by tail z n : _) → IsBranch c by true tail z → IsBranch c by false tail n → HoldsAt F.field s root c.decisions → HoldsAt F.field s root z.decisions ⊎ HoldsAt F.field s root n.decisions }
    ensures not_both { (root s c by tail z n : _) → IsBranch c by true tail z → IsBranch c by false tail n → HoldsAt F.field s root z.decisions → HoldsAt F.field s root n.decisions → ⊥ }
{
    decide_law::<F>();
}

/// A reduction changes nothing about where a case holds.
pub fn reduction_law<F: CharZeroField>()
    ensures { (root s c q p v d : _) → IsReduced c q p v d → HoldsAt F.field s root d.decisions ↔ HoldsAt F.field s root c.decisions }
{}

/// The root case belongs to its root, and reductions and branches that can be made keep that a case belongs to a root.
pub fn belongs_law()
    ensures root { (root : _) → IsRootList root → Belongs root (root_case root) }
    ensures reduction { (root c q p v d : _) → CanReduce c q p v → IsReduced c q p v d → Belongs root c → Belongs root d }
    ensures branch { (root c by zero tail d : _) → IsPoly by → CanSplit c by tail → IsBranch c by zero tail d → Belongs root c → Belongs root d }
{}

/// Where a case belongs to a root, at most one move is due, and it can be made.
pub fn move_law()
    ensures one { (root c m n : _) → Belongs root c → IsMove c m → IsMove c n → m ≡ n }
    ensures can { (root c m : _) → Belongs root c → IsMove c m → CanMake c m }
{}

/// The root case belongs to its root. A case that belongs to a root has one end; its branches belong too, with one decision and one move more,
/// within the budget; its refutation and its leaf check, and the leaf has its decisions.
pub fn end_law()
    ensures { (root budget : _) → IsRootList root → AreEndLaws root budget }
{
    remainder_answer_law();
    cone_law();
    good_cone_law();
}
