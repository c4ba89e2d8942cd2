//! Laws of legal histories.
ghost use Rattle.std.specs.Prelude.{◌≡◌, ◌<◌, ◌≤◌, ℕ, List, ◌++◌, length, reverse};
ghost use Rattle.field_laws.specs.Field.{AllElements};
ghost use Rattle.derive_lines.specs.Refuting.{AllVanish, HoldsAt};
ghost use Rattle.case_rules.specs.Belonging.{Belongs, IsRootList};
ghost use Rattle.leaf_cert.specs.Leaves.{Meets};
ghost use Rattle.leaf_cert.specs.declared.certificate.Certificate.{Certificate};
ghost use Rattle.leaf_cert.specs.declared.certificate.RawEntry.{RawEntry};
ghost use Rattle.case_history.specs.History.{IsPending, IsLeastPending, IsComplete};
ghost use Rattle.case_history.specs.JustOne.{IsAtJustOne, MeetsJustOneLeaf};
ghost use Rattle.case_history.specs.Replay.{Replays, Accepted};
ghost use Rattle.legal_history.specs.Legal.{IsCase, IsEndOf, Step, Grows, IsLegal, IsSerial};
ghost use Rattle.legal_history.specs.Tree.{AreTreeLeaves};
ghost use Rattle.legal_history.specs.Work.{work_left};

use case_history::{history_law, leaves_law};
use case_rules::end_law;
use field_laws::CharZeroField;

/// Each entry of a legal history may come after those before it.
pub fn legal_law()
    ensures { (root budget h : _) → IsRootList root → IsLegal root budget h → Replays root h }
{
    end_law();
}

/// A complete legal history makes an accepted certificate, where the head is that of the root.
pub fn complete_law()
    ensures { (root budget h : _) (c : Certificate) → IsRootList root → IsLegal root budget h → IsComplete h → c.equations ≡ length root → c.entries ≡ reverse h → Accepted c.unknowns root c }
{
    legal_law();
}

/// In every field: after a legal history an assignment is a zero of the root exactly if it holds at a pending case or meets a published leaf, and
/// then at just one case. After a complete one it is a zero exactly if it meets just one of the leaves.
pub fn zeros_law<F: CharZeroField>()
    ensures cases { (s : _) (root budget h : _) → AllElements F.field s → IsRootList root → IsLegal root budget h → IsAtJustOne (AllVanish F.field s root) (HoldsAt F.field s root) (Meets F.field s) h }
    ensures leaves { (s : _) (root budget h : _) → AllElements F.field s → IsRootList root → IsLegal root budget h → IsComplete h → MeetsJustOneLeaf (AllVanish F.field s root) (Meets F.field s) (reverse h) }
{
    legal_law();
    history_law::<F>();
    leaves_law::<F>();
}

/// Each published leaf is one of the plain tree, and each leaf of the plain tree is published, or lies at or under a case that is pending or closed.
pub fn tree_law()
    ensures { (root budget h : _) → IsRootList root → IsLegal root budget h → AreTreeLeaves root budget h }
{
    end_law();
}

/// A history that grows by steps begins with the one that it goes on from, and one growth after another is a growth.
pub fn growth_law()
    ensures begins { (root budget base h : _) → Grows root budget IsPending base h → (more : List RawEntry) × (h ≡ more ++ base) }
    ensures on { (root budget base middle h : _) → Grows root budget IsPending base middle → Grows root budget IsPending middle h → Grows root budget IsPending base h }
{}

/// A serial history is legal, and just one of them is complete.
pub fn serial_law()
    ensures legal { (root budget h : _) → IsSerial root budget h → IsLegal root budget h }
    ensures step { (root budget h more : _) → Step root budget IsLeastPending h more → Step root budget IsPending h more }
    ensures one { (root budget h other : _) → IsRootList root → IsSerial root budget h → IsSerial root budget other → IsComplete h → IsComplete other → h ≡ other }
{
    end_law();
}

/// Each case of a history belongs to the root and has at most so many moves as the budget, and a case and its end are the same in each history that
/// goes on from a legal one by legal steps.
pub fn case_law()
    ensures belongs { (root budget h n c : _) → IsRootList root → IsCase root budget h n c → Belongs root c }
    ensures few { (root budget h n c : _) → IsRootList root → IsCase root budget h n c → c.moves ≤ budget }
    ensures one { (root budget h n c other : _) → IsRootList root → IsCase root budget h n c → IsCase root budget h n other → c ≡ other }
    ensures stays { (root budget : _) (more base : List RawEntry) (n c : _) → IsRootList root → IsCase root budget base n c → IsLegal root budget (more ++ base) → IsCase root budget (more ++ base) n c }
    ensures ends { (root budget : _) (more base : List RawEntry) (n o : _) → IsRootList root → IsEndOf root budget base n o → IsLegal root budget (more ++ base) → IsEndOf root budget (more ++ base) n o }
{
    end_law();
}

/// Each step from a legal history leaves less work.
pub fn work_law()
    ensures { (root budget h more : _) → IsRootList root → IsLegal root budget h → Step root budget IsPending h more → work_left budget more < work_left budget h }
{
    end_law();
}
