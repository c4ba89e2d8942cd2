//! Laws of boards.
ghost use Rattle.std.specs.Prelude.{◌<◌};
ghost use Rattle.case_rules.specs.Belonging.{IsRootList};
ghost use Rattle.case_history.specs.History.{IsPending, IsLeastPending};
ghost use Rattle.legal_history.specs.Legal.{IsEndOf, IsLegal};
ghost use Rattle.legal_history.specs.Work.{work_left};
ghost use Rattle.case_ledger.specs.State.{BoardState};
ghost use Rattle.case_ledger.specs.Board.{Settles, StepsOn, GoesOn};
ghost use Rattle.case_ledger.specs.CaseLaws.{AreCaseLaws};

use case_rules::end_law;
use legal_history::{case_law, legal_law, serial_law, work_law};

/// Settling a pending case with its end is one step of the history. Where the case is the least pending one, it is a step of a serial history, and
/// after such a step less work is left.
pub fn settle_law()
    ensures step { (b n o reply new : _) → IsPending b.history n → IsEndOf b.root.equations b.budget b.history n o → Settles b n o reply new → StepsOn IsPending b new }
    ensures serial { (b n o reply new : _) → IsLeastPending b.history n → IsEndOf b.root.equations b.budget b.history n o → Settles b n o reply new → StepsOn IsLeastPending b new }
    ensures less { (b new : BoardState) → IsRootList b.root.equations → IsLegal b.root.equations b.budget b.history → StepsOn IsLeastPending b new → work_left new.budget new.history < work_left b.budget b.history }
    ensures start { (b : _) → GoesOn IsLeastPending b b }
    ensures on { (base b new : _) → GoesOn IsLeastPending base b → StepsOn IsLeastPending b new → GoesOn IsLeastPending base new }
{
    work_law();
    serial_law();
}

// What is used here of the ends of cases and of legal histories.
pub fn case_laws()
    ensures { (root budget : _) → IsRootList root → AreCaseLaws root budget }
{
    end_law();
    legal_law();
    case_law();
}
