//! The words and the bytes tell how a run ends, but for faults and want of memory.

ghost use Rattle.std.specs.Prelude.{◌≡◌, ◌≢◌, ◌⊎◌};
ghost use Rattle.run_words.specs.Words.{IsSettings, IsUsageFault};
ghost use Rattle.solve_run.specs.Completeness.{TellsFor, GoesWell, CanBeSearched, IsSearchedOr};
ghost use Rattle.solve_run.specs.Outcomes.{Refuses, Ends};
ghost use Rattle.solve_run.specs.declared.status.Status.TheVariants.{Usage, OutOfMemory};

use field_laws::CharZeroField;
use ring_make::made_law;
use root_input::{reading_law, root_stop_law};
use root_system::laws::root_answer_law;
use run_words::settings_law;

/// Each status comes exactly where it is told to.
///
/// Where the words give no settings, a run ends by what is wrong with them, or for want of memory. Where they give them, and no write and, where a problem
/// is read, no read failed: bytes that are too many or state no problem with a root, or a made ring without one, end each run on them in the one status
/// that says why, and those with a root end it in `Done` or `Open`, or for want of memory.
pub fn outcome_law<F: CharZeroField>()
    ensures usage { (words source sink kind status : _) → IsUsageFault words kind → Ends F.field words source sink status → (status ≡ Usage kind) ⊎ (status ≡ OutOfMemory) }
    ensures refused { (words settings source sink other bytes asked status : _) → IsSettings words settings → GoesWell settings.made source sink bytes → TellsFor settings.made other bytes → Refuses other settings.made asked → asked ≢ OutOfMemory → Ends F.field words source sink status → (status ≡ asked) ⊎ (status ≡ OutOfMemory) }
    ensures complete { (words settings source sink bytes status : _) → IsSettings words settings → GoesWell settings.made source sink bytes → CanBeSearched settings.made bytes → Ends F.field words source sink status → IsSearchedOr status }
{
    made_law();
    reading_law();
    root_answer_law();
    root_stop_law();
    settings_law();
}
