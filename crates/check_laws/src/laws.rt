//! A certificate that a run wrote, as a check sees it.

ghost use Rattle.std.specs.Prelude.{◌≡◌, ◌≤◌, ◌⊎◌, length};
ghost use Rattle.solve_run.specs.Outcomes.{Ends};
ghost use Rattle.check_run.specs.Words.{AsksCheck};
ghost use Rattle.check_run.specs.Inputs.{max_certificate_bytes};
ghost use Rattle.check_run.specs.Outcomes.{CheckEnds};
ghost use Rattle.check_run.specs.Completeness.{GoesWell};
ghost use Rattle.check_run.specs.declared.status.CheckStatus.TheVariants.{Accepted, OutOfMemory};
ghost use Rattle.check_laws.specs.Written.{WroteAll, Wrote, IsGiven, IsNeverRefused};

use cert_check::refusal_law;
use cert_read::certificate_law;
use check_run::check_outcome_law;
use field_laws::CharZeroField;
use ring_make::made_law;
use root_input::{reading_law, root_stop_law};
use run_words::settings_law;

/// A certificate that `solve_run::run` wrote with the status `Done` or `Open`, without the summary, is never `Refused` and never `Certificate` by
/// `check_run::run_check` on the same problem, whether or not reads fail. The check's first source tells the bytes that the run's source told, or others
/// that state the problem that its words make, and the second one tells what the run wrote. Where that has at most
/// 268,435,456 bytes, and the check has two words, of which the first is not `--migrate`, and no fault of a source or a sink, the check ends in `Accepted` with the leaves and the open leaves
/// of the run, or for want of memory.
pub fn written_law<F: CharZeroField>()
    ensures never { (words source sink status leaves opens bytes text others problem certificate out ending : _) → Ends F.field words source sink status → WroteAll status leaves opens → Wrote words source sink bytes text → IsGiven problem certificate bytes text → CheckEnds F.field others problem certificate out ending → IsNeverRefused ending }
    ensures accepted { (words source sink status leaves opens bytes text others problem certificate out ending : _) → Ends F.field words source sink status → WroteAll status leaves opens → Wrote words source sink bytes text → length text ≤ max_certificate_bytes → AsksCheck others → GoesWell problem certificate out bytes text → CheckEnds F.field others problem certificate out ending → (ending ≡ Accepted leaves opens) ⊎ (ending ≡ OutOfMemory) }
{
    certificate_law();
    check_outcome_law::<F>();
    made_law();
    reading_law();
    refusal_law();
    root_stop_law();
    settings_law();
}
