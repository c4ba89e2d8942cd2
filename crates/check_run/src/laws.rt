//! The words and the bytes tell how a check ends, but for faults and want of memory.

ghost use Rattle.std.specs.Prelude.{◌≡◌, ◌≢◌, ◌⊎◌, true, length};
ghost use Rattle.check_run.specs.Words.{asks_migration, AsksCheck};
ghost use Rattle.check_run.specs.Outcomes.{CheckEnds};
ghost use Rattle.check_run.specs.Completeness.{GoesWell, IsAnswer, CanBeChecked, IsVerdictOr, MigratesWell, IsMigrationAnswer};
ghost use Rattle.check_run.specs.declared.status.CheckStatus.TheVariants.{Usage, OutOfMemory};

use cert_check::refusal_law;
use cert_read::certificate_law;
use field_laws::CharZeroField;
use root_input::{reading_law, root_stop_law};

/// Each status comes exactly where it is told to.
///
/// Where there are not two words, a check ends in `Usage`. Where there are two, the first is not `--migrate`, and no read and no write failed, it ends in
/// the one answer that its bytes have, or for want of memory. So where the bytes are not too long, state a problem with a root, and are the text of a certificate, it ends in
/// `Accepted` where the certificate is accepted for the root and in `Refused` where it is not, or for want of memory.
///
/// Where the first of two words is `--migrate`, and no read of the certificate and no write failed, it ends in the one answer that the certificate's bytes
/// have, or for want of memory: `Migrated` with the number of its entries where they are the text of a certificate and not too long.
pub fn check_outcome_law<F: CharZeroField>()
    ensures usage { (words problem certificate sink status : _) → length words ≢ 2 → CheckEnds F.field words problem certificate sink status → status ≡ Usage }
    ensures answer { (words problem certificate sink first second asked status : _) → GoesWell problem certificate sink first second → AsksCheck words → IsAnswer first second asked → CheckEnds F.field words problem certificate sink status → (status ≡ asked) ⊎ (status ≡ OutOfMemory) }
    ensures complete { (words problem certificate sink first second root checked status : _) → GoesWell problem certificate sink first second → AsksCheck words → CanBeChecked first second root checked → CheckEnds F.field words problem certificate sink status → IsVerdictOr root checked status }
    ensures migration { (words problem certificate sink bytes asked status : _) → MigratesWell certificate sink bytes → asks_migration words ≡ true → IsMigrationAnswer bytes asked → CheckEnds F.field words problem certificate sink status → (status ≡ asked) ⊎ (status ≡ OutOfMemory) }
{
    certificate_law();
    reading_law();
    refusal_law();
    root_stop_law();
}
