//! What the contracts say of texts and answers together.
ghost use Rattle.std.specs.Prelude.{◌≡◌, ◌≢◌};
ghost use Rattle.cert_text.specs.Text.{IsText};
ghost use Rattle.cert_read.specs.Faults.{IsCertFault};
ghost use Rattle.cert_read.specs.declared.reader.CertFault.TheVariants.{OutOfMemory};

/// Bytes are the text of at most one certificate; the text of a certificate has no fault, and other bytes have at most one, but for a lack of
/// memory. So where there is memory, `read_certificate` gives a fault exactly where the bytes have it.
pub fn certificate_law()
    ensures one { (text c d : _) → IsText text c → IsText text d → c ≡ d }
    ensures ok { (text c fault : _) → IsText text c → IsCertFault text fault → fault ≡ OutOfMemory }
    ensures one_fault { (text first second : _) → IsCertFault text first → IsCertFault text second → first ≢ OutOfMemory → second ≢ OutOfMemory → first ≡ second }
{}
