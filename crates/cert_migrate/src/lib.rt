//! A certificate's text, written again in version 2.
#![tactic(auto)]

ghost use Rattle.std.specs.Prelude.{◌≡◌, MatchResult};
ghost use Rattle.leaf_cert.specs.declared.certificate.Certificate.{Certificate};
ghost use Rattle.cert_text.specs.declared.version.Version.TheVariants as Version;
ghost use Rattle.cert_text.specs.Sentences.{text_in};
ghost use Rattle.cert_text.specs.Text.{IsText};
ghost use Rattle.cert_read.specs.Faults.{IsCertFault};

pub mod laws;

use cert_read::{CertFault, read_certificate};
use cert_text::write_certificate;
pub use laws::line_text_law;
use std::alloc::Global;

/// The text in version 2 of the certificate whose text, in either version, these bytes are. Each refusal is that of `read_certificate` on them, but that
/// memory can be wanting for the text as well.
pub fn migrate(alloc: Global, text: &[u8]) -> Result<Vec<u8>, CertFault>
    ensures { MatchResult result (λ v. (c : Certificate) × IsText text.now c × (v.items ≡ text_in Version.Two c)) (IsCertFault text.now) }
{
    let certificate = read_certificate(alloc, text)?;
    Ok(write_certificate(alloc, &certificate)?)
}
