//! The reader of a certificate's text.
#![tactic(auto)]

mod laws;
mod machine;
mod reader;
mod table;

pub use laws::certificate_law;
pub use reader::{CertFault, read_certificate};
