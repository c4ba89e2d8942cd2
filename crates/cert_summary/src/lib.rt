//! The summary of a certificate.
#![tactic(auto)]

mod counting;
mod summary;

pub use counting::{EntryKind, kind_count};
pub use summary::write_summary;
