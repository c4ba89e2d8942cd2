//! The text of a certificate, as lines and as bytes, and its writer.
#![tactic(auto)]

mod keys;
mod parts;
mod sentence;
mod tables;
mod version;
mod writer;

pub use keys::{BorrowedKey, LineKey};
pub use sentence::Sentence;
pub use version::Version;
pub use writer::write_certificate;
