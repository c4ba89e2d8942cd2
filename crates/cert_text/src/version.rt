//! The versions of the text.

/// A version of the text of certificates. Version 1 writes out each line of a derivation where it stands. Version 2 writes each different line
/// once, in a table, and then its place.
#[derive(Clone, Copy, Debug, PartialEq, Eq)]
pub enum Version {
    One,
    Two,
}
