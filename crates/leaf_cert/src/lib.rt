//! Leaves: equations that, with conditions, hold exactly where the root vanishes and the decisions hold; and certificates.
#![tactic(auto)]

mod certificate;
mod checking;
mod ending;
mod ends;
mod equations;
pub mod laws;
mod leaf;
mod rows;

pub use certificate::{Certificate, RawEntry};
pub use checking::check_leaf;
pub use ends::{LeafEnd, OpenCause, StepKind, Stop};
pub use laws::{leaf_answer_law, leaf_law};
pub use leaf::{Leaf, LeafStop};
pub use rows::Rows;
