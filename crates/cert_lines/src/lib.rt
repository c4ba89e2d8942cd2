//! What one line of a certificate's text says.
#![tactic(auto)]

mod fields;
mod kind;
mod lines;
mod notes;

pub use fields::{behind, split_field};
pub use kind::{Kind, kind_by_word};
pub use lines::read_sentence;
pub use notes::{LineFault, Notes};
