//! Histories of a search: which entries may come after others, and what the cases and leaves that they leave say of the zeros of the root.
//!
//! A history is a list of entries, the newest first. Its laws hold for every replay of entries that may come, whichever strategy made them.
#![tactic(auto)]

mod counting;
pub mod laws;
mod within;

pub use counting::{leaf_count, open_count};
pub use laws::{accepted_law, history_law, leaves_law, once_law, pattern_law};
pub use within::is_within;
