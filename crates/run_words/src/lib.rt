//! What the words of a run ask for.
#![tactic(auto)]

mod given;
pub mod laws;
mod settings;

pub use laws::settings_law;
pub use settings::{Made, Settings, UsageKind, WordsStop, settings_of};
