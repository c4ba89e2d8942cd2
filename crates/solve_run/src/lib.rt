//! The whole of a run: from the bytes of a problem, or a ring that is made, to the bytes of a certificate or its summary.
#![tactic(auto)]

mod input;
pub mod laws;
mod search;
mod status;
mod top;

pub use laws::outcome_law;
pub use run_words::UsageKind;
pub use status::{Status, exit_code, status_line};
pub use top::run;
