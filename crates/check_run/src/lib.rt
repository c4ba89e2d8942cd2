//! The whole of a check: from the bytes of a problem and of a certificate to the line of the verdict. Or a certificate's text is written again in version 2.
#![tactic(auto)]

mod inputs;
pub mod laws;
mod lines;
mod migrating;
mod status;
mod top;
mod verdict;

pub use laws::check_outcome_law;
pub use lines::check_line;
pub use status::{CheckStatus, Verdict, Which, check_exit};
pub use top::run_check;
