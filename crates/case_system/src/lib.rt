//! Equations of a case and the known conditions, which are stripped off and divided out of them.
#![tactic(auto)]

mod clearing;
mod conditions;
mod copies;
mod exchanging;
mod kept;
mod lines;
mod outline;
mod system;
mod variables;

pub use conditions::Conditions;
pub use copies::copied_polys;
pub use kept::item_of;
pub use lines::{CaseLines, copied_lines};
pub use system::System;
pub use variables::lowest_dividing;
