//! Cases of the search: decisions, equations, lines and moves, which are reduced and branched.
#![tactic(auto)]

mod case;
mod copies;
mod shared_case;
mod shown;

pub use case::Case;
pub use case_system::{copied_lines, copied_polys};
pub use copies::copied_decisions;
pub use shared_case::SharedCase;
pub use shown::{Decisions, Equations, Lines};
