//! The check of a certificate against a root: its entries are replayed in order, and at the end no case may be pending.
#![tactic(auto)]

mod accepting;
mod answers;
mod head;
pub mod laws;
mod path;
mod replay;

pub use accepting::accept;
pub use answers::{AcceptStop, Counts, Part, RefuseCause};
pub use laws::refusal_law;
