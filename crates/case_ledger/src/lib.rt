//! The board of a search: the cases that are pending, the patterns of refutations, and the history of what was settled, which is legal.
#![tactic(auto)]

mod answers;
mod board;
mod copies;
mod entries;
mod kept_board;
pub mod laws;
mod nodes;
mod rooting;

pub use answers::{Look, Reply, Unsettled};
pub use board::Board;
pub use kept_board::BoardOrigin;
pub use laws::settle_law;
