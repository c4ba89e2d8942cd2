//! Tables of rows, each a question and the answer that it is to have.
#![tactic(auto)]

mod fault;
mod report;
mod tables;
mod texts;

pub use fault::Fault;
pub use report::{exit_of, work_tables};
pub use tables::{Answers, Report, worked};
pub use texts::{both, number, numbers, push, push_poly};
