//! The problem file: a fusion ring and a list of gauge entries, as JSON.
//!
//! ```json
//! {"labels":2,"products":[[1,1,0]],"gauge":[{"symbol":["F",1,1,1,1,0,0],"value":"1"}],"name":"Z2"}
//! ```
#![tactic(auto)]

mod file;
mod gauge;
mod laws;
mod problem;
mod reader;
mod symbols;

pub use laws::problem_answer_law;
pub use problem::{Place, Problem, ProblemFault};
pub use reader::read_problem;
