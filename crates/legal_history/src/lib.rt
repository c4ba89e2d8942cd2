//! Legal histories of a search: those in which each entry is the end of a case, or closes one by the least live pattern within its decisions.
#![tactic(auto)]

pub mod laws;

pub use laws::{
    case_law, complete_law, growth_law, legal_law, serial_law, tree_law, work_law, zeros_law,
};
