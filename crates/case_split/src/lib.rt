//! The strategy on one case.
#![tactic(auto)]

mod conditions;
mod dead;
mod ends;
mod linear;
mod pairs;
mod rules;
mod run;
mod variables;

pub use run::run_case;
