//! The shortest cycle of a relation between robots, and a check of one.
#![tactic(auto)]

mod checker;
mod rows;
mod search;

pub use checker::check_cycle;
pub use search::cycle_through;
