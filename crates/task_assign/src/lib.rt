//! The assignment of rows to columns of least total, and a check of one.
#![tactic(auto)]

mod assignment;
mod checker;
mod costs;
mod greatest;
mod laws;
mod least_list;
mod least_total;
mod numbers;
mod pairing;
mod search;
mod tree;

pub use assignment::Assignment;
pub use checker::check_assignment;
pub use costs::Costs;
pub use laws::{assignment_is_unique, shown_is_least};
pub use search::assign;
