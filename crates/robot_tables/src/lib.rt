//! What is known of each robot beside the plan: where it ends, where it is and what it holds.
#![tactic(auto)]

pub mod laws;
pub mod tables;
