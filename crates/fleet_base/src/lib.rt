//! The plain data of a fleet: numbers, events, short lists, journal entries, answers and limits.
#![tactic(auto)]

pub mod answers;
pub mod claim_set;
pub mod claims;
pub mod edges;
pub mod entries;
pub mod held;
pub mod limits;
pub mod marks;
pub mod numbers;
pub mod path;
mod placing;
pub mod robot_list;
#[cfg(test)]
mod tests;
