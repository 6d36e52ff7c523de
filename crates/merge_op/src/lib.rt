//! Merges of routes into the plan, and how much of a plan a robot may take back.
#![tactic(auto)]

pub mod merging;
pub mod withdrawal;
