//! The unfinished events of a plan, what each of them waits for, and which are ready.
#![tactic(auto)]

pub mod graph;
pub mod laws;
mod reach;
mod store;
