//! How far robots are with their missions, and how they stand in the end.
#![tactic(auto)]

mod course;
pub mod going;
pub mod outcomes;
pub mod served;
pub mod status;
mod stops;
