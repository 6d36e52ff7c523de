//! Scenarios: the value, and its printed text.
#![tactic(auto)]

mod flows;
mod lines;
pub mod missions;
pub mod print;
pub mod scenario;
