//! Scenarios by number, for drills: the same number gives the same scenario.
#![tactic(auto)]

mod draws;
pub mod generate;
mod grid;
mod missions;
mod naming;
mod sites;
