//! Laws that join how a scenario is printed with how it is read.
#![tactic(auto)]

pub mod laws;
pub mod samples;
pub mod values;
