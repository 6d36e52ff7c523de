//! The calls of robots, and what they answer, as values.
#![tactic(auto)]

pub mod answer;
pub mod request;
