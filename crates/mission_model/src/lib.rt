//! The definitions of missions and of the policy of robots, and the laws about them. It has no
//! program: each law is the contract of a function with an empty body.
#![tactic(auto)]

pub mod doing;
pub mod examples;
pub mod laws;
pub mod outcome;
