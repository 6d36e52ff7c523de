//! Laws of the calls of a fleet. It has no program: each law is the contract of a function with an
//! empty body.
#![tactic(auto)]

pub mod laws;
