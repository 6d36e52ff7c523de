//! The definitions of a fleet's plan, its calls and its journals, and the laws about them.
//!
//! The definitions stand in `specs/`. Each law is the contract of a function with an empty body, and
//! so is each example that checks the definitions by computing.
#![tactic(auto)]

pub mod cycle_laws;
pub mod examples;
pub mod journal_laws;
pub mod plan_laws;
pub mod route_laws;
pub mod segment_laws;
pub mod table_laws;
