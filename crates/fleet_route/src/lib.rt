//! Least routes that are asked for: from the text of a scenario and two words to the text of the
//! answer.
//!
//! [`route::route`] reads the scenario, finds what the words name in it, and tells the least route
//! with the labels of the cells.
#![tactic(auto)]

pub mod form;
mod named;
pub mod refused;
pub mod route;
mod telling;
