//! The form `check`: from the text of a scenario to its canonical text.
//!
//! [`check::check`] reads the scenario, and prints it.
#![tactic(auto)]

pub mod check;
