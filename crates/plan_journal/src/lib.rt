//! The reader of journals.
#![tactic(auto)]

pub mod laws;
mod lines;
pub mod reading;
mod words;
