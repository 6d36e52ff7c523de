//! The reader of the commands that stand behind a scenario.
#![tactic(auto)]

pub mod command;
mod keyword;
pub mod laws;
mod line;
pub mod read;
pub mod refused;
pub mod samples;
mod used_names;
mod words;
