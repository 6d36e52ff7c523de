//! The reader of the texts of scenarios.
#![tactic(auto)]

mod fleet;
mod ground;
mod keyword;
pub mod laws;
mod mission;
mod named;
pub mod read;
mod reader;
pub mod samples;
pub mod stop;
mod words;
