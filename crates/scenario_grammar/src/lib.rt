//! A grammar of the texts of scenarios, with what each line means, and the law that the texts that
//! are read are just those of the grammar.
//!
//! The grammar stands in `specs/Grammar.antt`. Each law is the contract of a function with an empty
//! body, and so is the sample.
#![tactic(auto)]

pub mod laws;
pub mod samples;
