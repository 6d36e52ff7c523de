//! Lines, words and numbers of a text, the texts of numbers, and the codes of bad lines.
#![tactic(auto)]

pub mod fault;
pub mod line;
pub mod number;
pub mod samples;
pub mod word;
