//! The printed texts of a fleet: claims, events, answers, journals and states.
//!
//! Each `push_` call appends to a text. Where no memory is left it gives the whole text up: the
//! text is then empty.
#![tactic(auto)]

pub mod answers;
pub mod journal;
pub mod pushing;
pub mod samples;
pub mod state;
pub mod words;
