//! What a run of a scenario is: the coordinator that it opens, and what holds of its journal.
//!
//! [`open::open`] opens a scenario. Its state in the beginning, what a sound run is and the text of
//! the state that entries reach stand in `specs/`.
#![tactic(auto)]

pub mod open;
