//! What is reported of a fleet: the text of its state.
#![tactic(auto)]

pub mod state;
