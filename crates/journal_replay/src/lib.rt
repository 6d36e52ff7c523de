//! The replay of journals: the coordinator that a journal's entries lead to, or the first entry that
//! isn't one of an accepted call.
#![tactic(auto)]

mod entry;
pub mod laws;
pub mod refused;
pub mod replay;
