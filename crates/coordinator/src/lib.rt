//! The coordinator of a fleet: the calls of robots over one plan, and the journal of those that it
//! accepted.
#![tactic(auto)]

mod call;
mod cancel;
pub mod coordinator;
pub mod laws;
mod look;
mod merging;
mod opening;
mod propose;
pub mod refused;
mod replan;
mod report;
mod resuming;
mod retry;
mod shut;
mod tables;
mod withdraw;
