//! Replays: a scenario with a journal behind it, and what may follow a journal.
//!
//! [`replay::replay_text`] reads the scenario, replays each entry of the journal behind it with a
//! coordinator as it is read, sees that they are one segment, compares what stands behind them with
//! the state that they reach, and prints that state.
#![tactic(auto)]

pub mod form;
mod header;
mod journal;
pub mod laws;
pub mod refused;
pub mod replay;
mod tail;
