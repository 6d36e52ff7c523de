//! A lock whose value has a history that only grows. One seat at a time takes the value out, and each
//! seat knows what it has seen of the history and which of its entries are its own.
#![tactic(auto)]

mod counted;
mod lock;
mod rule;
mod steps;
#[cfg(test)]
mod tests;
mod view;

pub use counted::Counted;
pub use lock::{TurnLock, TurnSeat};
