//! Scripts: a scenario with commands behind it, which are carried out one after the other.
//!
//! [`script::script`] reads the whole text first. Then it carries the commands out with a
//! coordinator, and prints what each answers, the journal and the state that they leave.
#![tactic(auto)]

mod carrying;
pub mod form;
pub mod laws;
mod reading;
pub mod refused;
pub mod script;
