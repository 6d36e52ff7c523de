//! The least route between cells, with labels that prove its cost, and the check of one.
#![tactic(auto)]

pub mod cell_set;
pub mod checker;
pub mod finder;
pub mod goals;
pub mod incoming;
mod labels;
pub mod laws;
pub mod refused;
pub mod route;
mod search;
