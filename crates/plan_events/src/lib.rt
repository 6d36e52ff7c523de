//! The events of a route: the check of its shape, its expansion, its needs and its rest points; and
//! the replay of events over holders.
#![tactic(auto)]

mod clash;
pub mod expansion;
pub mod laws;
pub mod refused;
pub mod replay;
pub mod rests;
pub mod shape;
mod spots;
mod steps;
