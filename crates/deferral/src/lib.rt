//! Which robot is deferred on which, kept as ends and pending routes change.
#![tactic(auto)]

mod deferrals;
mod ends;
mod keeping;
mod laws;
mod matrix;
mod pending;
mod tally;

pub use deferrals::Deferrals;
pub use laws::{blockers_are_those_of_sites, deferrals_are_those_of_states};
pub use pending::Pending;
