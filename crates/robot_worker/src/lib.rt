//! What a robot with a mission does next: the policy for a look, the legs that are served, and the
//! way to the next one.
#![tactic(auto)]

pub mod policy;
pub mod routes;
pub mod serving;
