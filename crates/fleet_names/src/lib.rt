//! The names of a site's things and of a fleet's robots.
#![tactic(auto)]

pub mod names;
mod places;
pub mod samples;
pub mod thing;
