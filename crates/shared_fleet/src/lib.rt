//! A coordinator behind a turn lock, with a pass for each robot.
#![tactic(auto)]

pub mod book;
mod calls;
mod kept;
mod named;
pub mod pass;
pub mod shared;
mod turn;
