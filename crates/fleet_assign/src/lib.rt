//! The form `assign`: which robot of a scenario should go to which first goal, at least total cost.
//!
//! [`form::assign_form`] reads the scenario, makes the square of what each task costs each robot,
//! and tells its assignment.
#![tactic(auto)]

mod costs;
pub mod form;
mod tasks;
mod telling;
