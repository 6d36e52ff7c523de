//! What each form of the program is, and what all forms share: how an input is read within the
//! limit, how a report or a fault becomes a status and a text, and how that is written.
//!
//! A form is described by its limit, by the answers that may come of an input, by what its faults
//! mean and by what is known where it gave its text.
#![tactic(auto)]

mod fault;
mod reading;
mod reply;
mod report;

pub use fault::{Fault, Stop};
pub use reading::read_input;
pub use reply::{Reply, finish, reply_to, too_big};
pub use report::{Ended, Report, done};
