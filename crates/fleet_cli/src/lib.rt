//! The work of the program `fleet`: its words, its input and its output, as one call over any
//! source and sink.
//!
//! [`fleet`] finds the form that the words are, reads the source, does the work, makes the whole
//! text in memory and writes it.
#![tactic(auto)]

mod form;
mod output;
mod reply;
mod top;

pub use form_base::{Ended, Fault};
pub use top::fleet;
