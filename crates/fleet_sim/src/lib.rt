//! A fleet with missions, driven serially: one robot after the other makes its policy act, until
//! none can go on.
#![tactic(auto)]

pub mod drive;
mod going;
