//! The graph of unfinished events over one list that is scanned: what the fast graph is compared
//! with.
#![tactic(auto)]

pub mod graph;
mod scans;
