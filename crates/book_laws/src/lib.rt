//! The hard properties of a coordinator, as laws for whoever has one. It has no program: a law
//! does nothing, and its clauses hold of the value that it is handed, without a condition.
#![tactic(auto)]

pub mod laws;
pub mod starts;
