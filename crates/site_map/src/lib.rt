//! The site of a fleet: its cells, crossings, areas and links, and the claims on them.
#![tactic(auto)]

pub mod builder;
mod cells;
mod crossing;
pub mod goal;
mod link_list;
pub mod names;
mod numbering;
mod places;
pub mod refused;
pub mod site;
