//! What a claim is a claim of.

use fleet_base::numbers::CellNo;

/// What a claim is a claim of: a cell, or a crossing, or one flow of a crossing that has flows.
#[derive(Clone, Copy, Debug, PartialEq, Eq)]
pub enum ClaimName {
    Cell(CellNo),
    Crossing { crossing: u32, flow: Option<u32> },
}
