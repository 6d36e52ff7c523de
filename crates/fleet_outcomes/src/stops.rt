// What is kept of a robot's plan while its journal is read.
use fleet_base::numbers::CellNo;

// A stop: how many of the robot's events in the plan lie in front of it, and the cell.
#[derive(Clone, Copy, Debug, PartialEq, Eq)]
pub(crate) struct Stop {
    pub(crate) events: u64,
    pub(crate) cell: CellNo,
}

// A route: how many events it has, and the cell that it ends in.
#[derive(Clone, Copy, Debug, PartialEq, Eq)]
pub(crate) struct Way {
    pub(crate) events: u32,
    pub(crate) end: CellNo,
}
