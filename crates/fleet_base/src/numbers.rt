//! Numbers of things, and the events of a plan.

/// A robot's number: its place among the robots, from 0. Robots of one fleet are below 64.
#[derive(Clone, Copy, Debug, PartialEq, Eq)]
pub struct RobotNo(pub u32);

/// A cell's number: its place among the cells, from 0. Cells of one site are below 1,024.
#[derive(Clone, Copy, Debug, PartialEq, Eq)]
pub struct CellNo(pub u32);

/// A claim's number. The claim of a cell has the cell's number; those of crossings follow behind
/// the last cell. Claims of one site are below 1,280.
#[derive(Clone, Copy, Debug, PartialEq, Eq)]
pub struct ClaimNo(pub u32);

/// An event's number, from 1. A number is given once, in the order of merging.
#[derive(Clone, Copy, Debug, PartialEq, Eq)]
pub struct EventNo(pub u64);

/// What a robot does in one event.
#[derive(Clone, Copy, Debug, PartialEq, Eq)]
pub enum Kind {
    /// It takes a claim.
    Acquire(ClaimNo),
    /// It drives from the first cell to the second.
    Move(CellNo, CellNo),
    /// It gives a claim back.
    Release(ClaimNo),
}

/// One event of a robot's plan.
#[derive(Clone, Copy, Debug, PartialEq, Eq)]
pub struct Event {
    pub no: EventNo,
    pub robot: RobotNo,
    pub kind: Kind,
}

/// The numbers of a merged route's events, the first and the last.
#[derive(Clone, Copy, Debug, PartialEq, Eq)]
pub struct Span {
    pub first: EventNo,
    pub last: EventNo,
}

/// What decides whether two claims conflict: they do where they have one group and are different,
/// or are one claim that is `alone`.
#[derive(Clone, Copy, Debug, PartialEq, Eq)]
pub struct ClaimGroup {
    /// The group's number.
    pub group: u32,
    /// Whether two robots must not hold this very claim at once.
    pub alone: bool,
}

/// A link from a cell.
#[derive(Clone, Copy, Debug, PartialEq, Eq)]
pub struct Link {
    /// The cell that the link leads to.
    pub to: CellNo,
    /// What driving it costs, from 1 to 1,000,000.
    pub cost: u32,
}
