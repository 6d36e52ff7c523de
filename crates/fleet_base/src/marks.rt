//! The places of a journal at which its segments begin, and what stands there.

use crate::numbers::{CellNo, EventNo};
use crate::path::Path;

/// The place at which a segment of a journal begins: so many entries stand before it, and the next
/// event to be merged has this number.
#[derive(Clone, Copy, Debug, PartialEq, Eq)]
pub struct Mark {
    pub before: u64,
    pub next: EventNo,
}

/// What a journal begins with: the number of the next event to be merged, and of each robot, in
/// order, its cell and its pending route.
#[derive(Drop)]
pub struct Checkpoint {
    pub next: EventNo,
    pub at: Vec<CellNo>,
    pub pending: Vec<Option<Path>>,
}
