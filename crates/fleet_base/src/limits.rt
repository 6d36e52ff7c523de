//! The limits of sites, fleets, journals and texts.

/// Cells of a site.
pub const MAX_CELLS: u32 = 1_024;

/// Crossings of a site.
pub const MAX_CROSSINGS: u32 = 256;

/// Crossings that contain one cell.
pub const MAX_CROSSINGS_OF_CELL: u32 = 2;

/// Claims of a site: one for each cell, and those of crossings.
pub const MAX_CLAIMS: u32 = 1_280;

/// Claims of one cell's footprint.
pub const MAX_FOOTPRINT: u32 = 3;

/// Areas of a site.
pub const MAX_AREAS: u32 = 256;

/// Links of a site.
pub const MAX_LINKS: u32 = 8_192;

/// The cost of a link.
pub const MAX_COST: u32 = 1_000_000;

/// Robots of a fleet.
pub const MAX_ROBOTS: u32 = 64;

/// Legs of one robot's mission, repeats written out.
pub const MAX_LEGS: u32 = 64;

/// Cells of a route.
pub const MAX_ROUTE: u32 = 1_024;

/// Bytes of a name.
pub const MAX_NAME: u32 = 32;

/// Bytes of an input line, without its line feed.
pub const MAX_LINE: u32 = 65_536;

/// Bytes of a scenario with all that stands behind it, for every form but `replay`.
pub const MAX_INPUT: u64 = 4_194_304;

/// Bytes of the input of `replay`.
pub const MAX_REPLAY_INPUT: u64 = 67_108_864;

/// The cap of a coordinator: entries of a segment of its journal and events and routes that are
/// owed.
pub const MAX_CAP: u32 = 1_000_000;

/// Entries of a journal, in all its segments, and events and routes that are owed.
pub const MAX_COUNT: u64 = 100_000_000;

/// The number with which a run begins.
pub const MAX_FIRST: u64 = 100_000_000_000_000;
