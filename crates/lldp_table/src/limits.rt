//! The maximum size of a table.

/// The most neighbors that a table can hold.
pub const MOST_NEIGHBORS: usize = 128;
