//! The numbers that the exported functions return, except those of faults.

/// Success.
pub const OK: u8 = 0;

/// A number, or the length of an identifier, is out of its range.
pub const OUT_OF_RANGE: u8 = 100;

/// The caller's buffer is too small for the result.
pub const NO_ROOM: u8 = 101;

/// The agent is not open.
pub const NOT_OPEN: u8 = 102;

/// The agent has no port with that number.
pub const NO_PORT: u8 = 103;

/// The agent is already open.
pub const IS_OPEN: u8 = 104;
