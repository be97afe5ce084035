//! The greatest settings with which a transmit machine can be opened.

/// The greatest txCreditMax.
pub const MOST_CREDIT: u8 = 10;

/// The greatest txFastInit.
pub const MOST_FAST: u8 = 8;

/// The greatest reinitDelay, in seconds.
pub const MOST_REINIT: u8 = 10;
