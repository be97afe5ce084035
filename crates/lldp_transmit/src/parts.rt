//! The fields of a transmit machine.

/// The fields of a transmit machine, as a struct that C code can store.
#[repr(C)]
#[derive(Clone, Copy, Debug, PartialEq, Eq)]
pub struct Parts {
    /// Ticks until the timer ends.
    pub timer: u16,
    pub credit_max: u8,
    pub fast_init: u8,
    pub reinit: u8,
    /// Ordinary frames that may be sent before the next tick.
    pub credit: u8,
    /// Ticks until the port may start again.
    pub wait: u8,
    /// Signals left in the burst.
    pub left: u8,
    /// True if a signal has had no frame yet.
    pub waiting: bool,
    pub active: bool,
    pub allowed: bool,
    pub up: bool,
}
