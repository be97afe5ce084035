//! Ranges of the caller's octets.

/// A range of octets in a buffer of the caller.
#[repr(C)]
#[derive(Clone, Copy)]
pub struct LldpaPlace {
    /// The offset of the first octet.
    pub start: usize,
    /// The number of octets.
    pub length: usize,
}
