//! The meaning of an event for the transmit machine, and the frame that is sent at an event.

/// The meaning of an event for the transmit machine of a port.
#[derive(Clone, Copy, Debug, PartialEq, Eq)]
pub enum Cause {
    /// One second has passed.
    Tick,
    /// Something in the local system has changed.
    Change,
    /// A new neighbor was stored.
    Neighbor,
    /// From now on the port may not transmit.
    Stop,
    /// From now on the port may transmit.
    Allow,
    /// The link went down.
    Down,
    /// The link came up.
    Up,
    /// The event does not concern transmitting.
    Nothing,
}

/// The frame that is sent at an event.
#[derive(Clone, Copy, Debug, Default, PartialEq, Eq)]
pub enum Mark {
    /// No frame.
    #[default]
    Quiet,
    /// An ordinary frame, with all configured TLVs.
    Ordinary,
    /// A shutdown frame, with a time to live of 0.
    Shutdown,
}
