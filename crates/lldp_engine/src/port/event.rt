//! Events of one port, and which ports an event of the agent concerns.
ghost use Rattle.std.specs.Prelude.{◌≡◌};
ghost use Rattle.lldp_pdu.specs.Tlv.{AreOctets};
ghost use Rattle.lldp_engine.specs.Port.Event.{frame};
ghost use Rattle.lldp_engine.specs.Port.EventView.{port_event_of};

use crate::port::status::Status;

/// Something that happens to a port.
#[derive(Clone, Copy)]
pub(crate) enum PortEvent<'a> {
    /// A second has passed.
    Tick,
    /// The port received these octets.
    Frame(&'a [u8]),
    /// The link came up (true) or went down (false).
    Link(bool),
    /// The status was set to this one.
    Status(Status),
    /// The limit of neighbors was set to this number.
    Limit(u8),
    /// A command made a local change.
    Change,
}

impl<'a> PortEvent<'a> {
    /// Returns the event of receiving these octets.
    pub(crate) fn came(octets: &'a [u8]) -> PortEvent<'a>
        ensures value { port_event_of result ≡ frame octets.now }
        ensures octets { AreOctets octets.now }
    {
        PortEvent::Frame(octets)
    }
}

/// The ports that an event concerns (one by its number, or each), and the port event for them.
#[derive(Clone, Copy)]
pub(crate) enum Whose<'a> {
    OnePort(u8, PortEvent<'a>),
    EachPort(PortEvent<'a>),
}
