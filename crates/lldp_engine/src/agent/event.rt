//! The events of an agent.
ghost use Rattle.std.specs.Prelude.{◌≡◌, ◌↔◌, IsTrue};
ghost use Rattle.lldp_engine.specs.Event.{HasOctets, IsInRange, setting_of, event_of};
ghost use Rattle.lldp_engine.specs.Code.Whose.{whose_setting, whose, whose_of};

use crate::port::event::{PortEvent, Whose};
use crate::port::status::Status;
use lldp_text::is_printable_text;

/// The greatest tx-interval, in seconds.
pub const MOST_INTERVAL: u16 = 3600;

/// The greatest tx-hold.
pub const MOST_HOLD: u8 = 100;

/// A change that a command makes.
#[derive(Clone, Copy, Debug, PartialEq, Eq)]
pub enum Setting<'a> {
    /// The system name: at most 255 printable octets.
    Hostname(&'a [u8]),
    /// The system description: at most 255 printable octets.
    Description(&'a [u8]),
    /// The tx-interval in seconds, 1 to `MOST_INTERVAL`.
    Interval(u16),
    /// The tx-hold, 1 to `MOST_HOLD`.
    Hold(u8),
    /// How many neighbors each port may hold, 1 to the number given at opening.
    Limit(u8),
    /// The status of the port with this number.
    Status { port: u8, status: Status },
    /// Changes no value, but is still a local change.
    Update,
}

/// Something that happens to an agent.
#[derive(Clone, Copy, Debug, PartialEq, Eq)]
pub enum Event<'a> {
    /// A second has passed.
    Tick,
    /// The port with this number received these octets.
    Frame { port: u8, octets: &'a [u8] },
    /// The link of the port with this number came up or went down.
    Link { port: u8, up: bool },
    /// A command was accepted.
    Set(Setting<'a>),
}

impl<'a> Setting<'a> {
    /// Returns whether the number is in its range and the text has at most 255 octets, all
    /// printable. Limits and port numbers depend on the agent and are not checked here.
    pub(crate) fn in_range(&self) -> bool
        ensures { IsTrue result ↔ IsInRange (setting_of self.now) }
    {
        match self {
            Setting::Hostname(text) | Setting::Description(text) => is_printable_text(text),
            Setting::Interval(seconds) => (1..=MOST_INTERVAL).contains(seconds),
            Setting::Hold(times) => (1..=MOST_HOLD).contains(times),
            Setting::Limit(_) | Setting::Status { .. } | Setting::Update => true,
        }
    }

    /// Returns the ports that the setting concerns, and the port event for them.
    fn whose(&self) -> Whose<'a>
        ensures { whose_of result ≡ whose_setting (setting_of self.now) }
    {
        match self {
            Setting::Status { port, status } => Whose::OnePort(*port, PortEvent::Status(*status)),
            Setting::Limit(neighbors) => Whose::EachPort(PortEvent::Limit(*neighbors)),
            Setting::Hostname(_)
            | Setting::Description(_)
            | Setting::Interval(_)
            | Setting::Hold(_)
            | Setting::Update => Whose::EachPort(PortEvent::Change),
        }
    }
}

impl<'a> Event<'a> {
    /// Returns the ports that the event concerns, and the port event for them.
    pub(crate) fn whose(&self) -> Whose<'a>
        ensures value { whose_of result ≡ whose (event_of self.now) }
        ensures octets { HasOctets (event_of self.now) }
    {
        match self {
            Event::Tick => Whose::EachPort(PortEvent::Tick),
            Event::Frame { port, octets } => Whose::OnePort(*port, PortEvent::came(octets)),
            Event::Link { port, up } => Whose::OnePort(*port, PortEvent::Link(*up)),
            Event::Set(setting) => setting.whose(),
        }
    }
}
