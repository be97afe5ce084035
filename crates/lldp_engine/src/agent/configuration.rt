//! The configuration of an agent.
ghost use Rattle.std.specs.Prelude.{◌≡◌, ◌<◌, ◌≤◌, length};
ghost use Rattle.lldp_engine.specs.Options.{options_of};
ghost use Rattle.lldp_engine.specs.Event.{event_of};
ghost use Rattle.lldp_engine.specs.Configuration.{configuration_at_opening, configured, sent_ttl};
ghost use Rattle.lldp_engine.specs.Code.ShortText.{HasShortText};
ghost use Rattle.lldp_pdu.specs.Range.{most_text};

use crate::agent::event::{Event, Setting};
use crate::agent::options::{Options, Role};
use arrayvec::ArrayVec;
use lldp_pdu::MOST_TEXT;
use std::marker::Model;

/// The tx-interval at opening, in seconds.
const INTERVAL: u16 = 30;

/// The tx-hold at opening.
const HOLD: u8 = 4;

/// The greatest TTL of a frame, in seconds.
const MOST_TTL: u16 = 65535;

/// A text of at most 255 octets.
pub type Text = ArrayVec<u8, MOST_TEXT>;

/// The configuration of an agent. Commands change only the fields after `capacity`.
#[derive(Drop)]
pub struct Configuration {
    pub mac: [u8; 6],
    pub role: Role,
    pub management: Option<[u8; 4]>,
    pub credit_max: u8,
    pub fast_init: u8,
    pub reinit: u8,
    /// The limit of neighbors per port at opening, which later limits may not exceed.
    pub capacity: u8,
    pub hostname: Text,
    pub description: Text,
    pub interval: u16,
    pub hold: u8,
    /// The limit of neighbors per port that is in force now.
    pub limit: u8,
}

impl Model for Configuration {
    ghost use Rattle.lldp_engine.specs.Configuration.{Configuration};

    ghost Value = { Configuration };

    ghost view = { λ c. record {
      mac = c.mac;
      role = c.role;
      management = c.management;
      credit_max = c.credit_max;
      fast_init = c.fast_init;
      reinit = c.reinit;
      capacity = c.capacity;
      hostname = c.hostname.items;
      description = c.description.items;
      interval = c.interval;
      hold = c.hold;
      limit = c.limit;
    } };
}

fn text_of(octets: &[u8]) -> Text
    requires { length octets.now ≤ most_text }
    ensures { result.items ≡ octets.now }
{
    let mut text = ArrayVec::new();
    let _ = text.try_extend_from_slice(octets);
    text
}

impl Configuration {
    /// Returns the configuration at opening. The hostname must have at most 255 octets.
    pub(crate) fn open(options: &Options<'_>) -> Configuration
        requires { length options.now.hostname.now ≤ most_text }
        ensures { result ≡ configuration_at_opening (options_of options.now) }
    {
        Configuration {
            mac: options.mac,
            role: options.role,
            management: options.management,
            credit_max: options.credit_max,
            fast_init: options.fast_init,
            reinit: options.reinit,
            capacity: options.max_neighbors,
            hostname: text_of(options.hostname.as_bytes()),
            description: text_of(b"lldpa"),
            interval: INTERVAL,
            hold: HOLD,
            limit: options.max_neighbors,
        }
    }

    /// Applies an event to the configuration. Only commands change it.
    pub(crate) fn take(&mut self, event: &Event<'_>)
        requires { HasShortText (event_of event.now) }
        ensures { self.new ≡ configured (event_of event.now) self.old }
    {
        match event {
            Event::Set(setting) => self.apply(setting),
            Event::Tick | Event::Frame { .. } | Event::Link { .. } => {}
        }
    }

    fn apply(&mut self, setting: &Setting<'_>)
        requires { HasShortText (event_of (Event.Set setting.now)) }
        ensures { self.new ≡ configured (event_of (Event.Set setting.now)) self.old }
    {
        match setting {
            Setting::Hostname(text) => self.hostname = text_of(text),
            Setting::Description(text) => self.description = text_of(text),
            Setting::Interval(seconds) => self.interval = *seconds,
            Setting::Hold(times) => self.hold = *times,
            Setting::Limit(neighbors) => self.limit = *neighbors,
            Setting::Status { .. } | Setting::Update => {}
        }
    }

    /// Returns the tx-interval in force, in seconds.
    pub(crate) fn interval(&self) -> u16
        ensures { result ≡ self.now.interval }
    {
        self.interval
    }

    /// Returns the limit of neighbors at opening.
    pub(crate) fn capacity(&self) -> u8
        ensures { result ≡ self.now.capacity }
    {
        self.capacity
    }

    /// Returns the TTL of an ordinary frame: tx-interval * tx-hold + 1 seconds, at most 65,535.
    pub fn ttl(&self) -> u16
        ensures value { result ≡ sent_ttl self.now }
        ensures lives { 0 < result }
    {
        (u32::from(self.interval) * u32::from(self.hold) + 1).min(u32::from(MOST_TTL)) as u16
    }
}
