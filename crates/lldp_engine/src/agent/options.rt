//! The options with which an agent is opened.
ghost use Rattle.std.specs.Prelude.{◌≡◌, ◌≤◌, ◌↔◌, IsTrue, IfNone, map, length};
ghost use Rattle.std.specs.List.{list_all};
ghost use Rattle.lldp_engine.specs.Options.{InRange, options_of, is_port_name, fault_of};
ghost use Rattle.lldp_pdu.specs.Range.{most_text};
ghost use Rattle.lldp_engine.specs.Ranges.{most_ports};

use crate::agent::open_fault::OpenFault;
use crate::agent::port_names::{all_port_names, names_repeat};
use lldp_text::is_printable_text;
pub use lldp_transmit::{MOST_CREDIT, MOST_FAST, MOST_REINIT};

/// The greatest number of neighbors per port that options may allow.
pub const MOST_NEIGHBORS: u8 = lldp_table::MOST_NEIGHBORS as u8;

/// The most ports that an agent may have.
pub const MOST_PORTS: usize = 64;

/// The role of a host: the one system capability that its frames report.
#[derive(Clone, Copy, Debug, PartialEq, Eq)]
pub enum Role {
    Station,
    Bridge,
    Router,
}

/// The options with which an agent is opened.
#[derive(Clone, Copy)]
pub struct Options<'a> {
    /// The names of the ports, in order.
    pub ports: &'a [&'a str],
    /// The source address of every frame, and the chassis ID.
    pub mac: [u8; 6],
    pub hostname: &'a str,
    /// The IPv4 address under which the agent can be managed.
    pub management: Option<[u8; 4]>,
    pub role: Role,
    /// How many neighbors each port may hold, 1 to 128.
    pub max_neighbors: u8,
    /// txCreditMax, 1 to 10.
    pub credit_max: u8,
    /// txFastInit, 1 to 8.
    pub fast_init: u8,
    /// reinitDelay in seconds, 1 to 10.
    pub reinit: u8,
    /// Whether each port begins as `RxOnly` instead of `RxAndTx`.
    pub receive_only: bool,
}

impl<'a> Options<'a> {
    /// Returns whether the limit of neighbors, txCreditMax, txFastInit and reinitDelay are in their
    /// ranges, as `Agent::open` requires.
    pub fn in_range(&self) -> bool
        ensures { IsTrue result ↔ InRange (options_of self.now) }
    {
        (1..=MOST_NEIGHBORS).contains(&self.max_neighbors)
            && (1..=MOST_CREDIT).contains(&self.credit_max)
            && (1..=MOST_FAST).contains(&self.fast_init)
            && (1..=MOST_REINIT).contains(&self.reinit)
    }

    /// Checks the names and the hostname. Returns the fault of the first check that fails, if any.
    pub(crate) fn first_fault(&self) -> Option<OpenFault>
        ensures fault { result ≡ fault_of (options_of self.now) }
        ensures names { IfNone result (IsTrue (list_all is_port_name (map (λ n.
            n.now) self.now.ports.now))) }
        ensures few { IfNone result (length self.now.ports.now ≤ most_ports) }
        ensures hostname { IfNone result (length self.now.hostname.now ≤ most_text) }
    {
        if self.ports.is_empty() {
            Some(OpenFault::NoPorts)
        } else if self.ports.len() > MOST_PORTS {
            Some(OpenFault::TooManyPorts)
        } else if !all_port_names(self.ports) {
            Some(OpenFault::PortName)
        } else if names_repeat(self.ports) {
            Some(OpenFault::SamePort)
        } else if !is_printable_text(self.hostname.as_bytes()) {
            Some(OpenFault::Text)
        } else {
            None
        }
    }
}
