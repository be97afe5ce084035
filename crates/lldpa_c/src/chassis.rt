//! Writes what an agent says about its host.
ghost use Rattle.std.specs.Prelude.{◌≡◌, ◌≤◌, length, take, drop, replicate};
ghost use Rattle.lldpa_c.specs.Chassis.{role_number, TellsChassis};
ghost use Rattle.lldpa_c.specs.Reading.{ReadsChassis};
ghost use Rattle.lldp_pdu.specs.Range.{most_text};

use crate::answer::{NOT_OPEN, OK};
use crate::holder::LldpaAgent;
use lldp_engine::{Agent, Role};
use lldp_pdu::MOST_TEXT;
use std::alloc::Global;

/// What an agent says about its host.
#[repr(C)]
#[derive(Clone, Copy)]
pub struct LldpaChassis {
    pub mac: [u8; 6],
    /// The number of the role.
    pub role: u8,
    /// Whether the host has a management address.
    pub managed: bool,
    /// The management address, or zeros if there is none.
    pub management: [u8; 4],
    pub hostname_length: u8,
    pub description_length: u8,
    /// The system name, followed by zeros.
    pub hostname: [u8; MOST_TEXT],
    /// The system description, followed by zeros.
    pub description: [u8; MOST_TEXT],
}

/// Returns the number of a role.
fn role_number(role: Role) -> u8
    ensures { result ≡ role_number role }
{
    match role {
        Role::Station => 0,
        Role::Bridge => 1,
        Role::Router => 2,
    }
}

/// Returns the text, followed by zeros.
fn with_zeros(text: &[u8]) -> [u8; MOST_TEXT]
    requires { length text.now ≤ most_text }
    ensures text { take (length text.now) result ≡ text.now }
    ensures zeros { drop (length text.now) result ≡ drop (length text.now) (replicate most_text 0) }
{
    let mut octets = [0; MOST_TEXT];
    octets[..text.len()].copy_from_slice(text);
    octets
}

/// Returns what an agent says about its host, in the struct for C.
fn chassis_of(agent: &Agent) -> LldpaChassis
    ensures { TellsChassis agent.now result }
{
    let c = agent.configuration();
    let (hostname, description) = (c.hostname.as_slice(), c.description.as_slice());
    LldpaChassis {
        mac: c.mac,
        role: role_number(c.role),
        managed: c.management.is_some(),
        management: c.management.unwrap_or([0; 4]),
        hostname_length: hostname.len() as u8,
        description_length: description.len() as u8,
        hostname: with_zeros(hostname),
        description: with_zeros(description),
    }
}

/// Writes what an agent says about its host.
#[unsafe(no_mangle)]
pub extern "C" fn lldpa_chassis(
    alloc: Global,
    agent: &mut LldpaAgent,
    told: &mut LldpaChassis,
) -> u8
    ensures told { ReadsChassis agent.old told.old result agent.new told.new }
{
    let Some(held) = agent.take(alloc) else {
        return NOT_OPEN;
    };
    *told = chassis_of(&held);
    agent.put(held);
    OK
}
