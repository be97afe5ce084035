//! Computes when an agent has something to do.
ghost use Rattle.std.specs.Prelude.{◌≡◌};
ghost use Rattle.lldp_table.specs.Contents.{sooner};
ghost use Rattle.lldpa_c.specs.Due.{until_sends, due_on, IsDue};
ghost use Rattle.lldpa_c.specs.Reading.{ReadsDue};

use crate::answer::{NOT_OPEN, OK};
use crate::holder::LldpaAgent;
use lldp_engine::Agent;
use lldp_transmit::Parts;
use std::alloc::Global;

/// The number of seconds if nothing is due.
pub const NEVER: u32 = u32::MAX;

/// Returns the smaller number of ticks. None means that nothing is due.
fn sooner(a: Option<u16>, b: Option<u16>) -> Option<u16>
    ensures { result ≡ sooner a b }
{
    match (a, b) {
        (Some(a), Some(b)) => Some(a.min(b)),
        (None, other) | (other, None) => other,
    }
}

/// Returns the ticks until a port sends, or None if no frame is due.
fn until_sends(machine: &Parts) -> Option<u16>
    ensures { result ≡ until_sends machine.now }
{
    if machine.active {
        if machine.waiting {
            Some(1)
        } else if machine.timer > 0 {
            Some(machine.timer)
        } else {
            None
        }
    } else if machine.allowed && machine.up {
        Some(u16::from(machine.wait))
    } else {
        None
    }
}

/// Returns the ticks until a port sends or a neighbor ages out, or None if nothing is due.
fn due_on(agent: &Agent) -> Option<u16>
    ensures { result ≡ due_on agent.now.ports }
{
    let mut due = None;
    for port in 0..agent.ports() {
        let sends = until_sends(&agent.machine(port).parts());
        due = sooner(due, sooner(agent.table(port).soonest(), sends));
    }
    due
}

/// Returns the seconds until a port sends or a neighbor ages out, or NEVER if nothing is due.
fn seconds_of(agent: &Agent) -> u32
    ensures { IsDue agent.now result }
{
    match due_on(agent) {
        Some(ticks) => u32::from(ticks.max(1)),
        None => NEVER,
    }
}

/// Writes the seconds until a port sends or a neighbor ages out, if there is no other event.
#[unsafe(no_mangle)]
pub extern "C" fn lldpa_due(alloc: Global, agent: &mut LldpaAgent, seconds: &mut u32) -> u8
    ensures due { ReadsDue agent.old seconds.old result agent.new seconds.new }
{
    let Some(held) = agent.take(alloc) else {
        return NOT_OPEN;
    };
    *seconds = seconds_of(&held);
    agent.put(held);
    OK
}
