//! Writes the counters of a port and the settings of an agent.
ghost use Rattle.std.specs.Prelude.{◌≡◌, length, map, take, drop, replicate};
ghost use Rattle.lldpa_c.specs.Reading.{ReadsStatistics, ReadsConfiguration};
ghost use Rattle.lldpa_c.specs.Settings.{status_number, TellsConfiguration};
ghost use Rattle.lldp_engine.specs.Ranges.{most_ports};

use crate::answer::{NO_PORT, NOT_OPEN, OK};
use crate::holder::LldpaAgent;
use lldp_engine::{Agent, Counters, MOST_PORTS, Status};
use std::alloc::Global;

/// The current settings of an agent.
#[repr(C)]
#[derive(Clone, Copy)]
pub struct LldpaConfiguration {
    pub interval: u32,
    pub hold: u32,
    /// The time to live of an ordinary frame, in seconds.
    pub ttl: u32,
    pub reinit: u32,
    pub fast_init: u32,
    pub credit_max: u32,
    /// How many neighbors each port may hold.
    pub max_neighbors: u32,
    pub ports: u32,
    /// The number of each port's status. Elements after the last port are 0.
    pub status: [u8; MOST_PORTS],
}

/// Writes the counters of a port.
#[unsafe(no_mangle)]
pub extern "C" fn lldpa_statistics(
    alloc: Global,
    agent: &mut LldpaAgent,
    port: u32,
    told: &mut Counters,
) -> u8
    ensures told { ReadsStatistics agent.old port told.old result agent.new told.new }
{
    let Some(held) = agent.take(alloc) else {
        return NOT_OPEN;
    };
    if port >= u32::from(held.ports()) {
        agent.put(held);
        return NO_PORT;
    }
    *told = *held.counters(port as u8);
    agent.put(held);
    OK
}

/// Returns the number of a status.
fn status_number(status: Status) -> u8
    ensures { result ≡ status_number status }
{
    match status {
        Status::RxAndTx => 0,
        Status::RxOnly => 1,
        Status::TxOnly => 2,
        Status::Disabled => 3,
    }
}

/// Returns the number of each port's status. Elements after the last port are 0.
fn statuses(agent: &Agent) -> [u8; MOST_PORTS]
    ensures status { take (length agent.now.ports) result
        ≡ map (λ p. status_number p.status) agent.now.ports }
    ensures others { drop (length agent.now.ports) result
        ≡ drop (length agent.now.ports) (replicate most_ports 0) }
{
    let mut statuses = [0; MOST_PORTS];
    for port in 0..agent.ports() {
        statuses[port as usize] = status_number(agent.status(port));
    }
    statuses
}

/// Returns the settings in the struct for C.
fn configuration_of(agent: &Agent) -> LldpaConfiguration
    ensures { TellsConfiguration agent.now result }
{
    let status = statuses(agent);
    let c = agent.configuration();
    LldpaConfiguration {
        interval: u32::from(c.interval),
        hold: u32::from(c.hold),
        ttl: u32::from(c.ttl()),
        reinit: u32::from(c.reinit),
        fast_init: u32::from(c.fast_init),
        credit_max: u32::from(c.credit_max),
        max_neighbors: u32::from(c.limit),
        ports: u32::from(agent.ports()),
        status,
    }
}

/// Writes the settings of an agent.
#[unsafe(no_mangle)]
pub extern "C" fn lldpa_configuration(
    alloc: Global,
    agent: &mut LldpaAgent,
    told: &mut LldpaConfiguration,
) -> u8
    ensures told { ReadsConfiguration agent.old told.old result agent.new told.new }
{
    let Some(held) = agent.take(alloc) else {
        return NOT_OPEN;
    };
    *told = configuration_of(&held);
    agent.put(held);
    OK
}
