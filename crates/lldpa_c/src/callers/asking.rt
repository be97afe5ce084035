//! Asks an agent, through the exported functions, for what it holds.
ghost use Rattle.std.specs.Prelude.{◌≡◌, ◌≤◌, ◌<◌, true, false, Some, None, slice_get, length, take, drop, map, replicate, ◌+◌, ℕ, List, if◌then◌else◌};
ghost use Rattle.std.specs.Option.{option_map};
ghost use Rattle.lldp_engine.specs.AgentState.{IsPort, PortState, name_of};
ghost use Rattle.lldp_engine.specs.Configuration.{sent_ttl};
ghost use Rattle.lldp_engine.specs.Frames.{SaysBack, draft_of, frame_of};
ghost use Rattle.lldp_engine.specs.Past.{Past, configuration_after};
ghost use Rattle.lldp_engine.specs.Standing.{Stands};
ghost use Rattle.lldp_pdu.specs.Kept.{kept_of, discarded_of, count_unrecognized};
ghost use Rattle.lldp_pdu.specs.Lldpdu.{extent, ttl_of, msap_of};
ghost use Rattle.lldp_table.specs.Events.{Neighbor};
ghost use Rattle.lldp_transmit.specs.declared.event.Mark.TheVariants.{Ordinary, Shutdown};
ghost use Rattle.lldpa_c.specs.Chassis.{role_number};
ghost use Rattle.lldpa_c.specs.Due.{IsDue};
ghost use Rattle.lldpa_c.specs.Place.{octets_at};
ghost use Rattle.lldpa_c.specs.Settings.{status_number};
ghost use Rattle.lldp_engine.specs.Ranges.{most_ports};
ghost use Rattle.lldp_pdu.specs.Range.{most_text};
ghost use Rattle.lldp_pdu.specs.declared.limits.TheConstants.{MOST_FRAME};

use crate::aged::{lldpa_aged, lldpa_aged_count};
use crate::chassis::{LldpaChassis, lldpa_chassis};
use crate::due::lldpa_due;
use crate::frame_of::lldpa_frame_of;
use crate::held::{LldpaHeld, lldpa_neighbor, lldpa_neighbor_count};
use crate::holder::LldpaAgent;
use crate::settings::{LldpaConfiguration, lldpa_configuration, lldpa_statistics};
use lldp_engine::Counters;
use lldp_pdu::MOST_FRAME;
use std::alloc::Global;

/// Reads the counters of a port. Without such a port or an open agent, nothing changes.
fn counters(alloc: Global, agent: &mut LldpaAgent, port: u32, told: &mut Counters) -> u8
    ensures value { agent.old.is_open ≡ true → IsPort agent.old.held.agent port → (result ≡ 0)
        × (option_map (λ p. p.counters) (slice_get agent.old.held.agent.ports port) ≡ Some told.new) }
    ensures kept { agent.old.is_open ≡ true → (agent.new.is_open ≡ true) × (agent.new.held.agent ≡ agent.old.held.agent) }
    ensures closed { agent.old.is_open ≡ false → (result ≡ 102) × (agent.new.is_open ≡ false) × (told.new ≡ told.old) }
    ensures no_port { agent.old.is_open ≡ true → ¬ (IsPort agent.old.held.agent port) → (result ≡ 103) × (told.new ≡ told.old) }
{
    lldpa_statistics(alloc, agent, port, told)
}

/// Reads how many neighbors a port holds.
fn neighbors(alloc: Global, agent: &mut LldpaAgent, port: u32, count: &mut u32) -> u8
    ensures value { agent.old.is_open ≡ true → (p : PortState) → slice_get agent.old.held.agent.ports port ≡ Some p → (result ≡ 0)
        × (count.new ≡ length p.table.neighbors) }
    ensures kept { agent.old.is_open ≡ true → (agent.new.is_open ≡ true) × (agent.new.held.agent ≡ agent.old.held.agent) }
    ensures closed { agent.old.is_open ≡ false → (result ≡ 102) × (agent.new.is_open ≡ false) × (count.new ≡ count.old) }
    ensures no_port { agent.old.is_open ≡ true → ¬ (IsPort agent.old.held.agent port) → (result ≡ 103) × (count.new ≡ count.old) }
{
    lldpa_neighbor_count(alloc, agent, port, count)
}

/// Reads how many neighbors of a port aged out.
fn aged(alloc: Global, agent: &mut LldpaAgent, port: u32, count: &mut u32) -> u8
    ensures value { agent.old.is_open ≡ true → (p : PortState) → slice_get agent.old.held.agent.ports port ≡ Some p → (result ≡ 0)
        × (count.new ≡ length p.table.gone) }
    ensures kept { agent.old.is_open ≡ true → (agent.new.is_open ≡ true) × (agent.new.held.agent ≡ agent.old.held.agent) }
    ensures closed { agent.old.is_open ≡ false → (result ≡ 102) × (agent.new.is_open ≡ false) × (count.new ≡ count.old) }
    ensures no_port { agent.old.is_open ≡ true → ¬ (IsPort agent.old.held.agent port) → (result ≡ 103) × (count.new ≡ count.old) }
{
    lldpa_aged_count(alloc, agent, port, count)
}

/// Reads a neighbor that a port holds.
fn neighbor(
    alloc: Global,
    agent: &mut LldpaAgent,
    port: u32,
    index: u32,
    room: &mut [u8],
    told: &mut LldpaHeld,
) -> u8
    ensures value { agent.old.is_open ≡ true → (p : PortState) → slice_get agent.old.held.agent.ports port ≡ Some p →
        (n : Neighbor) → slice_get p.table.neighbors index ≡ Some n → length n.octets ≤ length room.old →
        (result ≡ 0) × (take told.new.pdu.extent room.new ≡ n.octets) × (told.new.left ≡ n.left)
        × (told.new.pdu.ttl ≡ ttl_of n.octets) × (octets_at n.octets told.new.pdu.chassis ≡ (msap_of n.octets).chassis)
        × (octets_at n.octets told.new.pdu.port ≡ (msap_of n.octets).port)
        × (drop told.new.pdu.extent room.new ≡ drop told.new.pdu.extent room.old) }
    ensures life { agent.old.is_open ≡ true → (p : PortState) → slice_get agent.old.held.agent.ports port ≡ Some p →
        (n : Neighbor) → slice_get p.table.neighbors index ≡ Some n → result ≡ 0 → 0 < ttl_of n.octets →
        (told.new.pdu.extent ≤ length n.octets) × (take told.new.pdu.extent n.octets ≡ extent n.octets)
        × (told.new.pdu.discarded ≡ discarded_of n.octets) × (told.new.pdu.unrecognized ≡ count_unrecognized (kept_of n.octets)) }
    ensures shutdown { agent.old.is_open ≡ true → (p : PortState) → slice_get agent.old.held.agent.ports port ≡ Some p →
        (n : Neighbor) → slice_get p.table.neighbors index ≡ Some n → result ≡ 0 → ttl_of n.octets ≡ 0 →
        (told.new.pdu.extent ≡ 0) × (told.new.pdu.discarded ≡ 0) × (told.new.pdu.unrecognized ≡ 0) }
    ensures within { agent.old.is_open ≡ true → (p : PortState) → slice_get agent.old.held.agent.ports port ≡ Some p →
        (n : Neighbor) → slice_get p.table.neighbors index ≡ Some n → result ≡ 0 →
        (told.new.pdu.chassis.start + told.new.pdu.chassis.length ≤ length n.octets)
        × (told.new.pdu.port.start + told.new.pdu.port.length ≤ length n.octets) }
    ensures over { agent.old.is_open ≡ true → (p : PortState) → slice_get agent.old.held.agent.ports port ≡ Some p →
        (n : Neighbor) → slice_get p.table.neighbors index ≡ Some n → length room.old < length n.octets →
        (result ≡ 101) × (room.new ≡ room.old) × (told.new ≡ told.old) }
    ensures none { agent.old.is_open ≡ true → (p : PortState) → slice_get agent.old.held.agent.ports port ≡ Some p →
        slice_get p.table.neighbors index ≡ None → (result ≡ 100) × (room.new ≡ room.old) × (told.new ≡ told.old) }
    ensures kept { agent.old.is_open ≡ true → (agent.new.is_open ≡ true) × (agent.new.held.agent ≡ agent.old.held.agent) }
    ensures closed { agent.old.is_open ≡ false → (result ≡ 102) × (agent.new.is_open ≡ false) × (room.new ≡ room.old) × (told.new ≡ told.old) }
    ensures no_port { agent.old.is_open ≡ true → ¬ (IsPort agent.old.held.agent port) →
        (result ≡ 103) × (room.new ≡ room.old) × (told.new ≡ told.old) }
{
    lldpa_neighbor(alloc, agent, port, index, room, told)
}

/// Reads a neighbor of a port that aged out.
fn gone(
    alloc: Global,
    agent: &mut LldpaAgent,
    port: u32,
    index: u32,
    room: &mut [u8],
    told: &mut LldpaHeld,
) -> u8
    ensures value { agent.old.is_open ≡ true → (p : PortState) → slice_get agent.old.held.agent.ports port ≡ Some p →
        (n : Neighbor) → slice_get p.table.gone index ≡ Some n → length n.octets ≤ length room.old →
        (result ≡ 0) × (take told.new.pdu.extent room.new ≡ n.octets) × (told.new.left ≡ n.left)
        × (told.new.pdu.ttl ≡ ttl_of n.octets) × (octets_at n.octets told.new.pdu.chassis ≡ (msap_of n.octets).chassis)
        × (octets_at n.octets told.new.pdu.port ≡ (msap_of n.octets).port)
        × (drop told.new.pdu.extent room.new ≡ drop told.new.pdu.extent room.old) }
    ensures life { agent.old.is_open ≡ true → (p : PortState) → slice_get agent.old.held.agent.ports port ≡ Some p →
        (n : Neighbor) → slice_get p.table.gone index ≡ Some n → result ≡ 0 → 0 < ttl_of n.octets →
        (told.new.pdu.extent ≤ length n.octets) × (take told.new.pdu.extent n.octets ≡ extent n.octets)
        × (told.new.pdu.discarded ≡ discarded_of n.octets) × (told.new.pdu.unrecognized ≡ count_unrecognized (kept_of n.octets)) }
    ensures shutdown { agent.old.is_open ≡ true → (p : PortState) → slice_get agent.old.held.agent.ports port ≡ Some p →
        (n : Neighbor) → slice_get p.table.gone index ≡ Some n → result ≡ 0 → ttl_of n.octets ≡ 0 →
        (told.new.pdu.extent ≡ 0) × (told.new.pdu.discarded ≡ 0) × (told.new.pdu.unrecognized ≡ 0) }
    ensures within { agent.old.is_open ≡ true → (p : PortState) → slice_get agent.old.held.agent.ports port ≡ Some p →
        (n : Neighbor) → slice_get p.table.gone index ≡ Some n → result ≡ 0 →
        (told.new.pdu.chassis.start + told.new.pdu.chassis.length ≤ length n.octets)
        × (told.new.pdu.port.start + told.new.pdu.port.length ≤ length n.octets) }
    ensures over { agent.old.is_open ≡ true → (p : PortState) → slice_get agent.old.held.agent.ports port ≡ Some p →
        (n : Neighbor) → slice_get p.table.gone index ≡ Some n → length room.old < length n.octets →
        (result ≡ 101) × (room.new ≡ room.old) × (told.new ≡ told.old) }
    ensures none { agent.old.is_open ≡ true → (p : PortState) → slice_get agent.old.held.agent.ports port ≡ Some p →
        slice_get p.table.gone index ≡ None → (result ≡ 100) × (room.new ≡ room.old) × (told.new ≡ told.old) }
    ensures kept { agent.old.is_open ≡ true → (agent.new.is_open ≡ true) × (agent.new.held.agent ≡ agent.old.held.agent) }
    ensures closed { agent.old.is_open ≡ false → (result ≡ 102) × (agent.new.is_open ≡ false) × (room.new ≡ room.old) × (told.new ≡ told.old) }
    ensures no_port { agent.old.is_open ≡ true → ¬ (IsPort agent.old.held.agent port) →
        (result ≡ 103) × (room.new ≡ room.old) × (told.new ≡ told.old) }
{
    lldpa_aged(alloc, agent, port, index, room, told)
}

/// Reads the chassis of an agent.
fn chassis(alloc: Global, agent: &mut LldpaAgent, told: &mut LldpaChassis) -> u8
    ensures value { agent.old.is_open ≡ true → (result ≡ 0) × (told.new.mac ≡ agent.old.held.agent.configuration.mac)
        × (told.new.role ≡ role_number agent.old.held.agent.configuration.role)
        × ((if told.new.managed then Some told.new.management else None) ≡ agent.old.held.agent.configuration.management)
        × (take told.new.hostname_length told.new.hostname ≡ agent.old.held.agent.configuration.hostname)
        × (take told.new.description_length told.new.description ≡ agent.old.held.agent.configuration.description) }
    ensures zeros { agent.old.is_open ≡ true → (agent.old.held.agent.configuration.management ≡ None → told.new.management ≡ replicate 4 0)
        × (drop told.new.hostname_length told.new.hostname ≡ drop told.new.hostname_length (replicate most_text 0))
        × (drop told.new.description_length told.new.description ≡ drop told.new.description_length (replicate most_text 0)) }
    ensures kept { agent.old.is_open ≡ true → (agent.new.is_open ≡ true) × (agent.new.held.agent ≡ agent.old.held.agent) }
    ensures closed { agent.old.is_open ≡ false → (result ≡ 102) × (agent.new.is_open ≡ false) × (told.new ≡ told.old) }
{
    lldpa_chassis(alloc, agent, told)
}

/// Reads the settings of an agent.
fn configuration(alloc: Global, agent: &mut LldpaAgent, told: &mut LldpaConfiguration) -> u8
    ensures value { agent.old.is_open ≡ true → (result ≡ 0) × (told.new.interval ≡ agent.old.held.agent.configuration.interval)
        × (told.new.hold ≡ agent.old.held.agent.configuration.hold) × (told.new.ttl ≡ sent_ttl agent.old.held.agent.configuration)
        × (told.new.reinit ≡ agent.old.held.agent.configuration.reinit) × (told.new.fast_init ≡ agent.old.held.agent.configuration.fast_init)
        × (told.new.credit_max ≡ agent.old.held.agent.configuration.credit_max)
        × (told.new.max_neighbors ≡ agent.old.held.agent.configuration.limit)
        × (told.new.ports ≡ length agent.old.held.agent.ports)
        × (take told.new.ports told.new.status ≡ map (λ port. status_number port.status) agent.old.held.agent.ports)
        × (drop told.new.ports told.new.status ≡ drop told.new.ports (replicate most_ports 0)) }
    ensures kept { agent.old.is_open ≡ true → (agent.new.is_open ≡ true) × (agent.new.held.agent ≡ agent.old.held.agent) }
    ensures closed { agent.old.is_open ≡ false → (result ≡ 102) × (agent.new.is_open ≡ false) × (told.new ≡ told.old) }
{
    lldpa_configuration(alloc, agent, told)
}

/// Reads the seconds until something is due.
fn due(alloc: Global, agent: &mut LldpaAgent, seconds: &mut u32) -> u8
    ensures value { agent.old.is_open ≡ true → (result ≡ 0) × IsDue agent.old.held.agent seconds.new }
    ensures kept { agent.old.is_open ≡ true → (agent.new.is_open ≡ true) × (agent.new.held.agent ≡ agent.old.held.agent) }
    ensures closed { agent.old.is_open ≡ false → (result ≡ 102) × (agent.new.is_open ≡ false) × (seconds.new ≡ seconds.old) }
{
    lldpa_due(alloc, agent, seconds)
}

/// Writes the ordinary frame of a port.
fn ordinary_frame(
    alloc: Global,
    agent: &mut LldpaAgent,
    port: u32,
    room: &mut [u8; MOST_FRAME],
) -> usize
    requires open { agent.old.is_open ≡ true }
    requires port { IsPort agent.old.held.agent port }
    requires fits { length (frame_of agent.old.held.agent.configuration (name_of agent.old.held.agent port) Ordinary) ≤ MOST_FRAME }
    ensures octets { take result room.new ≡ frame_of agent.old.held.agent.configuration (name_of agent.old.held.agent port) Ordinary }
    ensures rest { drop result room.new ≡ drop result room.old }
    ensures kept { (agent.new.is_open ≡ true) × (agent.new.held.agent ≡ agent.old.held.agent) }
{
    let mut written = 9999;
    let answer = lldpa_frame_of(alloc, agent, port, 1, room, &mut written);
    prove!(answer == 0);
    written
}

/// Asks for a frame.
fn frame(
    alloc: Global,
    agent: &mut LldpaAgent,
    port: u32,
    mark: u32,
    room: &mut [u8],
    written: &mut usize,
) -> u8
    ensures ordinary { mark ≡ 1 → agent.old.is_open ≡ true → IsPort agent.old.held.agent port →
        length (frame_of agent.old.held.agent.configuration (name_of agent.old.held.agent port) Ordinary) ≤ length room.old → (result ≡ 0)
        × (take written.new room.new ≡ frame_of agent.old.held.agent.configuration (name_of agent.old.held.agent port) Ordinary) }
    ensures shutdown { mark ≡ 2 → agent.old.is_open ≡ true → IsPort agent.old.held.agent port →
        length (frame_of agent.old.held.agent.configuration (name_of agent.old.held.agent port) Shutdown) ≤ length room.old → (result ≡ 0)
        × (take written.new room.new ≡ frame_of agent.old.held.agent.configuration (name_of agent.old.held.agent port) Shutdown) }
    ensures over { mark ≡ 2 → agent.old.is_open ≡ true → IsPort agent.old.held.agent port →
        length room.old < length (frame_of agent.old.held.agent.configuration (name_of agent.old.held.agent port) Shutdown) →
        (result ≡ 101) × (room.new ≡ room.old) × (written.new ≡ written.old) }
    ensures over_too { mark ≡ 1 → agent.old.is_open ≡ true → IsPort agent.old.held.agent port →
        length room.old < length (frame_of agent.old.held.agent.configuration (name_of agent.old.held.agent port) Ordinary) →
        (result ≡ 101) × (room.new ≡ room.old) × (written.new ≡ written.old) }
    ensures rest { result ≡ 0 → drop written.new room.new ≡ drop written.new room.old }
    ensures range { ¬ (mark ≡ 1) → ¬ (mark ≡ 2) → (result ≡ 100) × (room.new ≡ room.old) × (written.new ≡ written.old) }
    ensures closed { mark ≡ 1 → agent.old.is_open ≡ false → (result ≡ 102) × (agent.new.is_open ≡ false) × (room.new ≡ room.old) × (written.new ≡ written.old) }
    ensures closed_too { mark ≡ 2 → agent.old.is_open ≡ false → (result ≡ 102) × (room.new ≡ room.old) × (written.new ≡ written.old) }
    ensures no_port { mark ≡ 1 → agent.old.is_open ≡ true → ¬ (IsPort agent.old.held.agent port) →
        (result ≡ 103) × (room.new ≡ room.old) × (written.new ≡ written.old) }
    ensures no_port_too { mark ≡ 2 → agent.old.is_open ≡ true → ¬ (IsPort agent.old.held.agent port) →
        (result ≡ 103) × (room.new ≡ room.old) × (written.new ≡ written.old) }
    ensures says { result ≡ 0 → mark ≡ 1 → SaysBack (draft_of agent.old.held.agent.configuration (name_of agent.old.held.agent port) Ordinary)
        (take written.new room.new) }
    ensures says_too { result ≡ 0 → mark ≡ 2 → SaysBack (draft_of agent.old.held.agent.configuration (name_of agent.old.held.agent port) Shutdown)
        (take written.new room.new) }
    ensures past { result ≡ 0 → mark ≡ 1 → (past : Past) → Stands past agent.old.held.agent → (name : List ℕ) →
        slice_get past.options.names port ≡ Some name → take written.new room.new ≡ frame_of (configuration_after past.options past.events) name Ordinary }
    ensures kept { agent.old.is_open ≡ true → (agent.new.is_open ≡ true) × (agent.new.held.agent ≡ agent.old.held.agent) }
    ensures shut { agent.old.is_open ≡ false → agent.new.is_open ≡ false }
{
    let answer = lldpa_frame_of(alloc, agent, port, mark, room, written);
    if answer != 0 {
        return answer;
    }
    prove!(*written <= room.len());
    answer
}
