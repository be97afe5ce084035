//! Writes the neighbors that a port holds.
ghost use Rattle.std.specs.Prelude.{◌≡◌, ◌<◌, ◌≤◌, ℕ, None, Some, length, drop, slice_get};
ghost use Rattle.lldp_table.specs.Events.{Neighbor};
ghost use Rattle.lldp_engine.specs.AgentState.{IsPort};
ghost use Rattle.lldpa_c.specs.Held.{neighbors_at, TellsNeighbor};
ghost use Rattle.lldpa_c.specs.Reading.{ReadsNeighborCount, ReadsNeighbor};

use crate::answer::{NO_PORT, NOT_OPEN, OK, OUT_OF_RANGE};
use crate::examine::{LldpaExamined, tell_examined};
use crate::giving::give;
use crate::holder::LldpaAgent;
use lldp_engine::Agent;
use lldp_table::Entry;
use std::alloc::Global;

/// A neighbor that a port holds.
#[repr(C)]
#[derive(Clone, Copy)]
pub struct LldpaHeld {
    /// The fields of the neighbor's last stored LLDPDU.
    pub pdu: LldpaExamined,
    /// The seconds until the neighbor ages out.
    pub left: u32,
}

/// Writes how many neighbors a port holds.
#[unsafe(no_mangle)]
pub extern "C" fn lldpa_neighbor_count(
    alloc: Global,
    agent: &mut LldpaAgent,
    port: u32,
    count: &mut u32,
) -> u8
    ensures count { ReadsNeighborCount agent.old port count.old result agent.new count.new }
{
    let Some(held) = agent.take(alloc) else {
        return NOT_OPEN;
    };
    if port >= u32::from(held.ports()) {
        agent.put(held);
        return NO_PORT;
    }
    *count = u32::from(held.table(port as u8).len());
    agent.put(held);
    OK
}

/// Writes a neighbor's fields to `told`, and its LLDPDU to the start of the buffer.
pub(crate) fn tell_entry(entry: &Entry<'_>, room: &mut [u8], told: &mut LldpaHeld) -> u8
    ensures fits { length entry.now.octets ≤ length room.old → result ≡ 0 }
    ensures over { length room.old < length entry.now.octets → result ≡ 101 }
    ensures told { result ≡ 0 → TellsNeighbor entry.now room.new told.new }
    ensures rest { result ≡ 0 →
        drop told.new.pdu.extent room.new ≡ drop told.new.pdu.extent room.old }
    ensures refused { ¬ (result ≡ 0) → (room.new ≡ room.old) × (told.new ≡ told.old) }
{
    let octets = entry.octets();
    let mut length = 0;
    let answer = give(octets, room, &mut length);
    if answer != OK {
        return answer;
    }
    tell_examined(octets, &mut told.pdu);
    told.left = u32::from(entry.left());
    OK
}

/// Writes the neighbor with this index in a port's table.
fn tell_neighbor(agent: &Agent, port: u8, index: u32, room: &mut [u8], told: &mut LldpaHeld) -> u8
    requires { IsPort agent.now port }
    ensures none { slice_get (neighbors_at agent.now port) index ≡ None → result ≡ 100 }
    ensures fits { (neighbor : Neighbor) →
        slice_get (neighbors_at agent.now port) index ≡ Some neighbor →
        length neighbor.octets ≤ length room.old → result ≡ 0 }
    ensures over { (neighbor : Neighbor) →
        slice_get (neighbors_at agent.now port) index ≡ Some neighbor →
        length room.old < length neighbor.octets → result ≡ 101 }
    ensures told { (neighbor : Neighbor) →
        slice_get (neighbors_at agent.now port) index ≡ Some neighbor → result ≡ 0 →
        TellsNeighbor neighbor room.new told.new }
    ensures rest { result ≡ 0 →
        drop told.new.pdu.extent room.new ≡ drop told.new.pdu.extent room.old }
    ensures refused { ¬ (result ≡ 0) → (room.new ≡ room.old) × (told.new ≡ told.old) }
{
    let table = agent.table(port);
    if index >= u32::from(table.len()) {
        return OUT_OF_RANGE;
    }
    tell_entry(&table.entry(index as u8), room, told)
}

/// Writes the neighbor with this index, from 0, in a port's table: its LLDPDU to the caller's
/// buffer, and the fields of the LLDPDU and the seconds left to `told`.
#[unsafe(no_mangle)]
pub extern "C" fn lldpa_neighbor(
    alloc: Global,
    agent: &mut LldpaAgent,
    port: u32,
    index: u32,
    room: &mut [u8],
    told: &mut LldpaHeld,
) -> u8
    ensures told { ReadsNeighbor agent.old port index room.old told.old result
        agent.new room.new told.new }
{
    let Some(held) = agent.take(alloc) else {
        return NOT_OPEN;
    };
    if port >= u32::from(held.ports()) {
        agent.put(held);
        return NO_PORT;
    }
    let answer = tell_neighbor(&held, port as u8, index, room, told);
    agent.put(held);
    answer
}
