//! Writes the neighbors of a port that aged out.
ghost use Rattle.std.specs.Prelude.{◌≡◌, ◌<◌, ◌≤◌, ℕ, None, Some, length, drop, slice_get};
ghost use Rattle.lldp_table.specs.Events.{Neighbor};
ghost use Rattle.lldp_engine.specs.AgentState.{IsPort};
ghost use Rattle.lldpa_c.specs.Held.{gone_at, TellsNeighbor};
ghost use Rattle.lldpa_c.specs.Reading.{ReadsAgedCount, ReadsAged};

use crate::answer::{NO_PORT, NOT_OPEN, OK, OUT_OF_RANGE};
use crate::held::{LldpaHeld, tell_entry};
use crate::holder::LldpaAgent;
use lldp_engine::Agent;
use std::alloc::Global;

/// Writes how many neighbors of a port aged out at the last tick, if its table had no other call
/// since.
#[unsafe(no_mangle)]
pub extern "C" fn lldpa_aged_count(
    alloc: Global,
    agent: &mut LldpaAgent,
    port: u32,
    count: &mut u32,
) -> u8
    ensures count { ReadsAgedCount agent.old port count.old result agent.new count.new }
{
    let Some(held) = agent.take(alloc) else {
        return NOT_OPEN;
    };
    if port >= u32::from(held.ports()) {
        agent.put(held);
        return NO_PORT;
    }
    *count = u32::from(held.table(port as u8).gone());
    agent.put(held);
    OK
}

/// Writes the neighbor with this index among those of a port that aged out.
fn tell_gone(agent: &Agent, port: u8, index: u32, room: &mut [u8], told: &mut LldpaHeld) -> u8
    requires { IsPort agent.now port }
    ensures none { slice_get (gone_at agent.now port) index ≡ None → result ≡ 100 }
    ensures fits { (neighbor : Neighbor) →
        slice_get (gone_at agent.now port) index ≡ Some neighbor →
        length neighbor.octets ≤ length room.old → result ≡ 0 }
    ensures over { (neighbor : Neighbor) →
        slice_get (gone_at agent.now port) index ≡ Some neighbor →
        length room.old < length neighbor.octets → result ≡ 101 }
    ensures told { (neighbor : Neighbor) →
        slice_get (gone_at agent.now port) index ≡ Some neighbor → result ≡ 0 →
        TellsNeighbor neighbor room.new told.new }
    ensures rest { result ≡ 0 →
        drop told.new.pdu.extent room.new ≡ drop told.new.pdu.extent room.old }
    ensures refused { ¬ (result ≡ 0) → (room.new ≡ room.old) × (told.new ≡ told.old) }
{
    let table = agent.table(port);
    if index >= u32::from(table.gone()) {
        return OUT_OF_RANGE;
    }
    tell_entry(&table.gone_entry(index as u8), room, told)
}

/// Writes the neighbor with this index, from 0, among those of a port that aged out at the last
/// tick, as `lldpa_neighbor` would have written it before that tick.
#[unsafe(no_mangle)]
pub extern "C" fn lldpa_aged(
    alloc: Global,
    agent: &mut LldpaAgent,
    port: u32,
    index: u32,
    room: &mut [u8],
    told: &mut LldpaHeld,
) -> u8
    ensures told { ReadsAged agent.old port index room.old told.old result
        agent.new room.new told.new }
{
    let Some(held) = agent.take(alloc) else {
        return NOT_OPEN;
    };
    if port >= u32::from(held.ports()) {
        agent.put(held);
        return NO_PORT;
    }
    let answer = tell_gone(&held, port as u8, index, room, told);
    agent.put(held);
    answer
}
