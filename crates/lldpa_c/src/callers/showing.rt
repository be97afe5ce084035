//! Reads lines of shows through the exported function.
ghost use Rattle.std.specs.Prelude.{◌≡◌, ◌≤◌, ◌<◌, true, false, Some, None, IfOk, slice_get, length, take, drop, ◌+◌, ◌-◌, ◌⊎◌, ℕ, max, List};
ghost use Rattle.std.specs.List.{flat_map};
ghost use Rattle.lldp_engine.specs.Lines.{lines_of};
ghost use Rattle.lldp_engine.specs.declared.command.Show.TheVariants.{Neighbors};
ghost use Rattle.lldp_text.specs.Text.{ended};

use crate::holder::LldpaAgent;
use crate::lines::{LldpaLines, lldpa_show_lines};
use lldp_engine::Show;
use std::alloc::Global;

/// Reads lines of a show.
fn lines(
    alloc: Global,
    agent: &mut LldpaAgent,
    show: Show,
    from: u32,
    room: &mut [u8],
    told: &mut LldpaLines,
) -> u8
    ensures all { result ≡ 0 → told.new.done ≡ true → told.new.next ≡ max from (length (lines_of show agent.old.held.agent)) }
    ensures octets { result ≡ 0 → (from ≤ told.new.next) × (take told.new.length room.new
        ≡ flat_map ended (take (told.new.next - from) (drop from (lines_of show agent.old.held.agent)))) }
    ensures within { result ≡ 0 → told.new.length ≤ length room.new }
    ensures some { result ≡ 0 → told.new.done ≡ false → from < told.new.next }
    ensures over { result ≡ 0 → told.new.done ≡ false → (line : List ℕ) → slice_get (lines_of show agent.old.held.agent) told.new.next ≡ Some line →
        length room.new < told.new.length + length line + 1 }
    ensures rest { result ≡ 0 → drop told.new.length room.new ≡ drop told.new.length room.old }
    ensures fits { agent.old.is_open ≡ true → slice_get (lines_of show agent.old.held.agent) from ≡ None → result ≡ 0 }
    ensures closed { agent.old.is_open ≡ false → (result ≡ 102) × (agent.new.is_open ≡ false) × (room.new ≡ room.old) × (told.new ≡ told.old) }
    ensures kept { agent.old.is_open ≡ true → (agent.new.is_open ≡ true) × (agent.new.held.agent ≡ agent.old.held.agent) }
    ensures first_over { agent.old.is_open ≡ true → (line : List ℕ) → slice_get (lines_of show agent.old.held.agent) from ≡ Some line →
        length room.old < length line + 1 → result ≡ 101 }
    ensures first_fits { agent.old.is_open ≡ true → (line : List ℕ) → slice_get (lines_of show agent.old.held.agent) from ≡ Some line →
        length line + 1 ≤ length room.old → result ≡ 0 }
    ensures refused { ¬ (result ≡ 0) → (room.new ≡ room.old) × (told.new ≡ told.old) }
{
    let number = match show {
        Show::Neighbors => 1,
        Show::Statistics => 2,
        Show::Chassis => 3,
        Show::Configuration => 4,
    };
    lldpa_show_lines(alloc, agent, number, from, room, told)
}

/// Asks for a show that is none.
fn no_show(
    alloc: Global,
    agent: &mut LldpaAgent,
    show: u32,
    from: u32,
    room: &mut [u8],
    told: &mut LldpaLines,
) -> u8
    requires { (show ≡ 0) ⊎ (5 ≤ show) }
    ensures answer { (result ≡ 100) × (room.new ≡ room.old) × (told.new ≡ told.old) }
    ensures kept { (agent.new.is_open ≡ agent.old.is_open) × (agent.old.is_open ≡ true → agent.new.held.agent ≡ agent.old.held.agent) }
{
    lldpa_show_lines(alloc, agent, show, from, room, told)
}

/// Returns octet `n` of all lines of the neighbors, which are read in pages of a room, or the number of an error.
fn octet_of_show(
    alloc: Global,
    agent: &mut LldpaAgent,
    room: &mut [u8],
    n: usize,
) -> Result<Option<u8>, u8>
    requires { agent.old.is_open ≡ true }
    ensures { IfOk result (λ octet. octet ≡ slice_get (flat_map ended (lines_of Neighbors agent.old.held.agent)) n) }
{
    let mut told = LldpaLines {
        length: 0,
        next: 0,
        done: false,
    };
    let mut from = 0;
    let mut left = n;
    'page: loop {
        let answer = lldpa_show_lines(alloc, agent, 1, from, room, &mut told);
        if answer != 0 {
            return Err(answer);
        }
        if left < told.length {
            return Ok(Some(room[left]));
        }
        if told.done {
            return Ok(None);
        }
        left -= told.length;
        from = told.next;
    }
}
