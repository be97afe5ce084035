//! Reports to an agent that seconds have passed.
ghost use Rattle.std.specs.Prelude.{◌≡◌};
ghost use Rattle.lldp_engine.specs.Event.{tick};
ghost use Rattle.lldpa_c.specs.Agent.{Steps};
ghost use Rattle.lldpa_c.specs.Ticks.{neighbors_held, AgesOut, Takes, TicksTaken};

use crate::answer::{NOT_OPEN, OK};
use crate::holder::LldpaAgent;
use crate::marks::{LldpaMarks, tell};
use crate::still::is_still;
use lldp_engine::{Agent, Event, Marks};
use std::alloc::Global;

/// The result of several ticks.
#[repr(C)]
#[derive(Clone, Copy)]
pub struct LldpaTicks {
    /// How many ticks were counted.
    pub taken: u32,
    /// How many neighbors aged out at the last counted tick.
    pub aged_out: u32,
}

/// Returns how many neighbors all ports hold together.
fn count_neighbors(agent: &Agent) -> u32
    ensures { result ≡ neighbors_held agent.now }
{
    let mut count = 0;
    for port in 0..agent.ports() {
        count += u32::from(agent.table(port).len());
    }
    count
}

/// Applies one tick. Returns the frames to send, and how many neighbors aged out.
fn tick_once(agent: &mut Agent) -> (Marks, u32)
    ensures steps { Steps agent.old tick agent.new result.0.items }
    ensures aged_out { AgesOut agent.old agent.new result.1 }
{
    let before = count_neighbors(agent);
    let sent = agent.step(Event::Tick);
    let after = count_neighbors(agent);
    (sent, before - after)
}

/// Applies at most `count` ticks, up to the first at which a port sends or a neighbor ages out.
fn take_ticks(agent: &mut Agent, count: u32) -> (Marks, LldpaTicks)
    ensures { Takes count result.1.taken agent.old agent.new result.0.items result.1.aged_out }
{
    let mut sent = Marks::new();
    let mut taken = 0;
    let mut aged_out = 0;
    while taken < count && aged_out == 0 && sent.is_empty() {
        if is_still(agent) {
            let taken = count;
            return (sent, LldpaTicks { taken, aged_out });
        }
        (sent, aged_out) = tick_once(agent);
        taken += 1;
    }
    (sent, LldpaTicks { taken, aged_out })
}

/// Applies at most `count` ticks. Stops after the first at which a port sends or a neighbor ages
/// out.
#[unsafe(no_mangle)]
pub extern "C" fn lldpa_ticks(
    alloc: Global,
    agent: &mut LldpaAgent,
    count: u32,
    marks: &mut LldpaMarks,
    told: &mut LldpaTicks,
) -> u8
    ensures { TicksTaken agent.old count marks.old told.old result agent.new marks.new told.new }
{
    let Some(mut held) = agent.take(alloc) else {
        return NOT_OPEN;
    };
    let (sent, ticks) = take_ticks(&mut held, count);
    agent.put(held);
    tell(&sent, marks);
    *told = ticks;
    OK
}
