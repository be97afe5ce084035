//! Disables every port of an agent, before the agent is closed.
ghost use Rattle.std.specs.Prelude.{◌≡◌};
ghost use Rattle.lldp_engine.specs.AgentState.{IsPort};
ghost use Rattle.lldp_engine.specs.Code.Step.{agent_after, agent_marks};
ghost use Rattle.lldp_engine.specs.Past.{Past, with_event};
ghost use Rattle.lldp_engine.specs.Standing.{Stands};
ghost use Rattle.lldpa_c.specs.Leaving.{disables, shutdown_if, Leaves, Left};

use crate::answer::{NOT_OPEN, OK};
use crate::holder::LldpaAgent;
use crate::marks::{LldpaMarks, tell};
use lldp_engine::{Agent, Event, Mark, Marks, Setting, Status};
use std::alloc::Global;

/// Disables a port. Returns whether the port sends a shutdown frame.
fn disable(agent: &mut Agent, port: u8) -> bool
    requires { IsPort agent.old port }
    ensures after { agent.new ≡ agent_after (disables port) agent.old }
    ensures sends { shutdown_if result port ≡ agent_marks (disables port) agent.old }
    ensures stands { (past : Past) → Stands past agent.old → Stands (with_event past (disables port)) agent.new }
{
    let status = Status::Disabled;
    let sent = agent.step(Event::Set(Setting::Status { port, status }));
    !sent.is_empty()
}

/// Disables every port. Returns the shutdown frames to send.
fn disable_each(agent: &mut Agent) -> Marks
    ensures { Leaves agent.old agent.new result.items }
{
    let mut sent = Marks::new();
    for port in 0..agent.ports() {
        if disable(agent, port) {
            sent.push((port, Mark::Shutdown));
        }
    }
    sent
}

/// Disables every port. Writes the frames to send: a shutdown frame for each active port.
#[unsafe(no_mangle)]
pub extern "C" fn lldpa_leave(alloc: Global, agent: &mut LldpaAgent, marks: &mut LldpaMarks) -> u8
    ensures { Left agent.old marks.old result agent.new marks.new }
{
    let Some(mut held) = agent.take(alloc) else {
        return NOT_OPEN;
    };
    let sent = disable_each(&mut held);
    agent.put(held);
    tell(&sent, marks);
    OK
}
