//! Runs commands on an agent.
ghost use Rattle.std.specs.Prelude.{◌≡◌};
ghost use Rattle.lldp_engine.specs.Given.{command_given};
ghost use Rattle.lldpa_c.specs.Command.{show_number, Obeys, Obeyed};

use crate::answer::{NOT_OPEN, OK};
use crate::faults::command_fault_number;
use crate::holder::LldpaAgent;
use crate::marks::{LldpaMarks, tell};
use lldp_engine::{Agent, Command, Event, Marks, Show};
use std::alloc::Global;

/// Returns the number of a show.
fn show_number(show: Show) -> u32
    ensures { result ≡ show_number show }
{
    match show {
        Show::Neighbors => 1,
        Show::Statistics => 2,
        Show::Chassis => 3,
        Show::Configuration => 4,
    }
}

/// Runs a command. A show command only writes the number of its show.
fn obey(agent: &mut Agent, line: &[u8], show: &mut u32, marks: &mut LldpaMarks) -> u8
    ensures { Obeys (command_given agent.old line.now) agent.old show.old marks.old result
        agent.new show.new marks.new }
{
    match agent.read_command(line) {
        Err(fault) => command_fault_number(fault),
        Ok(Command::Show(what)) => {
            *show = show_number(what);
            tell(&Marks::new(), marks);
            OK
        }
        Ok(Command::Set(setting)) => {
            let sent = agent.step(Event::Set(setting));
            *show = 0;
            tell(&sent, marks);
            OK
        }
    }
}

/// Runs a command: applies a setting, or writes the number of the show to print.
#[unsafe(no_mangle)]
pub extern "C" fn lldpa_command(
    alloc: Global,
    agent: &mut LldpaAgent,
    line: &[u8],
    show: &mut u32,
    marks: &mut LldpaMarks,
) -> u8
    ensures { Obeyed agent.old line.now show.old marks.old result agent.new show.new marks.new }
{
    let Some(mut held) = agent.take(alloc) else {
        return NOT_OPEN;
    };
    let answer = obey(&mut held, line, show, marks);
    agent.put(held);
    answer
}
