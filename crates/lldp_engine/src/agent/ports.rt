//! The ports of an agent.
ghost use Rattle.std.specs.Prelude.{◌≡◌, ◌<◌, ◌≤◌, ◌+◌, ◌++◌, [], IsTrue, map, length, IfOk};
ghost use Rattle.std.specs.List.{list_all};
ghost use Rattle.lldp_engine.specs.Options.{options_of, InRange, is_port_name};
ghost use Rattle.lldp_engine.specs.AgentState.{fits};
ghost use Rattle.lldp_engine.specs.Past.{sending};
ghost use Rattle.lldp_engine.specs.Place.{place_from};
ghost use Rattle.lldp_engine.specs.Port.EventView.{port_event_of};
ghost use Rattle.lldp_engine.specs.Code.PortStep.{opened_port};
ghost use Rattle.lldp_engine.specs.Code.Step.{ports_step, marks_step};
ghost use Rattle.lldp_engine.specs.Code.Taking.{AllFit, CanTake};
ghost use Rattle.lldp_engine.specs.Code.Telling.{ports_told};
ghost use Rattle.lldp_engine.specs.Told.{told_of};
ghost use Rattle.lldp_engine.specs.Ranges.{most_ports};
ghost use Rattle.lldp_engine.specs.Code.Whose.{each_port, whose_of};

use crate::agent::options::{MOST_PORTS, Options};
use crate::agent::told::Told;
use crate::port::Port;
use crate::port::event::{PortEvent, Whose};
use arrayvec::ArrayVec;
use lldp_table::Room;
use lldp_transmit::Mark;
use std::alloc::{AllocError, Allocator};

/// The ports that send, in ascending order, each with what it sends.
pub type Marks = ArrayVec<(u8, Mark), MOST_PORTS>;

/// Opens the ports that the options name, and allocates their tables.
pub(crate) fn open_ports<A: Allocator + Clone>(
    alloc: A,
    options: &Options<'_>,
) -> Result<Room<Port<A>, A>, AllocError>
    requires names { IsTrue (list_all is_port_name (options_of options.now).names) }
    requires range { InRange (options_of options.now) }
    ensures { IfOk result (λ ports. ports.items
        ≡ map (opened_port (options_of options.now)) (options_of options.now).names) }
{
    let mut ports = Room::open(alloc.clone()?, options.ports.len())?;
    for name in options.ports {
        ports.push(Port::open(alloc.clone()?, name.as_bytes(), options)?);
    }
    Ok(ports)
}

/// Adds a port and what it sends to the list, if it sends anything.
fn note(marks: &mut Marks, port: u8, mark: Mark)
    requires { length marks.old.items < most_ports }
    ensures noted { marks.new.items ≡ marks.old.items ++ sending port mark [] }
    ensures few { length marks.new.items ≤ length marks.old.items + 1 }
{
    if mark != Mark::Quiet {
        marks.push((port, mark));
    }
}

/// Applies an event to the port or ports that it concerns. `interval` is the tx-interval in force
/// after the event. Writes which ports send, and what, and returns what the event tells.
pub(crate) fn take_event<'a, A: Allocator>(
    ports: &mut [Port<A>],
    event: &Whose<'a>,
    interval: u16,
    marks: &mut Marks,
) -> Told<'a>
    requires few { length ports.old ≤ most_ports }
    requires can { CanTake (whose_of event.now) ports.old }
    ensures after { ports.new ≡ ports_step (whose_of event.now) interval 0 ports.old }
    ensures marks { marks.new.items ≡ marks_step (whose_of event.now) interval 0 ports.old }
    ensures told { told_of result ≡ ports_told (whose_of event.now) ports.old }
{
    marks.clear();
    let mut told = Told::Nothing;
    match event {
        Whose::OnePort(port, own) => {
            let mark = ports[*port as usize].take(own, interval, &mut told);
            note(marks, *port, mark);
        }
        // Most events are ticks. They have their own loop, which need not check the kind of event.
        Whose::EachPort(PortEvent::Tick) => each_takes(ports, &PortEvent::Tick, interval, marks),
        Whose::EachPort(each) => each_takes(ports, each, interval, marks),
    }
    told
}

/// Applies an event to each port. Adds which ports send, and what, to the list, which is empty.
#[inline(always)]
fn each_takes<A: Allocator>(
    ports: &mut [Port<A>],
    event: &PortEvent<'_>,
    interval: u16,
    marks: &mut Marks,
)
    requires few { length ports.old ≤ most_ports }
    requires limits { AllFit (port_event_of event.now) ports.old }
    requires none { marks.old.items ≡ [] }
    ensures after { ports.new
        ≡ ports_step (each_port (port_event_of event.now)) interval 0 ports.old }
    ensures marks { marks.new.items
        ≡ marks_step (each_port (port_event_of event.now)) interval 0 ports.old }
{
    let mut told = Told::Nothing;
    for (i, port) in ports.iter_mut().enumerate() {
        let mark = port.take(event, interval, &mut told);
        note(marks, i as u8, mark);
    }
}

/// Returns whether every port holds at most this many neighbors.
pub(crate) fn all_fit<A: Allocator>(ports: &[Port<A>], most: u8) -> bool
    ensures { result ≡ fits ports.now most }
{
    for port in ports {
        if port.table().len() > most {
            return false;
        }
    }
    true
}

/// Returns the number of the port with this name, from 0.
pub(crate) fn find_place<A: Allocator>(ports: &[Port<A>], name: &[u8]) -> Option<u8>
    requires { length ports.now ≤ most_ports }
    ensures { result ≡ place_from 0 (map (λ p. p.name) ports.now) name.now }
{
    for (i, port) in ports.iter().enumerate() {
        if port.name() == name {
            return Some(i as u8);
        }
    }
    None
}
