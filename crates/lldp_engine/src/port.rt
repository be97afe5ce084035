//! A port, and what an event does to it.
ghost use Rattle.std.specs.Prelude.{◌≡◌, ◌≤◌, length, IfOk};
ghost use Rattle.lldp_engine.specs.Options.{options_of, InRange};
ghost use Rattle.lldp_engine.specs.Port.Event.{tick, status};
ghost use Rattle.lldp_engine.specs.Port.EventView.{port_event_of};
ghost use Rattle.lldp_engine.specs.Code.PortStep.{opened_port, port_after_event, port_cause, port_mark, port_step};
ghost use Rattle.lldp_engine.specs.Code.Taking.{FitsLimit};
ghost use Rattle.lldp_engine.specs.Code.Telling.{port_told};
ghost use Rattle.lldp_engine.specs.Told.{told_of};
ghost use Rattle.lldp_engine.specs.Ranges.{most_name};

mod causes;
pub(crate) mod counters;
pub(crate) mod event;
mod hearing;
pub(crate) mod status;

use crate::agent::options::Options;
use crate::agent::port_names::MOST_NAME;
use crate::agent::told::Told;
use crate::port::counters::Counters;
use crate::port::status::{Status, opening_status};
use arrayvec::ArrayVec;
use causes::{cause_of_link_event, cause_of_status};
use event::PortEvent;
use lldp_table::Table;
use lldp_transmit::{Cause, Mark, Transmit};
use std::alloc::{AllocError, Allocator};
use std::marker::Model;

#[derive(Drop)]
pub(crate) struct Port<A: Allocator> {
    name: ArrayVec<u8, MOST_NAME>,
    status: Status,
    table: Table<A>,
    transmit: Transmit,
    counters: Counters,
}

impl<A: Allocator> Model for Port<A> {
    ghost use Rattle.lldp_engine.specs.AgentState.{PortState};

    ghost Value = { PortState };

    ghost view = { λ p. record {
      name = p.name.items;
      status = p.status;
      table = p.table.shown;
      machine = p.transmit;
      counters = p.counters;
    } };
}

fn name_of(octets: &[u8]) -> ArrayVec<u8, MOST_NAME>
    requires { length octets.now ≤ most_name }
    ensures { result.items ≡ octets.now }
{
    let mut name = ArrayVec::new();
    let _ = name.try_extend_from_slice(octets);
    name
}

impl<A: Allocator> Port<A> {
    /// Opens a port and allocates its table. The port has had no events yet.
    pub(crate) fn open(alloc: A, name: &[u8], options: &Options<'_>) -> Result<Port<A>, AllocError>
        requires name { length name.now ≤ most_name }
        requires range { InRange (options_of options.now) }
        ensures { IfOk result (λ port. port ≡ opened_port (options_of options.now) name.now) }
    {
        let status = opening_status(options);
        let table = Table::open(alloc, options.max_neighbors)?;
        Ok(Port {
            name: name_of(name),
            status,
            table,
            transmit: Transmit::new(
                options.credit_max,
                options.fast_init,
                options.reinit,
                status.transmits(),
            ),
            counters: Counters::ZERO,
        })
    }

    pub(crate) fn name(&self) -> &[u8]
        ensures value { result.now ≡ self.now.name }
        ensures short { length result.now ≤ most_name }
    {
        self.name.as_slice()
    }

    pub(crate) fn status(&self) -> Status
        ensures { result ≡ self.now.status }
    {
        self.status
    }

    pub(crate) fn is_up(&self) -> bool
        ensures { result ≡ self.now.machine.up }
    {
        self.transmit.is_up()
    }

    pub(crate) fn table(&self) -> &Table<A>
        ensures { result.now.shown ≡ self.now.table }
    {
        &self.table
    }

    pub(crate) fn machine(&self) -> &Transmit
        ensures { result.now ≡ self.now.machine }
    {
        &self.transmit
    }

    pub(crate) fn counters(&self) -> &Counters
        ensures { result.now ≡ self.now.counters }
    {
        &self.counters
    }

    /// Applies an event, with the tx-interval in force after it. Returns what the port sends, and
    /// writes what a frame tells.
    #[inline(always)]
    pub(crate) fn take<'a>(
        &mut self,
        event: &PortEvent<'a>,
        interval: u16,
        told: &mut Told<'a>,
    ) -> Mark
        requires { FitsLimit (port_event_of event.now) self.old.table }
        ensures after { self.new ≡ port_step (port_event_of event.now) interval self.old }
        ensures mark { result ≡ port_mark (port_event_of event.now) interval self.old }
        ensures told { told_of told.new
            ≡ port_told (port_event_of event.now) self.old (told_of told.old) }
    {
        let cause = self.apply(event, told);
        let mark = self.transmit.event(cause, interval);
        self.counters.count_mark(mark);
        mark
    }

    /// Ages the neighbors by a second, and counts those that age out.
    #[inline(always)]
    fn age(&mut self)
        ensures { self.new ≡ port_after_event tick self.old }
    {
        let aged_out = self.table.tick();
        self.counters.count_aged_out(aged_out);
    }

    /// Applies an event to the table and the counters. Returns what the event means to the machine,
    /// and writes what a frame tells.
    #[inline(always)]
    fn apply<'a>(&mut self, event: &PortEvent<'a>, told: &mut Told<'a>) -> Cause
        requires { FitsLimit (port_event_of event.now) self.old.table }
        ensures after { self.new ≡ port_after_event (port_event_of event.now) self.old }
        ensures cause { result ≡ port_cause (port_event_of event.now) self.old }
        ensures told { told_of told.new
            ≡ port_told (port_event_of event.now) self.old (told_of told.old) }
    {
        match event {
            PortEvent::Tick => {
                self.age();
                Cause::Tick
            }
            PortEvent::Frame(octets) => self.receive(octets, told),
            PortEvent::Link(up) => cause_of_link_event(self.transmit.is_up(), *up),
            PortEvent::Status(given) => self.set_status(*given),
            PortEvent::Limit(neighbors) => {
                self.table.set_limit(*neighbors);
                Cause::Change
            }
            PortEvent::Change => Cause::Change,
        }
    }

    /// Sets the status. Purges the table if receiving ends. Returns what this means to the machine.
    fn set_status(&mut self, given: Status) -> Cause
        ensures after { self.new ≡ port_after_event (status given) self.old }
        ensures cause { result ≡ port_cause (status given) self.old }
    {
        let cause = cause_of_status(self.status.transmits(), given.transmits());
        if self.status.receives() && !given.receives() {
            self.table.purge();
        }
        self.status = given;
        cause
    }
}
