//! The LLDP agent: its configuration and its ports.
ghost use Rattle.std.specs.Prelude.{◌≡◌, ℕ, ◌<◌, ◌≤◌, length, map, None, Some, IfOk, IfErr, IfSome, IsTrue, ◌↔◌, slice_get};
ghost use Rattle.std.specs.List.{AllByRecursion};
ghost use Rattle.std.specs.Option.{option_map};
ghost use Rattle.lldp_table.specs.Standing.{Stands as TableStands};
ghost use Rattle.lldp_transmit.specs.Standing.{machine_of};
ghost use Rattle.lldp_engine.specs.Code.Cursor.{IsCursorOf};
ghost use Rattle.lldp_engine.specs.Options.{options_of, InRange, IsRefusal, fault_of};
ghost use Rattle.lldp_engine.specs.Event.{event_of};
ghost use Rattle.lldp_engine.specs.AgentState.{names_of, name_of, IsPort, Allows};
ghost use Rattle.lldp_engine.specs.Configuration.{configured};
ghost use Rattle.lldp_engine.specs.Place.{place_of};
ghost use Rattle.lldp_engine.specs.Past.{Past, opened, with_event, past_of, marks_of, configuration_after};
ghost use Rattle.lldp_engine.specs.Port.Past.{port_after, status_after, up_after, calls_after, counters_after, settings_of, causes_after};
ghost use Rattle.lldp_engine.specs.Frames.{IsSent};
ghost use Rattle.lldp_engine.specs.Sound.{AreSound};
ghost use Rattle.lldp_engine.specs.Standing.{Stands};
ghost use Rattle.lldp_engine.specs.Code.Step.{agent_after, agent_marks};
ghost use Rattle.lldp_engine.specs.Code.Telling.{agent_told};
ghost use Rattle.lldp_engine.specs.Told.{told_of, Tells};
ghost use Rattle.lldp_engine.specs.Headline.{PromisedStep};
ghost use Rattle.lldp_engine.specs.Sending.{HaveSentExactly};
ghost use Rattle.lldp_engine.specs.Ranges.{most_name, most_ports};

pub(crate) mod configuration;
pub(crate) mod event;
pub(crate) mod frame;
pub(crate) mod open_fault;
pub(crate) mod options;
pub(crate) mod port_names;
pub(crate) mod ports;
pub(crate) mod told;

use crate::agent::configuration::Configuration;
use crate::agent::event::{Event, Setting};
use crate::agent::open_fault::OpenFault;
use crate::agent::options::Options;
use crate::agent::ports::{Marks, all_fit, find_place, open_ports, take_event};
use crate::agent::told::Told;
use crate::command::Show;
use crate::port::Port;
use crate::port::counters::Counters;
use crate::port::status::Status;
use crate::show::cursor::{Cursor, seek};
use lldp_table::{Room, Table};
use lldp_transmit::Transmit;
use std::alloc::{Allocator, Global};
use std::marker::Model;

/// An LLDP agent with 1 to 64 ports. Only `open` allocates memory. Its past is its options and all
/// events. It *stands for* its past: the definitions compute the agent from the past (`Stands`).
#[derive(Drop)]
pub struct Agent<A: Allocator = Global> {
    configuration: Configuration,
    ports: Room<Port<A>, A>,
    /// Where the last page of `show neighbors` began. An event resets it.
    cursor: Cursor,
}

impl<A: Allocator> Model for Agent<A> {
    ghost use Rattle.lldp_engine.specs.AgentState.{AgentState};

    ghost Value = { AgentState };

    ghost use Rattle.lldp_engine.specs.Sound.{AreSound};
    ghost use Rattle.lldp_engine.specs.Code.Cursor.{IsCursor};

    ghost view = { λ a. record { configuration = a.configuration; ports = a.ports.items } };

    ghost invariant = { λ a. AreSound a.configuration.capacity a.ports.items
        × IsCursor a.ports.items a.cursor };
}

impl<A: Allocator> Agent<A> {
    /// Opens an agent. Its past is these options and no events. The four numbers must be in their
    /// ranges (`Options::in_range`).
    ///
    /// The options are checked first. Each check is over the whole list of ports. NoPorts,
    /// TooManyPorts, PortName, SamePort or Text names the first check that fails, in this order.
    /// Memory for all neighbors is allocated next, and no memory later. Memory is the fault only if
    /// no check failed.
    pub fn open(alloc: A, options: &Options<'_>) -> Result<Self, OpenFault>
    where
        A: Clone,
        requires { InRange (options_of options.now) }
        ensures checked { IfOk result (λ _. fault_of (options_of options.now) ≡ None) }
        ensures opened { IfOk result (λ agent. Stands (opened (options_of options.now)) agent) }
        ensures refused { IfErr result (λ fault. IsRefusal (options_of options.now) fault) }
    {
        if let Some(fault) = options.first_fault() {
            return Err(fault);
        }
        let ports = open_ports(alloc, options)?;
        Ok(Agent {
            configuration: Configuration::open(options),
            ports,
            cursor: Cursor::START,
        })
    }

    /// Returns the configuration: each part as last set by a command, or else as at opening.
    pub fn configuration(&self) -> &Configuration
        ensures value { result.now ≡ self.now.configuration }
        ensures past { (past : Past) → Stands past self.now →
            result.now ≡ configuration_after past.options past.events }
    {
        &self.configuration
    }

    /// Returns a cursor that is not behind line `from` of a show. The agent keeps it, so that the
    /// cursor of the next page is found from there (no clause states this).
    pub(crate) fn cursor(&mut self, show: &Show, from: u32) -> Cursor
        ensures same { self.new ≡ self.old }
        ensures cursor { IsCursorOf show.now self.new result }
        ensures before { result.before ≤ from }
    {
        match show {
            Show::Neighbors => {
                seek(self.ports.as_slice(), &mut self.cursor, from);
                self.cursor
            }
            Show::Statistics | Show::Chassis | Show::Configuration => Cursor::START,
        }
    }

    pub(crate) fn all_ports(&self) -> &[Port<A>]
        ensures value { result.now ≡ self.now.ports }
        ensures sound { AreSound self.now.configuration.capacity self.now.ports }
    {
        self.ports.as_slice()
    }

    fn port(&self, port: u8) -> &Port<A>
        requires { IsPort self.now port }
        ensures value { slice_get self.now.ports port ≡ Some result.now }
        ensures some { 0 < length result.now.name }
        ensures named { (past : Past) → Stands past self.now →
            slice_get past.options.names port ≡ Some result.now.name }
        ensures past { (past : Past) → Stands past self.now →
            result.now ≡ port_after past.options (past_of past port) result.now.name }
    {
        self.ports.at(port as usize)
    }

    /// Returns the number of ports that the options named, at most 64.
    pub fn ports(&self) -> u8
        ensures value { result ≡ length self.now.ports }
        ensures few { result ≤ most_ports }
        ensures past { (past : Past) → Stands past self.now → result ≡ length past.options.names }
    {
        self.ports.len() as u8
    }

    /// Returns the name of a port, 1 to 15 octets, as the options gave it.
    pub fn port_name(&self, port: u8) -> &[u8]
        requires { IsPort self.now port }
        ensures value { slice_get (names_of self.now) port ≡ Some result.now }
        ensures name { result.now ≡ name_of self.now port }
        ensures some { 0 < length result.now }
        ensures short { length result.now ≤ most_name }
        ensures past { (past : Past) → Stands past self.now →
            slice_get past.options.names port ≡ Some result.now }
    {
        self.port(port).name()
    }

    /// Returns the number of the port with this name, from 0, or None if no port has it.
    #[inline(always)]
    pub fn find_port(&self, name: &[u8]) -> Option<u8>
        ensures place { result ≡ place_of (names_of self.now) name.now }
        ensures exists { IfSome result (λ port. IsPort self.now port) }
        ensures past { (past : Past) → Stands past self.now →
            result ≡ place_of past.options.names name.now }
    {
        find_place(self.ports.as_slice(), name)
    }

    /// Returns the status of a port: as last set by a status command, or else as at opening.
    pub fn status(&self, port: u8) -> Status
        requires { IsPort self.now port }
        ensures value { option_map (λ p. p.status) (slice_get self.now.ports port) ≡ Some result }
        ensures past { (past : Past) → Stands past self.now →
            result ≡ status_after past.options (past_of past port) }
    {
        self.port(port).status()
    }

    /// Returns whether the last link event of a port says up, or true if the port had none.
    pub fn is_up(&self, port: u8) -> bool
        requires { IsPort self.now port }
        ensures value { option_map (λ p. p.machine.up) (slice_get self.now.ports port)
            ≡ Some result }
        ensures past { (past : Past) → Stands past self.now →
            result ≡ up_after (past_of past port) }
    {
        self.port(port).is_up()
    }

    /// Returns the neighbor table of a port after the events so far.
    pub fn table(&self, port: u8) -> &Table<A>
        requires { IsPort self.now port }
        ensures value { option_map (λ p. p.table) (slice_get self.now.ports port)
            ≡ Some result.now.shown }
        ensures past { (past : Past) → Stands past self.now →
            TableStands past.options.max_neighbors
            (calls_after past.options (past_of past port)) result.now.shown }
    {
        self.port(port).table()
    }

    /// Returns the transmit machine of a port after the events so far.
    pub fn machine(&self, port: u8) -> &Transmit
        requires { IsPort self.now port }
        ensures value { option_map (λ p. p.machine) (slice_get self.now.ports port)
            ≡ Some result.now }
        ensures past { (past : Past) → Stands past self.now →
            result.now ≡ machine_of (settings_of past.options)
            (causes_after past.options (past_of past port)) }
    {
        self.port(port).machine()
    }

    /// Returns the counters of a port over all its events so far, modulo 2^32.
    pub fn counters(&self, port: u8) -> &Counters
        requires { IsPort self.now port }
        ensures value { option_map (λ p. p.counters) (slice_get self.now.ports port)
            ≡ Some result.now }
        ensures past { (past : Past) → Stands past self.now →
            result.now ≡ counters_after past.options (past_of past port) }
    {
        self.port(port).counters()
    }

    /// Returns whether the agent accepts the event: its port exists, its number is in range, its
    /// text has at most 255 octets, all printable, and no port has more neighbors than a new limit.
    pub fn allows(&self, event: &Event<'_>) -> bool
        ensures { IsTrue result ↔ Allows self.now (event_of event.now) }
    {
        match event {
            Event::Tick => true,
            Event::Frame { port, .. } | Event::Link { port, .. } => *port < self.ports(),
            Event::Set(setting) => self.allows_setting(setting),
        }
    }

    fn allows_setting(&self, setting: &Setting<'_>) -> bool
        ensures { IsTrue result ↔ Allows self.now (event_of (Event.Set setting.now)) }
    {
        match setting {
            Setting::Limit(neighbors) => self.allows_limit(*neighbors),
            Setting::Status { port, .. } => *port < self.ports(),
            _ => setting.in_range(),
        }
    }

    fn allows_limit(&self, neighbors: u8) -> bool
        ensures { IsTrue result ↔ Allows self.now (event_of (Event.Set (Setting.Limit neighbors))) }
    {
        1 <= neighbors
            && neighbors <= self.configuration.capacity()
            && all_fit(self.ports.as_slice(), neighbors)
    }

    /// Applies an event that `allows` accepts. Returns the ports that send, in ascending order,
    /// each with what it sends. Does not fail and allocates no memory.
    ///
    /// The past of the agent is now its earlier past with this event added. The ports returned are
    /// exactly those that send according to the definitions, and the headline of docs/CLAIMS.md
    /// holds (`PromisedStep`).
    pub fn step(&mut self, event: Event<'_>) -> Marks
        requires { Allows self.old (event_of event) }
        // The agent after the event, and the ports that send, computed from the agent before it.
        ensures after { self.new ≡ agent_after (event_of event.entry) self.old }
        ensures marks { result.items ≡ agent_marks (event_of event.entry) self.old }
        ensures sent { AllByRecursion (λ mark. IsPort self.new mark.0
            × IsSent mark.1) result.items }
        // The past of the agent is now its earlier past with this event added (`Stands`).
        ensures stands { (past : Past) → Stands past self.old →
            Stands (with_event past (event_of event.entry)) self.new }
        ensures marks_past { (past : Past) → Stands past self.old →
            result.items ≡ marks_of (with_event past (event_of event.entry)) }
        // Each table holds the last stored frames that have not expired. A port sends an ordinary
        // frame exactly if one is due and its credit window is open.
        ensures headline { (past : Past) → Stands past self.old →
            PromisedStep past (event_of event.entry) result.items self.new }
        // Each port has sent exactly this at all events. So no run of events has more frames than
        // the greatest credit plus the ticks after its first event, stops are few, and no other
        // choice of events to send at, each with a frame due and the window open, has sent more
        // frames up to any event.
        ensures sending { (past : Past) → Stands past self.old →
            HaveSentExactly (with_event past (event_of event.entry)) }
    {
        let mut marks = Marks::new();
        self.step_told(event, &mut marks);
        marks
    }

    /// Does the same as `step`, and writes the ports that send in place of what `marks` held.
    /// Returns what a received frame did: which neighbor it named, and whether that neighbor is
    /// new, changed, repeated, dropped or gone, or the fault for which the LLDPDU was refused. Any
    /// other event tells nothing.
    pub fn step_told<'a>(&mut self, event: Event<'a>, marks: &mut Marks) -> Told<'a>
        requires { Allows self.old (event_of event) }
        ensures after { self.new ≡ agent_after (event_of event.entry) self.old }
        ensures marks { marks.new.items ≡ agent_marks (event_of event.entry) self.old }
        // What is told, computed from the agent before the event; and how it agrees with the table
        // of the frame's port before and after it.
        ensures told { told_of result ≡ agent_told (event_of event.entry) self.old }
        ensures tells { Tells (event_of event.entry) self.old self.new (told_of result) }
        ensures sent { AllByRecursion (λ mark. IsPort self.new mark.0
            × IsSent mark.1) marks.new.items }
        ensures stands { (past : Past) → Stands past self.old →
            Stands (with_event past (event_of event.entry)) self.new }
        ensures marks_past { (past : Past) → Stands past self.old →
            marks.new.items ≡ marks_of (with_event past (event_of event.entry)) }
        ensures headline { (past : Past) → Stands past self.old →
            PromisedStep past (event_of event.entry) marks.new.items self.new }
        ensures sending { (past : Past) → Stands past self.old →
            HaveSentExactly (with_event past (event_of event.entry)) }
    {
        self.cursor = Cursor::START;
        self.configuration.take(&event);
        let interval = self.configuration.interval();
        take_event(self.ports.as_mut_slice(), &event.whose(), interval, marks)
    }
}
