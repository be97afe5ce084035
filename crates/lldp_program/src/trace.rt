//! Runs an agent over a trace.
ghost use Rattle.std.specs.Prelude.{◌≡◌, ◌<◌, ◌≤◌, ◌+◌, ◌^◌, [], ◌∷◌, length, take, drop, replicate, IfOk, IfSome, IfNone};
ghost use Rattle.lldp_engine.specs.AgentState.{Allows, IsPort};
ghost use Rattle.lldp_text.specs.Answer.{on_ok};
ghost use Rattle.lldp_engine.specs.Event.{tick, frame, event_of};
ghost use Rattle.lldp_engine.specs.Past.{Past};
ghost use Rattle.lldp_engine.specs.Standing.{Stands};
ghost use Rattle.lldp_program.specs.declared.line.TheConstants.{FRAME_ROOM};
ghost use Rattle.lldp_program.specs.Faults.FaultNumber.{number_of_run_fault};
ghost use Rattle.lldp_program.specs.Trace.Work.{work_of, AllowsWork};
ghost use Rattle.lldp_program.specs.Trace.Items.{happens, items_of_work, items_of, items_of_lines};
ghost use Rattle.lldp_program.specs.Code.Parts.{RunsItems, Between};
ghost use Rattle.lldp_program.specs.Code.Plain.{EndsAt};
ghost use Rattle.lldp_program.specs.Trace.Runs.{EndsTold, HasRun, KeepsOn, read_failures_after, write_failures_after};
ghost use Rattle.lldp_program.specs.Ranges.{most_reads};
ghost use Rattle.lldp_program.specs.Code.Pieces.{pieces, unfinished, if_any};

use crate::buffer::{hold, read_more};
use crate::device::{DeviceFault, Sink, Source};
use crate::line::{FRAME_ROOM, LineFault, Work, frame_line, read_line};
use crate::output::Output;
use lldp_engine::{Agent, Command, Event, Marks};
use memchr::{memchr, memrchr};
use thiserror::Error;

const LF: u8 = b'\n';

/// The size of the buffer for the trace, in octets.
const BUFFER: usize = 16384;

/// The most reads that a run may make.
pub const MOST_READS: u32 = 4_294_967_295;

/// Why a run ended before the end of its trace.
#[derive(Clone, Copy, Debug, PartialEq, Eq, Error)]
pub enum RunFault {
    /// A read failed.
    #[error("lldpa: read failed")]
    Read = 1,
    /// A write failed.
    #[error("lldpa: write failed")]
    Write = 2,
    /// The trace did not end within 4,294,967,295 reads.
    #[error("lldpa: input too long")]
    InputTooLong = 3,
}

impl RunFault {
    /// Returns the number of the fault, 1 to 3.
    pub fn number(self) -> u8
        ensures { result ≡ number_of_run_fault self }
    {
        self as u8
    }
}

/// Applies an event that the agent allows, and writes the lines for what ports send.
fn run_event<W: Sink>(
    agent: &mut Agent,
    output: &mut Output<'_, W>,
    event: Event<'_>,
) -> Result<(), DeviceFault>
    requires { Allows agent.old (event_of event) }
    ensures { Between W.taken W.failures W.place output.old output.new
        (RunsItems (λ _. happens (event_of event.entry) ∷ []) result agent.old agent.new) }
{
    let mut marks = Marks::new();
    agent.step_told(event, &mut marks);
    output.write_marks(agent, &marks)
}

/// Applies this many ticks, and writes the lines for what ports send.
fn run_ticks<W: Sink>(
    agent: &mut Agent,
    output: &mut Output<'_, W>,
    ticks: u16,
) -> Result<(), DeviceFault>
    ensures { Between W.taken W.failures W.place output.old output.new
        (RunsItems (λ _. replicate ticks (happens tick)) result agent.old agent.new) }
{
    for _done in 0..ticks {
        run_event(agent, output, Event::Tick)?;
    }
    Ok(())
}

/// Does the work that was read from a line, or reports the line's fault.
fn run_work<W: Sink>(
    agent: &mut Agent,
    output: &mut Output<'_, W>,
    read: Result<Work<'_>, LineFault>,
) -> Result<(), DeviceFault>
    requires { IfOk read (λ work. AllowsWork agent.old (work_of work)) }
    ensures { Between W.taken W.failures W.place output.old output.new
        (RunsItems (λ _. items_of_work (on_ok work_of read.entry)) result agent.old agent.new) }
{
    match read {
        Ok(Work::Skip) => Ok(()),
        Ok(Work::Ticks(ticks)) => run_ticks(agent, output, ticks),
        Ok(Work::Frame { port, octets }) => {
            run_event(agent, output, Event::Frame { port, octets })
        }
        Ok(Work::Link { port, up }) => run_event(agent, output, Event::Link { port, up }),
        Ok(Work::Command(Command::Set(setting))) => run_event(agent, output, Event::Set(setting)),
        Ok(Work::Command(Command::Show(show))) => output.write_show(agent, show),
        Err(fault) => output.write_line(fault.text()),
    }
}

/// A run over a trace: its agent, the output for its text, and room for the octets of a frame.
#[derive(Drop)]
struct Run<'a, 'w, W> {
    agent: &'a mut Agent,
    output: Output<'w, W>,
    room: [u8; FRAME_ROOM],
}

impl<W: Sink> Run<'_, '_, W> {
    ghost use Rattle.lldp_program.specs.Code.Parts.{Performs};

    /// Does what the line asks for.
    fn line(&mut self, line: &[u8]) -> Result<(), DeviceFault>
        ensures { Performs W.taken W.failures W.place self.old self.new (λ past.
            items_of past line.now) result }
    {
        let read = read_line(self.agent, line, &mut self.room);
        run_work(self.agent, &mut self.output, read)
    }

    /// Receives a frame, whose octets are the first ones of the room.
    fn receive(&mut self, port: u8, count: usize) -> Result<(), DeviceFault>
        requires port { IsPort self.old.agent.now port }
        requires room { count ≤ FRAME_ROOM }
        ensures { Performs W.taken W.failures W.place self.old self.new
            (λ past. happens (frame port (take count self.old.room)) ∷ []) result }
    {
        let octets = &self.room[..count];
        run_event(self.agent, &mut self.output, Event::Frame { port, octets })
    }

    /// Does what the first line of `text` asks for, if its LF is among the first `held` octets.
    /// Returns where the LF is, or None if there is none.
    fn first(&mut self, text: &[u8], held: usize) -> Result<Option<usize>, DeviceFault>
        requires { held ≤ length text.now }
        ensures none { IfOk result (λ found. IfNone found (pieces (take held text.now) ≡ [])) }
        ensures ends { IfOk result (λ found. IfSome found (EndsAt (take held text.now))) }
        ensures run { Performs W.taken W.failures W.place self.old self.new
            (λ past. items_of_lines past (take 1 (pieces (take held text.now)))) result }
    {
        if let Some(line) = frame_line(self.agent, text, &mut self.room) {
            if line.end < held {
                self.receive(line.port, line.count)?;
                return Ok(Some(line.end));
            }
        }
        let Some(end) = memchr(LF, &text[..held]) else {
            return Ok(None);
        };
        self.line(&text[..end])?;
        Ok(Some(end))
    }

    /// Does what each line in the first `held` octets asks for, if the line ends with LF. The first
    /// `searched` octets have no LF. Returns where the unfinished line begins.
    fn lines(&mut self, buffer: &[u8], held: usize, searched: usize) -> Result<usize, DeviceFault>
        requires within { searched ≤ held }
        requires held { held ≤ length buffer.now }
        requires no_line { pieces (take searched (take held buffer.now)) ≡ [] }
        ensures rest { IfOk result (λ start. (start ≤ held)
            × (drop start (take held buffer.now) ≡ unfinished (take held buffer.now))) }
        ensures run { Performs W.taken W.failures W.place self.old self.new
            (λ past. items_of_lines past (pieces (take held buffer.now))) result }
    {
        // What follows the last LF is not decoded before its line has ended.
        let Some(last) = memrchr(LF, &buffer[searched..held]) else {
            return Ok(0);
        };
        let mut start = 0;
        'ended: while start <= searched + last {
            let Some(end) = self.first(&buffer[start..], held - start)? else {
                return Ok(start);
            };
            start += end + 1;
        }
        Ok(start)
    }

    /// Does what the last line asks for, if it is not empty.
    fn rest(&mut self, rest: &[u8]) -> Result<(), DeviceFault>
        ensures { Performs W.taken W.failures W.place self.old self.new
            (λ past. items_of_lines past (if_any rest.now)) result }
    {
        if rest.is_empty() {
            return Ok(());
        }
        self.line(rest)
    }
}

/// Runs a trace over the agent. Reads the trace to its end, does what each line asks for as soon as
/// its LF was read, and writes the answers, however the octets are split over reads. Does not
/// flush. The first failed read or write ends the run. A last line without LF is a line too. A line
/// over 4,096 octets is refused, and does nothing.
///
/// For every past that led to the agent's state: Ok means that the end was reached, the text of the
/// trace was written, and the agent has the state after the past and the events of the input. Read
/// and InputTooLong mean that each line whose LF was read was done, and nothing else was written.
/// Write means that the agent has the state after the item whose output failed; the text of the
/// items before that item was written, and only a part of its own text. In each case `Promised`
/// holds for the agent. What was read, whether the end was reached, and the number of octets do not
/// depend on a past. `headline` holds for all devices, even those that report no octets.
///
/// A run reads at most 4,294,967,295 times. If it returns InputTooLong, and the source was read
/// fewer than 2^63 times before, it has made exactly this many reads, and read at least this many
/// octets. The count of failed reads rises by one exactly if the answer is Read, that of failed
/// writes exactly if it is Write; a count stops at 2^64 - 1. With Ok one read returned the end,
/// with Read and InputTooLong none did. The devices are still those that the caller passed.
///
/// A run allocates no memory: neither this function nor any function that it calls has an
/// allocator, and the buffers have fixed sizes: 16,384 octets for reading, 8,192 for writing, 2,048
/// for a received frame, 1,514 for a sent one.
pub fn run_trace<S: Source, W: Sink>(
    agent: &mut Agent,
    reader: &mut S,
    writer: &mut W,
) -> Result<(), RunFault>
    // What was read, what was written, and the state of the agent after the run.
    ensures run { HasRun (S.to_come reader.old) (S.to_come reader.new)
        (W.taken writer.old) (W.taken writer.new) agent.old agent.new result }
    // For all devices, even those that report no octets: the agent has the state after its past and
    // more events. Each table holds the last stored frames that have not expired. Each port has
    // sent exactly what was due while its credit window was open. It never sent or stopped more
    // often than it may. No other choice would have sent more frames up to any event.
    ensures headline { (past : Past) → Stands past agent.old → KeepsOn past agent.new }
    // The answer is Read exactly if a read failed, and Write exactly if a write failed. Only that
    // call failed, and it was the last. With Ok or InputTooLong no device failed.
    ensures reads { S.failures reader.new ≡ read_failures_after (S.failures reader.old) result }
    ensures writes { W.failures writer.new ≡ write_failures_after (W.failures writer.old) result }
    // Ok: the last read returned the end. Read and InputTooLong: no read returned the end.
    ensures ends { EndsTold (S.ends reader.old) (S.ends reader.new) result }
    // The devices are still those that the caller passed.
    ensures places { (S.place reader.new ≡ S.place reader.old)
        × (W.place writer.new ≡ W.place writer.old) }
    ensures calls { S.calls reader.new ≤ S.calls reader.old + most_reads }
    ensures too_long { result ≡ Err RunFault.InputTooLong → S.calls reader.old < 2 ^ 63 →
        S.calls reader.new ≡ S.calls reader.old + most_reads }
{
    let mut run = Run {
        agent,
        output: Output::new(writer),
        room: [0u8; FRAME_ROOM],
    };
    let mut buffer = [0u8; BUFFER];
    let mut held = 0;
    for reads in 0..MOST_READS {
        let Ok(n) = read_more(reader, &mut buffer, held) else {
            return Err(RunFault::Read);
        };
        if n == 0 {
            return match run.rest(&buffer[..held]) {
                Ok(()) => Ok(()),
                Err(_) => Err(RunFault::Write),
            };
        }
        let end = held + n;
        let Ok(start) = run.lines(&buffer, end, held) else {
            return Err(RunFault::Write);
        };
        held = hold(&mut buffer, start, end);
    }
    Err(RunFault::InputTooLong)
}
