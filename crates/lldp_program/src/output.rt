//! Buffers text for a sink, and writes it in large pieces.
ghost use Rattle.std.specs.Prelude.{◌≡◌, ◌≤◌, ◌<◌, ◌+◌, ◌*◌, [], length, OnOk};
ghost use Rattle.std.specs.List.{flat_map, AllByRecursion};
ghost use Rattle.lldp_engine.specs.AgentState.{names_of, IsPort};
ghost use Rattle.lldp_engine.specs.Frames.{IsSent};
ghost use Rattle.lldp_engine.specs.Lines.{lines_of};
ghost use Rattle.lldp_pdu.specs.declared.limits.TheConstants.{MOST_FRAME};
ghost use Rattle.lldp_text.specs.declared.writing.TheConstants.{LINE_ROOM, ROOM};
ghost use Rattle.lldp_program.specs.Devices.Counts.{failures_after};
ghost use Rattle.lldp_program.specs.Trace.Lines.{ended};
ghost use Rattle.lldp_program.specs.Code.Output.{WrittenBy, Puts, Flushes, Writes, begun, sent_line};
ghost use Rattle.lldp_program.specs.Trace.Sent.{mark_line};
ghost use Rattle.lldp_program.specs.Code.Parts.{output_state, Between};
ghost use Rattle.lldp_engine.specs.Ranges.{most_name};

use crate::device::{DeviceFault, Sink};
use lldp_engine::{Agent, Frame, LINE_ROOM, LineSink, Marks, Show, Writer};
use std::fmt;

/// Writes all of the octets.
pub fn send<W: Sink>(sink: &mut W, octets: &[u8]) -> Result<(), DeviceFault>
    ensures written { WrittenBy result octets.now (W.taken sink.old) (W.taken sink.new) }
    ensures failures { W.failures sink.new ≡ failures_after (W.failures sink.old) result }
    ensures place { W.place sink.new ≡ W.place sink.old }
{
    let mut sent = 0;
    while sent < octets.len() {
        sent += sink.write(&octets[sent..])?;
    }
    Ok(())
}

/// Writes text to a borrowed sink.
#[derive(Drop)]
pub(crate) struct SinkText<'a, W> {
    pub(crate) sink: &'a mut W,
}

impl<W: Sink> fmt::Write for SinkText<'_, W> {
    fn write_str(&mut self, text: &str) -> fmt::Result {
        send(self.sink, text.as_bytes()).map_err(|_| fmt::Error)
    }
}

/// Writes text to a borrowed sink through a buffer. The end of each text flushes the buffer.
#[derive(Drop)]
pub struct Output<'w, W> {
    sink: &'w mut W,
    waiting: Writer,
    answer: Result<(), DeviceFault>,
}

impl<'w, W: Sink> Output<'w, W> {
    /// Returns an output to this sink, with an empty buffer.
    pub fn new(sink: &'w mut W) -> Self
        ensures taken { W.taken result.sink.now ≡ W.taken sink.old }
        ensures failures { W.failures result.sink.now ≡ W.failures sink.old }
        ensures place { W.place result.sink.now ≡ W.place sink.old }
        ensures sink { result.sink.ghost_name ≡ sink.entry.ghost_name }
    {
        Output {
            sink,
            waiting: Writer::new(),
            answer: Ok(()),
        }
    }
}

impl<W: Sink> Output<'_, W> {
    /// Begins a text. Clears the buffer of what a failed write left there.
    fn begin(&mut self)
        ensures { output_state W.taken W.failures W.place self.new
            ≡ begun (output_state W.taken W.failures W.place self.old) }
    {
        self.waiting.clear();
        self.answer = Ok(());
    }

    /// Writes the buffer to the sink, unless a write has failed.
    fn flush(&mut self)
        ensures { Between W.taken W.failures W.place self.old self.new Flushes }
    {
        if self.answer.is_ok() {
            self.answer = send(self.sink, self.waiting.as_slice());
            self.waiting.clear();
        }
    }

    /// Writes the buffer to the sink if it has no room for this many more octets.
    fn make_room(&mut self, octets: usize)
        requires { octets ≤ ROOM }
        ensures puts { Between W.taken W.failures W.place self.old self.new (Puts []) }
        ensures room { OnOk self.new.answer (length self.new.waiting + octets ≤ ROOM) }
    {
        if self.waiting.room_left() < octets {
            self.flush();
        }
    }

    /// Ends a text: writes the buffer to the sink, and returns whether all writes succeeded.
    fn end(&mut self) -> Result<(), DeviceFault>
        ensures flushed { Between W.taken W.failures W.place self.old self.new Flushes }
        ensures answer { result ≡ self.new.answer }
    {
        self.flush();
        self.answer
    }

    /// Appends to the buffer the line for a frame that a port sends.
    fn put_frame(&mut self, name: &[u8], frame: &[u8])
        requires name { length name.now ≤ most_name }
        requires frame { length frame.now ≤ MOST_FRAME }
        ensures { Between W.taken W.failures W.place self.old self.new
            (Puts (sent_line name.now frame.now)) }
    {
        self.make_room(name.len() + 2 * frame.len() + 5);
        if self.answer.is_ok() {
            self.waiting.text(b"tx ");
            self.waiting.text(name);
            self.waiting.text(b" ");
            self.waiting.hex(frame);
            self.waiting.end_line();
        }
    }

    /// Appends to the buffer the lines for the frames that ports send.
    fn put_frames(&mut self, agent: &Agent, marks: &Marks)
        requires { AllByRecursion (λ mark. IsPort agent.now mark.0
            × IsSent mark.1) marks.now.items }
        ensures { Between W.taken W.failures W.place self.old self.new
            (Puts (flat_map (mark_line (names_of agent.now) agent.now.configuration)
            marks.now.items)) }
    {
        let mut frame = Frame::new();
        for (port, mark) in marks.as_slice() {
            agent.write_frame(*port, *mark, &mut frame);
            self.put_frame(agent.port_name(*port), frame.as_slice());
        }
    }

    /// Appends a line and its LF to the buffer.
    fn put_line(&mut self, line: &[u8])
        requires { length line.now < LINE_ROOM }
        ensures { Between W.taken W.failures W.place self.old self.new (Puts (ended line.now)) }
    {
        let Some(text) = self.begin_line() else {
            return;
        };
        text.text(line);
        text.end_line();
    }

    /// Writes a line and its LF.
    pub fn write_line(&mut self, line: &[u8]) -> Result<(), DeviceFault>
        requires { length line.now < LINE_ROOM }
        ensures { Between W.taken W.failures W.place self.old self.new
            (Writes (ended line.now) result) }
    {
        self.begin();
        self.put_line(line);
        self.end()
    }

    /// Writes the lines of a show.
    pub fn write_show(&mut self, agent: &Agent, show: Show) -> Result<(), DeviceFault>
        ensures { Between W.taken W.failures W.place self.old self.new
            (Writes (flat_map ended (lines_of show agent.now)) result) }
    {
        self.begin();
        agent.show_lines(&show, self);
        self.end()
    }

    /// Writes the lines for the frames that ports send.
    pub fn write_marks(&mut self, agent: &Agent, marks: &Marks) -> Result<(), DeviceFault>
        requires { AllByRecursion (λ mark. IsPort agent.now mark.0
            × IsSent mark.1) marks.now.items }
        ensures { Between W.taken W.failures W.place self.old self.new
            (Writes (flat_map (mark_line (names_of agent.now) agent.now.configuration)
            marks.now.items) result) }
    {
        // At most events no port sends, so there is nothing to write.
        if marks.is_empty() {
            return Ok(());
        }
        self.begin();
        self.put_frames(agent, marks);
        self.end()
    }
}

impl<W: Sink> LineSink for Output<'_, W> {
    ghost takes = { λ old new line.
        Between W.taken W.failures W.place old new (Puts (ended line)) };

    /// Lends the buffer for the next line. Returns None if a write has failed.
    fn begin_line(&mut self) -> Option<&mut Writer> {
        self.make_room(LINE_ROOM);
        if self.answer.is_err() {
            return None;
        }
        Some(&mut self.waiting)
    }

    fn is_done(&self) -> bool {
        self.answer.is_err()
    }
}
