//! Writes lines of a show, as many as fit in the caller's buffer.
ghost use Rattle.std.specs.Prelude.{◌≡◌, ◌+◌, ◌≤◌, ◌<◌, ◌++◌, true, false, max, length, take, drop, IfSome, IfNone};
ghost use Rattle.lldp_engine.specs.Lines.{lines_of};
ghost use Rattle.lldpa_c.specs.Place.{KeepsRest};
ghost use Rattle.lldpa_c.specs.Frame.{Keeps};
ghost use Rattle.lldpa_c.specs.Answer.{answer_of};
ghost use Rattle.lldpa_c.specs.Command.{show_numbered};
ghost use Rattle.lldpa_c.specs.Filled.{Fills, IsFull, Filled, lines_checks};
ghost use Rattle.lldpa_c.specs.Filling.{view, settled, begun, come_all, TakesLine, LeavesRest};

use crate::answer::{NO_ROOM, NOT_OPEN, OK, OUT_OF_RANGE};
use crate::holder::LldpaAgent;
use lldp_engine::{Agent, LineSink, Show, Writer};
use std::alloc::Global;

/// The part of a show that was written.
#[repr(C)]
#[derive(Clone, Copy)]
pub struct LldpaLines {
    /// How many octets were written, including a line feed after each line.
    pub length: usize,
    /// The number of the line to continue with, from 0.
    pub next: u32,
    /// True if no line is left.
    pub done: bool,
}

/// Returns the show with this number, if there is one.
fn show_numbered(number: u32) -> Option<Show>
    ensures { result ≡ show_numbered number }
{
    match number {
        1 => Some(Show::Neighbors),
        2 => Some(Show::Statistics),
        3 => Some(Show::Chassis),
        4 => Some(Show::Configuration),
        _ => None,
    }
}

/// Copies a text after the used octets of the buffer. Returns its end, or None if it does not fit.
fn append(room: &mut [u8], used: usize, text: &[u8]) -> Option<usize>
    ensures end { IfSome result (λ end. end ≡ used + length text.now) }
    ensures within { IfSome result (λ end. end ≤ length room.new) }
    ensures octets { IfSome result (λ end. take end room.new ≡ take used room.old ++ text.now) }
    ensures rest { IfSome result (λ end. drop end room.new ≡ drop end room.old) }
    ensures none { IfNone result (length room.new < used + length text.now) }
    ensures kept { IfNone result (room.new ≡ room.old) }
    ensures size { length room.new ≡ length room.old }
{
    if used > room.len() || text.len() > room.len() - used {
        return None;
    }
    let end = used + text.len();
    room[used..end].copy_from_slice(text);
    Some(end)
}

/// Copies the lines of a show to the caller's buffer. Each line is first written to `line`, and is
/// copied when the next line begins or the show ends, if it fits.
#[derive(Drop)]
struct Filling<'a> {
    room: &'a mut [u8],
    used: usize,
    next: u32,
    is_full: bool,
    is_waiting: bool,
    line: Writer,
}

impl<'a> Filling<'a> {
    /// Returns a state in which nothing is written. The next line is line `from`.
    fn new(room: &'a mut [u8], from: u32) -> Filling<'a>
        ensures room { result.room.now ≡ room.old }
        ensures same { result.room.ghost_name ≡ room.entry.ghost_name }
        ensures view { view result ≡ begun from }
        ensures unused { result.used ≡ 0 }
    {
        Filling {
            room,
            used: 0,
            next: from,
            is_full: false,
            is_waiting: false,
            line: Writer::new(),
        }
    }

    /// Copies `line` to the buffer, if a line waits there and fits.
    fn settle(&mut self)
        ensures moved { settled self.new ≡ view self.old }
        ensures rest { LeavesRest self.old self.new }
        ensures none_waits { self.new.is_waiting ≡ false }
        ensures size { length self.new.room.now ≡ length self.old.room.now }
        ensures same { self.new.room.ghost_name ≡ self.old.room.ghost_name }
    {
        let used = self.used;
        if self.is_waiting && !self.is_full {
            match append(self.room, used, self.line.as_slice()) {
                Some(end) => {
                    self.used = end;
                    // This never wraps, since a show has far fewer lines than 2^32.
                    self.next = self.next.wrapping_add(1);
                }
                None => self.is_full = true,
            }
        }
        self.is_waiting = false;
    }

    /// Copies the lines of a show from line `from` on, as many as fit.
    fn take(&mut self, agent: &mut Agent, show: Show, from: u32)
        ensures agent { agent.new ≡ agent.old }
        ensures lines { settled self.new ≡ come_all (length self.old.room.now) (view self.old)
            (drop from (lines_of show agent.old)) }
        ensures rest { LeavesRest self.old self.new }
        ensures few { length (lines_of show agent.old) ≤ 6127808 }
        ensures size { length self.new.room.now ≡ length self.old.room.now }
        ensures same { self.new.room.ghost_name ≡ self.old.room.ghost_name }
    {
        agent.show_from(&show, from, self);
        self.settle();
    }
}

impl LineSink for Filling<'_> {
    ghost takes = { TakesLine };

    fn begin_line(&mut self) -> Option<&mut Writer> {
        self.settle();
        if self.is_full {
            return None;
        }
        self.is_waiting = true;
        self.line.clear();
        Some(&mut self.line)
    }

    fn is_done(&self) -> bool {
        self.is_full
    }
}

/// Writes lines of a show, beginning with line `from`: as many whole lines as fit.
// Not inlined: this function's stack frame exceeds a page. When it was inlined, LLVM moved a branch
// of the caller before the loop that probes pages. The loop overwrote a register of that branch.
#[inline(never)]
fn fill(agent: &mut Agent, show: Show, from: u32, room: &mut [u8]) -> LldpaLines
    ensures same { agent.new ≡ agent.old }
    ensures within { result.length ≤ length room.new }
    ensures octets { Fills (lines_of show agent.old) from result.next
        (take result.length room.new) }
    ensures rest { drop result.length room.new ≡ drop result.length room.old }
    ensures done { result.done ≡ true → result.next ≡ max from (length (lines_of show agent.old)) }
    ensures full { result.done ≡ false →
        IsFull (lines_of show agent.old) result.next (length room.new) result.length }
{
    let mut filling = Filling::new(room, from);
    filling.take(agent, show, from);
    LldpaLines {
        length: filling.used,
        next: filling.next,
        done: !filling.is_full,
    }
}

/// Writes lines of a show, beginning with line `from`: as many whole lines as fit in the buffer.
#[unsafe(no_mangle)]
pub extern "C" fn lldpa_show_lines(
    alloc: Global,
    agent: &mut LldpaAgent,
    show: u32,
    from: u32,
    room: &mut [u8],
    told: &mut LldpaLines,
) -> u8
    ensures filled { result ≡ 0 → Filled agent.old.held.agent show from told.new room.new }
    ensures rest { result ≡ 0 → KeepsRest told.new.length room.old room.new }
    ensures answer { result ≡ answer_of (lines_checks agent.old show from (length room.old)) }
    ensures kept { Keeps agent.old agent.new }
    ensures refused { ¬ (result ≡ 0) → (room.new ≡ room.old) × (told.new ≡ told.old) }
{
    let Some(show) = show_numbered(show) else {
        return OUT_OF_RANGE;
    };
    let Some(mut held) = agent.take(alloc) else {
        return NOT_OPEN;
    };
    let lines = fill(&mut held, show, from, room);
    agent.put(held);
    if lines.next == from && !lines.done {
        return NO_ROOM;
    }
    *told = lines;
    OK
}
