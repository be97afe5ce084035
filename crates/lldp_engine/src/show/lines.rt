//! The lines of show commands.
ghost use Rattle.std.specs.Prelude.{◌≡◌, ◌<◌, ◌≤◌, ℕ, List, drop, length, IsSome, slice_get};
ghost use Rattle.std.specs.Option.{option_map};
ghost use Rattle.lldp_engine.specs.Lines.{lines_of};
ghost use Rattle.lldp_engine.specs.Code.Cursor.{IsCursorOf};
ghost use Rattle.lldp_engine.specs.Past.{Past, agent_of};
ghost use Rattle.lldp_engine.specs.Standing.{Stands};
ghost use Rattle.lldp_engine.specs.Takes.{Takes};
ghost use Rattle.lldp_engine.specs.Code.OneLineState.{line_kept};
ghost use Rattle.lldp_text.specs.declared.writing.TheConstants.{LINE_ROOM};

use crate::agent::Agent;
use crate::agent::options::{MOST_NEIGHBORS, MOST_PORTS};
use crate::command::Show;
use crate::show::chassis_lines::put_chassis;
use crate::show::configuration_lines::put_configuration;
use crate::show::cursor::Cursor;
use crate::show::line::LineSink;
use crate::show::neighbor_lines::{put_from, put_neighbors};
use crate::show::one_line::OneLine;
use crate::show::skip_lines::SkipLines;
use crate::show::statistics_lines::put_statistics;
use lldp_text::Line;
use std::alloc::Allocator;

/// The most lines that a show can have: 3 for each of 64 ports, 4 for each of the 128 neighbors of
/// a port, and 1 for each of the 744 kept TLVs of a neighbor. The mandatory TLVs take at least 12
/// of the 1,500 octets of a neighbor, and a kept TLV at least 2.
pub const MOST_LINES: u32 = MOST_PORTS as u32 * (3 + MOST_NEIGHBORS as u32 * (4 + 744));

impl<A: Allocator> Agent<A> {
    /// Writes exactly the lines of a show to a sink, in order: at most `MOST_LINES` (6,127,808)
    /// whole lines of at most 2,048 octets each. Allocates no memory. If the sink is done, for
    /// instance after a failed write, the remaining ports and neighbors are skipped (no clause
    /// states this).
    pub fn show_lines<S: LineSink>(&self, show: &Show, sink: &mut S)
        ensures value { Takes S.takes sink.old sink.new (lines_of show.now self.now) }
        ensures few { length (lines_of show.now self.now) ≤ MOST_LINES }
        ensures past { (past : Past) → Stands past self.now →
            Takes S.takes sink.old sink.new (lines_of show.now (agent_of past)) }
    {
        let configuration = self.configuration();
        let ports = self.all_ports();
        match show {
            Show::Neighbors => put_neighbors(sink, ports),
            Show::Statistics => put_statistics(sink, ports),
            Show::Chassis => put_chassis(sink, configuration),
            Show::Configuration => put_configuration(sink, configuration, ports),
        }
    }

    /// Writes exactly the lines of a show from line `from` on, counted from 0, as `show_lines` does.
    /// The agent keeps where it began, so that the next page does not go through all earlier lines
    /// (no clause states this).
    pub fn show_from<S: LineSink>(&mut self, show: &Show, from: u32, sink: &mut S)
        ensures same { self.new ≡ self.old }
        ensures value { Takes S.takes sink.old sink.new
            (drop from (lines_of show.now self.old)) }
        ensures few { length (lines_of show.now self.old) ≤ MOST_LINES }
    {
        let cursor = self.cursor(show, from);
        let mut later = SkipLines::new(sink, from - cursor.before);
        self.show_at(show, cursor, &mut later);
    }

    /// Writes the lines of a show that are not before the cursor.
    fn show_at<S: LineSink>(&self, show: &Show, cursor: Cursor, sink: &mut S)
        requires { IsCursorOf show.now self.now cursor }
        ensures value { Takes S.takes sink.old sink.new
            (drop cursor.before (lines_of show.now self.now)) }
        ensures few { length (lines_of show.now self.now) ≤ MOST_LINES }
    {
        if cursor.before == 0 {
            self.show_lines(show, sink);
        } else {
            put_from(sink, self.all_ports(), cursor);
        }
    }

    /// Keeps line `i` of a show, counted from 0, in this sink, if the show has that line. Goes
    /// through all earlier lines (no clause states this); use `show_lines` for several lines.
    pub(crate) fn keep_line(&self, show: &Show, i: u32, sink: &mut OneLine)
        ensures line { line_kept sink.new ≡ slice_get (lines_of show.now self.now) i }
        ensures short { length sink.new.line ≤ LINE_ROOM }
        ensures few { length (lines_of show.now self.now) ≤ MOST_LINES }
        ensures past { (past : Past) → Stands past self.now →
            line_kept sink.new ≡ slice_get (lines_of show.now (agent_of past)) i }
    {
        sink.want(i);
        self.show_lines(show, sink);
    }

    /// Returns line `i` of a show, counted from 0, without its line feed, or None if the show has
    /// no such line. Goes through all earlier lines (no clause states this).
    pub fn show_line(&self, show: &Show, i: u32) -> Option<Line>
        ensures line { option_map (λ line. line.items) result ≡ slice_get (lines_of show.now self.now) i }
        ensures few { IsSome result → i < MOST_LINES }
        ensures past { (past : Past) → Stands past self.now →
            option_map (λ line. line.items) result ≡ slice_get (lines_of show.now (agent_of past)) i }
    {
        let mut sink = OneLine::new();
        self.keep_line(show, i, &mut sink);
        let octets = sink.line()?;
        let mut line = Line::new();
        let _ = line.try_extend_from_slice(octets);
        Some(line)
    }
}
