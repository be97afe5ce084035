//! Remembers at which line of `show neighbors` the next page begins.
ghost use Rattle.std.specs.Prelude.{◌≡◌, ◌+◌, ◌≤◌, false, true, length};
ghost use Rattle.lldp_pdu.specs.Kept.{kept_of};
ghost use Rattle.lldp_engine.specs.Code.Cursor.{IsCursor, IsBehind};
ghost use Rattle.lldp_engine.specs.Ranges.{most_ports};

use crate::port::Port;
use lldp_pdu::Kept;
use lldp_table::Entry;
use std::alloc::Allocator;

/// How many lines of a port come before those of its neighbors.
const COUNT_LINES: u32 = 3;

/// How many lines of a neighbor come before those of its kept TLVs.
const FIRST_LINES: u32 = 4;

/// The number of lines of `show neighbors` before a neighbor, and the neighbor's place: its port and
/// its index in the port's table. If no lines come before, the place is not used.
#[derive(Clone, Copy)]
pub(crate) struct Cursor {
    pub(crate) before: u32,
    pub(crate) port: u8,
    pub(crate) neighbor: u8,
}

impl Cursor {
    /// The cursor at the first line.
    pub(crate) const START: Cursor = Cursor {
        before: 0,
        port: 0,
        neighbor: 0,
    };
}

/// Returns how many lines a neighbor has.
fn count_lines(neighbor: &Entry<'_>) -> u32
    ensures value { result ≡ 4 + length (kept_of neighbor.now.octets) }
    ensures few { result ≤ 748 }
{
    let mut lines = FIRST_LINES;
    for _tlv in Kept::of_extent(neighbor.octets()) {
        lines += 1;
    }
    lines
}

/// Moves the cursor from the first line to the first neighbor, if that is not behind line `from`.
/// Returns whether the cursor is at a neighbor.
fn enter<A: Allocator>(ports: &[Port<A>], cursor: &mut Cursor, from: u32) -> bool
    requires cursor { IsCursor ports.now cursor.old }
    requires before { cursor.old.before ≤ from }
    ensures cursor { IsCursor ports.now cursor.new }
    ensures behind { result ≡ true → IsBehind ports.now cursor.new }
    ensures before { cursor.new.before ≤ from }
{
    if cursor.before > 0 {
        return true;
    }
    if ports.is_empty() || from < COUNT_LINES {
        return false;
    }
    *cursor = Cursor {
        before: COUNT_LINES,
        port: 0,
        neighbor: 0,
    };
    true
}

/// Moves the cursor over the neighbors of its port all of whose lines are before line `from`.
fn pass_neighbors<A: Allocator>(ports: &[Port<A>], cursor: &mut Cursor, from: u32)
    requires cursor { IsBehind ports.now cursor.old }
    requires before { cursor.old.before ≤ from }
    ensures cursor { IsBehind ports.now cursor.new }
    ensures before { cursor.new.before ≤ from }
{
    let port = &ports[cursor.port as usize];
    let mut entries = port.table().entries();
    entries.pass(cursor.neighbor);
    for entry in entries {
        let lines = count_lines(&entry);
        if lines > from - cursor.before {
            return;
        }
        cursor.before += lines;
        cursor.neighbor += 1;
    }
}

/// Moves the cursor from the end of a port to the next port's first neighbor, if that is not behind
/// line `from`. Returns whether it was moved.
fn pass_port<A: Allocator>(ports: &[Port<A>], cursor: &mut Cursor, from: u32) -> bool
    requires few { length ports.now ≤ most_ports }
    requires cursor { IsBehind ports.now cursor.old }
    requires before { cursor.old.before ≤ from }
    ensures cursor { IsBehind ports.now cursor.new }
    ensures before { cursor.new.before ≤ from }
{
    let port = cursor.port as usize;
    if cursor.neighbor < ports[port].table().len() || port + 1 >= ports.len() {
        return false;
    }
    if from - cursor.before < COUNT_LINES {
        return false;
    }
    *cursor = Cursor {
        before: cursor.before + COUNT_LINES,
        port: cursor.port + 1,
        neighbor: 0,
    };
    true
}

/// Moves the cursor to the last neighbor that is not behind line `from`, or to the first line.
pub(crate) fn seek<A: Allocator>(ports: &[Port<A>], cursor: &mut Cursor, from: u32)
    requires few { length ports.now ≤ most_ports }
    requires cursor { IsCursor ports.now cursor.old }
    ensures cursor { IsCursor ports.now cursor.new }
    ensures before { cursor.new.before ≤ from }
{
    if cursor.before > from {
        *cursor = Cursor::START;
    }
    if !enter(ports, cursor, from) {
        return;
    }
    for _port in 0..ports.len() {
        pass_neighbors(ports, cursor, from);
        if !pass_port(ports, cursor, from) {
            return;
        }
    }
}
