//! The lines of `show neighbors`.
ghost use Rattle.std.specs.Prelude.{◌≡◌, ◌≤◌, ◌+◌, codes, drop, length, map, if◌then◌else◌};
ghost use Rattle.std.specs.List.{AllByRecursion};
ghost use Rattle.lldp_pdu.specs.Kept.{IsKeptTlv};
ghost use Rattle.lldp_engine.specs.NeighborLines.{neighbor_lines, numbered_lines, count_lines, port_lines, neighbors_lines};
ghost use Rattle.lldp_engine.specs.Code.Cursor.{IsBehind};
ghost use Rattle.lldp_engine.specs.Takes.{Takes};
ghost use Rattle.lldp_engine.specs.Ranges.{most_name};
ghost use Rattle.lldp_engine.specs.Code.ShownValue.{kept_line};

use crate::port::Port;
use crate::show::cursor::Cursor;
use crate::show::line::{LineSink, Value, neighbor_front, port_front, put_line};
use lldp_pdu::Kept;
use lldp_table::Entry;
use std::alloc::Allocator;

fn word_of(condition: bool) -> &'static [u8]
    ensures value { result.now ≡ (if condition then codes "yes" else codes "no") }
    ensures short { length result.now ≤ 3 }
{
    if condition { b"yes" } else { b"no" }
}

/// Writes the lines of a neighbor's kept TLVs.
fn put_kept<S: LineSink>(sink: &mut S, front: &[u8], kept: Kept<'_>)
    requires front { length front.now ≤ 32 }
    requires kept { AllByRecursion IsKeptTlv kept }
    ensures { Takes S.takes sink.old sink.new (map (kept_line front.now) kept.entry) }
{
    for tlv in kept {
        put_line(sink, front, b"", Value::Kept(tlv));
    }
}

/// Writes the lines of neighbor `number`, from 1, of the port with this name.
fn put_neighbor<S: LineSink>(sink: &mut S, name: &[u8], number: u8, neighbor: Entry<'_>)
    requires { length name.now ≤ most_name }
    ensures { Takes S.takes sink.old sink.new (neighbor_lines name.now number neighbor.entry) }
{
    let begin = neighbor_front(name, number);
    let front = begin.as_slice();
    let msap = neighbor.msap();
    put_line(sink, front, b"chassis.", Value::Chassis(msap.chassis));
    put_line(sink, front, b"port.", Value::Port(msap.port));
    put_line(
        sink,
        front,
        b"ttl=",
        Value::Number(u32::from(neighbor.ttl())),
    );
    put_line(
        sink,
        front,
        b"expires=",
        Value::Number(u32::from(neighbor.left())),
    );
    put_kept(sink, front, neighbor.kept());
}

/// Writes the three lines of a port that come before those of its neighbors.
fn put_counts<A: Allocator, S: LineSink>(sink: &mut S, port: &Port<A>)
    ensures { Takes S.takes sink.old sink.new (count_lines port.now) }
{
    let begin = port_front(port.name());
    let front = begin.as_slice();
    let table = port.table();
    put_line(
        sink,
        front,
        b"neighbors=",
        Value::Number(u32::from(table.len())),
    );
    put_line(sink, front, b"octets=", Value::Number(table.octets()));
    put_line(
        sink,
        front,
        b"too-many=",
        Value::Word(word_of(table.too_many())),
    );
}

/// Writes the lines of a port's neighbors from index `first` on.
fn put_numbered<A: Allocator, S: LineSink>(sink: &mut S, port: &Port<A>, first: u8)
    requires { first ≤ length port.now.table.neighbors }
    ensures { Takes S.takes sink.old sink.new
        (numbered_lines port.now.name (first + 1) (drop first port.now.table.neighbors)) }
{
    let mut number = first;
    let mut entries = port.table().entries();
    entries.pass(first);
    for entry in entries {
        if sink.is_done() {
            return;
        }
        number += 1;
        put_neighbor(sink, port.name(), number, entry);
    }
}

/// Writes the lines of a port and of its neighbors.
fn put_port<A: Allocator, S: LineSink>(sink: &mut S, port: &Port<A>)
    ensures { Takes S.takes sink.old sink.new (port_lines port.now) }
{
    put_counts(sink, port);
    put_numbered(sink, port, 0);
}

/// Writes the lines of `show neighbors`.
pub(crate) fn put_neighbors<A: Allocator, S: LineSink>(sink: &mut S, ports: &[Port<A>])
    ensures { Takes S.takes sink.old sink.new (neighbors_lines ports.now) }
{
    for port in ports {
        if sink.is_done() {
            return;
        }
        put_port(sink, port);
    }
}

/// Writes the lines of `show neighbors` that are not before the cursor.
pub(crate) fn put_from<A: Allocator, S: LineSink>(sink: &mut S, ports: &[Port<A>], cursor: Cursor)
    requires { IsBehind ports.now cursor }
    ensures { Takes S.takes sink.old sink.new (drop cursor.before (neighbors_lines ports.now)) }
{
    let port = cursor.port as usize;
    put_numbered(sink, &ports[port], cursor.neighbor);
    put_neighbors(sink, &ports[port + 1..]);
}
