//! Writes chassis IDs and port IDs.
ghost use Rattle.std.specs.Prelude.{◌≡◌, ◌+◌, ◌*◌, ◌≤◌, ◌++◌, length, codes, slice_index, drop};
ghost use Rattle.lldp_pdu.specs.Msap.{IsIdentifier};
ghost use Rattle.lldp_pdu.specs.Range.{most_identifier};
ghost use Rattle.lldp_text.specs.Tail.{tail_text, tail_room};
ghost use Rattle.lldp_text.specs.declared.writing.TheConstants.{ROOM, VALUE_ROOM};
ghost use Rattle.lldp_text.specs.Addresses.{address_kind};
ghost use Rattle.lldp_text.specs.Identifier.{chassis_kind, port_kind, unhandled_text, network_text, identifier_text, chassis_text, port_text};

use crate::addresses::{AddressKind, kind_of_address, write_ipv4, write_ipv6, write_mac};
use crate::appending::Append;
use crate::tail::{Tail, begin_text};
use crate::writing::Writer;

/// The kind of an identifier.
#[derive(Clone, Copy, Debug, PartialEq, Eq)]
pub(crate) enum IdentifierKind {
    Component,
    InterfaceAlias,
    PortComponent,
    Mac,
    Network,
    InterfaceName,
    CircuitId,
    Local,
    Other,
}

fn kind_of_chassis(subtype: u8) -> IdentifierKind
    ensures { result ≡ chassis_kind subtype }
{
    match subtype {
        1 => IdentifierKind::Component,
        2 => IdentifierKind::InterfaceAlias,
        3 => IdentifierKind::PortComponent,
        4 => IdentifierKind::Mac,
        5 => IdentifierKind::Network,
        6 => IdentifierKind::InterfaceName,
        7 => IdentifierKind::Local,
        _ => IdentifierKind::Other,
    }
}

fn kind_of_port(subtype: u8) -> IdentifierKind
    ensures { result ≡ port_kind subtype }
{
    match subtype {
        1 => IdentifierKind::InterfaceAlias,
        2 => IdentifierKind::Component,
        3 => IdentifierKind::Mac,
        4 => IdentifierKind::Network,
        5 => IdentifierKind::InterfaceName,
        6 => IdentifierKind::CircuitId,
        7 => IdentifierKind::Local,
        _ => IdentifierKind::Other,
    }
}

/// Begins a whole body in hexadecimal, including its subtype.
#[inline(always)]
fn begin_unhandled<'a, L: Append>(line: &mut L, body: &'a [u8]) -> Tail<'a>
    requires fits { length body.now ≤ most_identifier }
    requires room { length (L.held line.old) + 64 ≤ L.most }
    ensures value { L.held line.new ++ tail_text result ≡ L.held line.old ++ unhandled_text body.now }
    ensures len { length (L.held line.new) ≤ length (L.held line.old) + 10 }
    ensures tail { tail_room result ≤ 512 }
{
    line.text(b"unhandled=");
    Tail::Hex(body)
}

/// Writes an IP address, or begins the whole body if the family is unknown or the length is wrong
/// for it.
#[inline(always)]
fn begin_network<'a, L: Append>(line: &mut L, body: &'a [u8]) -> Tail<'a>
    requires fits { IsIdentifier body.now }
    requires room { length (L.held line.old) + 64 ≤ L.most }
    ensures value { L.held line.new ++ tail_text result ≡ L.held line.old
        ++ network_text (address_kind (slice_index body.now 1) (length (drop 2 body.now)))
        body.now }
    ensures len { length (L.held line.new) ≤ length (L.held line.old) + 64 }
    ensures tail { tail_room result ≤ 512 }
{
    let address = &body[2..];
    match kind_of_address(body[1], address.len()) {
        AddressKind::Ipv4 => {
            line.text(b"ip=");
            write_ipv4(line, address);
            Tail::Hex(&[])
        }
        AddressKind::Ipv6 => {
            line.text(b"ip=");
            write_ipv6(line, address);
            Tail::Hex(&[])
        }
        AddressKind::Unknown => begin_unhandled(line, body),
    }
}

/// Begins an identifier of this kind as key and value. The body begins with its subtype.
#[inline(always)]
fn begin_identifier<'a, L: Append>(line: &mut L, kind: IdentifierKind, body: &'a [u8]) -> Tail<'a>
    requires fits { IsIdentifier body.now }
    requires room { length (L.held line.old) + 64 ≤ L.most }
    ensures value { L.held line.new ++ tail_text result
        ≡ L.held line.old ++ identifier_text kind body.now }
    ensures len { length (L.held line.new) ≤ length (L.held line.old) + 64 }
    ensures whole { length (L.held line.new) + tail_room result
        ≤ length (L.held line.old) + VALUE_ROOM }
{
    let identifier = &body[1..];
    match kind {
        IdentifierKind::Component => begin_text(line, b"component=", identifier),
        IdentifierKind::InterfaceAlias => begin_text(line, b"ifalias=", identifier),
        IdentifierKind::PortComponent => begin_text(line, b"portcomp=", identifier),
        IdentifierKind::Mac => {
            if identifier.len() == 6 {
                line.text(b"mac=");
                write_mac(line, identifier);
                Tail::Hex(&[])
            } else {
                begin_unhandled(line, body)
            }
        }
        IdentifierKind::Network => begin_network(line, body),
        IdentifierKind::InterfaceName => begin_text(line, b"ifname=", identifier),
        IdentifierKind::CircuitId => begin_text(line, b"circuit=", identifier),
        IdentifierKind::Local => begin_text(line, b"local=", identifier),
        IdentifierKind::Other => begin_unhandled(line, body),
    }
}

/// Begins a chassis ID of 2 to 256 octets as key and value: writes its head and returns its tail.
#[inline(always)]
pub fn begin_chassis<'a, L: Append>(line: &mut L, body: &'a [u8]) -> Tail<'a>
    requires fits { IsIdentifier body.now }
    requires room { length (L.held line.old) + 64 ≤ L.most }
    ensures value { L.held line.new ++ tail_text result ≡ L.held line.old ++ chassis_text body.now }
    ensures len { length (L.held line.new) ≤ length (L.held line.old) + 64 }
    ensures whole { length (L.held line.new) + tail_room result
        ≤ length (L.held line.old) + VALUE_ROOM }
{
    begin_identifier(line, kind_of_chassis(body[0]), body)
}

/// Begins a port ID of 2 to 256 octets as key and value: writes its head and returns its tail.
#[inline(always)]
pub fn begin_port<'a, L: Append>(line: &mut L, body: &'a [u8]) -> Tail<'a>
    requires fits { IsIdentifier body.now }
    requires room { length (L.held line.old) + 64 ≤ L.most }
    ensures value { L.held line.new ++ tail_text result ≡ L.held line.old ++ port_text body.now }
    ensures len { length (L.held line.new) ≤ length (L.held line.old) + 64 }
    ensures whole { length (L.held line.new) + tail_room result
        ≤ length (L.held line.old) + VALUE_ROOM }
{
    begin_identifier(line, kind_of_port(body[0]), body)
}

/// Writes a chassis ID of 2 to 256 octets as key and value. The text has at most 1,050 octets.
pub fn write_chassis(line: &mut Writer, body: &[u8])
    requires fits { IsIdentifier body.now }
    requires room { length line.old + VALUE_ROOM ≤ ROOM }
    ensures value { line.new ≡ line.old ++ chassis_text body.now }
    ensures len { length line.new ≤ length line.old + VALUE_ROOM }
{
    let tail = begin_chassis(line, body);
    line.tail(tail);
}

/// Writes a port ID of 2 to 256 octets as key and value. The text has at most 1,050 octets.
pub fn write_port(line: &mut Writer, body: &[u8])
    requires fits { IsIdentifier body.now }
    requires room { length line.old + VALUE_ROOM ≤ ROOM }
    ensures value { line.new ≡ line.old ++ port_text body.now }
    ensures len { length line.new ≤ length line.old + VALUE_ROOM }
{
    let tail = begin_port(line, body);
    line.tail(tail);
}
