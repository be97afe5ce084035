//! Writes management addresses.
ghost use Rattle.std.specs.Prelude.{◌≡◌, ◌+◌, ◌≤◌, ◌++◌, length};
ghost use Rattle.lldp_pdu.specs.Range.{most_address, most_oid};
ghost use Rattle.lldp_pdu.specs.View.{address_view};
ghost use Rattle.lldp_text.specs.Addresses.{address_kind};
ghost use Rattle.lldp_text.specs.ManagementAddress.{address_text, management_text};
ghost use Rattle.lldp_text.specs.Tail.{tail_text, tail_room};

use crate::addresses::{AddressKind, kind_of_address, write_ipv4, write_ipv6};
use crate::appending::{Append, write_decimal};
use crate::tail::Tail;
use lldp_pdu::Mgmt;

/// Writes an address of any family, known or not.
fn write_address<L: Append>(line: &mut L, family: u8, octets: &[u8])
    requires room { length (L.held line.old) + 76 ≤ L.most }
    requires short { length octets.now ≤ most_address }
    ensures value { L.held line.new ≡ L.held line.old
        ++ address_text (address_kind family (length octets.now)) family octets.now }
    ensures len { length (L.held line.new) ≤ length (L.held line.old) + 76 }
{
    match kind_of_address(family, octets.len()) {
        AddressKind::Ipv4 => write_ipv4(line, octets),
        AddressKind::Ipv6 => write_ipv6(line, octets),
        AddressKind::Unknown => {
            line.text(b"af");
            write_decimal(line, u32::from(family));
            line.text(b":");
            line.hex(octets);
        }
    }
}

/// Writes a management address with its interface number, and returns the OID, which follows.
pub(crate) fn begin_management_address<'a, L: Append>(line: &mut L, address: Mgmt<'a>) -> Tail<'a>
    requires room { length (L.held line.old) + 100 ≤ L.most }
    requires short { length address.address.now ≤ most_address }
    requires oid { length address.oid.now ≤ most_oid }
    ensures value { L.held line.new ++ tail_text result
        ≡ L.held line.old ++ management_text (address_view address.entry) }
    ensures len { length (L.held line.new) ≤ length (L.held line.old) + 100 }
    ensures tail { tail_room result ≤ 256 }
{
    write_address(line, address.family, address.address);
    line.text(b",");
    write_decimal(line, u32::from(address.numbering));
    line.text(b",");
    write_decimal(line, address.interface);
    line.text(b",");
    Tail::Hex(address.oid)
}
