//! Writes MAC, IPv4 and IPv6 addresses.
ghost use Rattle.std.specs.Prelude.{◌≡◌, ◌+◌, ◌*◌, ◌≤◌, ◌++◌, length};
ghost use Rattle.lldp_text.specs.Addresses.{mac_text, ipv4_text, ipv6_text, address_kind};

use crate::appending::{Append, write_decimal, write_separator};

/// The kind of a network address.
#[derive(Clone, Copy, Debug, PartialEq, Eq)]
pub(crate) enum AddressKind {
    Ipv4,
    Ipv6,
    Unknown,
}

/// The address family numbers of IPv4 and IPv6.
const FAMILY_IPV4: u8 = 1;

const FAMILY_IPV6: u8 = 2;

/// Returns the kind of an address with this family and this number of octets.
pub(crate) fn kind_of_address(family: u8, len: usize) -> AddressKind
    ensures { result ≡ address_kind family len }
{
    if family == FAMILY_IPV4 && len == 4 {
        AddressKind::Ipv4
    } else if family == FAMILY_IPV6 && len == 16 {
        AddressKind::Ipv6
    } else {
        AddressKind::Unknown
    }
}

/// Writes a MAC address of six octets. Requires room for 18 octets.
pub fn write_mac<L: Append>(line: &mut L, octets: &[u8])
    requires room { length (L.held line.old) + 18 ≤ L.most }
    requires six { length octets.now ≡ 6 }
    ensures value { L.held line.new ≡ L.held line.old ++ mac_text octets.now }
    ensures len { length (L.held line.new) ≤ length (L.held line.old) + 18 }
{
    for (i, octet) in octets.iter().enumerate() {
        write_separator(line, b':', i);
        line.hex(&[*octet]);
    }
}

/// Writes an IPv4 address of four octets. Requires room for 44 octets.
#[tactic(auto, using(crate::proofs::TextJoined::grown, crate::proofs::TextJoined::joined_more))]
pub fn write_ipv4<L: Append>(line: &mut L, octets: &[u8])
    requires room { length (L.held line.old) + 44 ≤ L.most }
    requires four { length octets.now ≡ 4 }
    ensures value { L.held line.new ≡ L.held line.old ++ ipv4_text octets.now }
    ensures len { length (L.held line.new) ≤ length (L.held line.old) + 44 }
{
    for (i, octet) in octets.iter().enumerate() {
        write_separator(line, b'.', i);
        write_decimal(line, u32::from(*octet));
    }
}

/// Writes an IPv6 address of sixteen octets. Requires room for 40 octets.
pub(crate) fn write_ipv6<L: Append>(line: &mut L, octets: &[u8])
    requires room { length (L.held line.old) + 40 ≤ L.most }
    requires sixteen { length octets.now ≡ 16 }
    ensures value { L.held line.new ≡ L.held line.old ++ ipv6_text octets.now }
    ensures len { length (L.held line.new) ≤ length (L.held line.old) + 40 }
{
    for i in 0..8 {
        write_separator(line, b':', i);
        line.hex(&octets[2 * i..2 * i + 2]);
    }
}
