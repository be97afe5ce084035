//! The fields of TLV bodies: MSAP identifiers, System Capabilities and Management Addresses.

/// An MSAP identifier, which identifies a neighbor: the bodies of its Chassis ID and its Port ID,
/// subtypes included (IEEE 802.1AB-2009, 8.5.2 and 8.5.3).
#[derive(Clone, Copy, Debug, PartialEq, Eq)]
pub struct Msap<'a> {
    pub chassis: &'a [u8],
    pub port: &'a [u8],
}

/// System Capabilities: the capabilities that a system has, and those that are enabled, as bits.
#[derive(Clone, Copy, Debug, PartialEq, Eq)]
pub struct Caps {
    pub available: u16,
    pub enabled: u16,
}

/// A Management Address: the address family and the address, the interface numbering subtype and
/// the interface number, and an object identifier (OID).
#[derive(Clone, Copy, Debug, PartialEq, Eq)]
pub struct Mgmt<'a> {
    pub family: u8,
    pub address: &'a [u8],
    pub numbering: u8,
    pub interface: u32,
    pub oid: &'a [u8],
}
