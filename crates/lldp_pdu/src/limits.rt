//! The most octets of a frame, of an LLDPDU and of its parts (IEEE 802.1AB-2009, 8.4 and 8.5).

/// The most octets of an LLDPDU: the most that an Ethernet frame carries.
pub const MOST_OCTETS: usize = 1500;

/// The most octets of a frame: two addresses, the EtherType and an LLDPDU.
pub const MOST_FRAME: usize = 14 + MOST_OCTETS;

/// The most octets of a TLV's body.
pub const MOST_BODY: usize = 511;

/// The most octets of the body of a Chassis ID or a Port ID.
pub const MOST_IDENTIFIER: usize = 256;

/// The most octets of a text: a description or a name.
pub const MOST_TEXT: usize = 255;

/// The most octets of a management address.
pub const MOST_ADDRESS: usize = 31;

/// The most octets of the OID of a management address.
pub const MOST_OID: usize = 128;
