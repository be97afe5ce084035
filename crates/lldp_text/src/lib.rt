//! Reads the text of commands and writes show lines: the words and numbers of a line, digits, and
//! neighbors' identifiers, addresses, capabilities and kept TLVs (IEEE 802.1AB-2009, clause 8).
#![tactic(auto)]

mod addresses;
mod appending;
mod capabilities;
mod digits;
mod fault;
mod identifier;
mod kept_tlv;
pub mod laws;
mod management_address;
mod numbers;
mod printable;
mod splitting;
mod tail;
mod writing;

pub use addresses::{write_ipv4, write_mac};
pub use appending::{Append, HEAD_ROOM, Head};
pub use digits::{decode_digits, decode_line, encode_digits};
pub use fault::CommandFault;
pub use identifier::{begin_chassis, begin_port, write_chassis, write_port};
pub use kept_tlv::{begin_kept_tlv, write_kept_tlv};
pub use numbers::number;
pub use printable::is_printable_text;
pub use splitting::{Words, split, split_at_bare};
pub use tail::Tail;
pub use writing::{LINE_ROOM, Line, MOST_LINE, ROOM, Writer};
