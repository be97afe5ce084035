//! The neighbor table of one port (IEEE 802.1AB-2009, clause 9).
#![tactic(auto)]

mod count;
mod entries;
mod entry;
pub mod laws;
mod learned;
mod limits;
mod order;
mod queue;
mod room;
mod slot;
mod table;
mod times;

pub use entries::Entries;
pub use entry::Entry;
pub use learned::{Learned, Outcome};
pub use limits::MOST_NEIGHBORS;
pub use lldp_pdu::MOST_OCTETS;
pub use room::Room;
pub use table::Table;
