//! LLDP data units: their TLVs, their validation, and a builder (IEEE 802.1AB-2009, clause 8). No
//! call allocates memory, and the only errors are `PduFault` and `BuildFault`.
#![tactic(auto)]

mod bodies;
mod builder;
mod examination;
mod fault;
mod fields;
mod frame;
mod info;
mod kept;
pub mod laws;
mod limits;
mod seen;
mod tlv;
pub mod tlv_type;

pub use bodies::{caps, mgmt};
pub use builder::Builder;
pub use examination::{Examined, examine};
pub use fault::{BuildFault, PduFault};
pub use fields::{Caps, Mgmt, Msap};
pub use frame::frame_pdu;
pub use info::Info;
pub use kept::Kept;
pub use limits::{
    MOST_ADDRESS, MOST_BODY, MOST_FRAME, MOST_IDENTIFIER, MOST_OCTETS, MOST_OID, MOST_TEXT,
};
pub use seen::Seen;
pub use tlv::{Tlv, Tlvs, append_tlv};
