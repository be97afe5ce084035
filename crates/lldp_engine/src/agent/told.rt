//! What a step tells about a received frame.
use lldp_pdu::{Msap, PduFault};
use lldp_table::Outcome;

/// What a step did with a received frame, and with which neighbor.
#[derive(Clone, Copy, Debug)]
pub enum Told<'a> {
    /// The event is not a frame.
    Nothing,
    /// The port does not receive, or its link is down.
    Deaf,
    /// The octets are not an LLDP frame.
    NotLldp,
    /// The LLDPDU was refused because of this fault.
    Refused(PduFault),
    /// The neighbor with this name sent a TTL above 0.
    Stored { name: Msap<'a>, outcome: Outcome },
    /// The neighbor with this name sent a TTL of 0. If it was held, it is removed.
    Left { name: Msap<'a>, held: bool },
}
