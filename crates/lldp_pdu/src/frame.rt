//! The LLDPDU of an Ethernet frame.
ghost use Rattle.std.specs.Prelude.{◌≡◌, ◌≤◌, length, IfSome};
ghost use Rattle.std.specs.Option.{option_copied};
ghost use Rattle.lldp_pdu.specs.Frame.{lldpdu_of};
ghost use Rattle.lldp_pdu.specs.Range.{most_octets};

use crate::limits::MOST_FRAME;

/// The nearest bridge group address.
const NEAREST_BRIDGE: [u8; 6] = [0x01, 0x80, 0xc2, 0x00, 0x00, 0x0e];

const LLDP_ETHERTYPE: [u8; 2] = [0x88, 0xcc];

/// Returns the LLDPDU of an Ethernet frame: everything after its EtherType, at most 1,500 octets.
/// Returns None if this is not an LLDP frame: its length is not 14 to 1,514 octets, its destination
/// is not the nearest bridge address, or its EtherType is not LLDP's. Any source address is
/// accepted (IEEE 802.1AB-2009, 7.1 to 7.4).
#[tactic(auto, unfolding(crate::specs::Frame::is_lldp_frame))]
pub fn frame_pdu(frame: &[u8]) -> Option<&[u8]>
    ensures value { option_copied result ≡ lldpdu_of frame.now }
    ensures short { IfSome result (λ pdu. length pdu.now ≤ most_octets) }
{
    if frame.len() < 14 || frame.len() > MOST_FRAME {
        return None;
    }
    if !frame.starts_with(&NEAREST_BRIDGE) {
        return None;
    }
    if !frame[12..].starts_with(&LLDP_ETHERTYPE) {
        return None;
    }
    Some(&frame[14..])
}
