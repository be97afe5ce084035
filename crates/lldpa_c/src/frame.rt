//! Finds the LLDPDU in an Ethernet frame.
ghost use Rattle.std.specs.Prelude.{◌≡◌, ◌+◌, length, IsTrue};
ghost use Rattle.lldp_pdu.specs.Frame.{lldpdu_of};
ghost use Rattle.lldpa_c.specs.Answer.{TellsIf};
ghost use Rattle.lldpa_c.specs.Place.{octets_at};

use crate::place::LldpaPlace;
use lldp_pdu::frame_pdu;

/// The number of octets before the LLDPDU in a frame: two addresses and the EtherType.
pub(crate) const HEADER: usize = 14;

/// Returns true if the octets are an LLDP frame, and writes the range of its LLDPDU. Otherwise
/// leaves the range unchanged.
#[unsafe(no_mangle)]
pub extern "C" fn lldpa_frame_pdu(frame: &[u8], pdu: &mut LldpaPlace) -> bool
    ensures told { TellsIf (lldpdu_of frame.now) (octets_at frame.now) pdu.old result pdu.new }
    ensures within { IsTrue result → pdu.new.start + pdu.new.length ≡ length frame.now }
{
    match frame_pdu(frame) {
        None => false,
        Some(found) => {
            *pdu = LldpaPlace {
                start: HEADER,
                length: found.len(),
            };
            true
        }
    }
}
