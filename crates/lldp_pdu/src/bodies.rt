//! Checks of TLV bodies, and the fields of System Capabilities and Management Address (IEEE
//! 802.1AB-2009, 8.5 and 8.6).
ghost use Rattle.std.specs.Prelude.{◌≡◌};
ghost use Rattle.std.specs.Option.{option_map};
ghost use Rattle.lldp_pdu.specs.Capabilities.{caps_of};
ghost use Rattle.lldp_pdu.specs.ManagementAddress.{address_of};
ghost use Rattle.lldp_pdu.specs.WellFormed.{is_well_formed};
ghost use Rattle.lldp_pdu.specs.View.{tlv_view, address_view};

use crate::fields::{Caps, Mgmt};
use crate::limits::{MOST_ADDRESS, MOST_IDENTIFIER, MOST_OID, MOST_TEXT};
use crate::tlv::Tlv;
use crate::tlv_type::{
    CHASSIS_ID, MANAGEMENT_ADDRESS, ORGANIZATIONALLY_SPECIFIC, PORT_DESCRIPTION, PORT_ID,
    SYSTEM_CAPABILITIES, SYSTEM_DESCRIPTION, TIME_TO_LIVE,
};

/// Reads the fields of System Capabilities. Returns None exactly if the body is not well formed: it
/// does not have four octets, or it enables an unavailable bit (IEEE 802.1AB-2009, 8.5.8).
pub fn caps(body: &[u8]) -> Option<Caps>
    ensures { result ≡ caps_of body.now }
{
    let [a, b, c, d] = body else {
        return None;
    };
    let available = u16::from_be_bytes([*a, *b]);
    let enabled = u16::from_be_bytes([*c, *d]);
    (enabled & available == enabled).then_some(Caps { available, enabled })
}

/// Reads the fields of a Management Address. Returns None exactly if the body is not well formed:
/// its first octet `m` is not 2 to 32, the OID has more than 128 octets, or the body's length is
/// not `m` + 7 plus the length of the OID (IEEE 802.1AB-2009, 8.5.9).
pub fn mgmt(body: &[u8]) -> Option<Mgmt<'_>>
    ensures { option_map address_view result ≡ address_of body.now }
{
    let m = usize::from(*body.first()?);
    if m < 2 || m > MOST_ADDRESS + 1 {
        return None;
    }
    let o = usize::from(*body.get(m + 6)?);
    if o > MOST_OID || body.len() != m + o + 7 {
        return None;
    }
    Some(Mgmt {
        family: body[1],
        address: &body[2..m + 1],
        numbering: body[m + 1],
        interface: u32::from_be_bytes([body[m + 2], body[m + 3], body[m + 4], body[m + 5]]),
        oid: &body[m + 7..],
    })
}

/// Returns whether the TLV's body is well formed for its type.
#[tactic(auto, unfolding(crate::specs::WellFormed::is_well_formed))]
pub(crate) fn body_is_well_formed(tlv: &Tlv<'_>) -> bool
    ensures { result ≡ is_well_formed (tlv_view tlv.now) }
{
    let len = tlv.body.len();
    match tlv.kind {
        CHASSIS_ID | PORT_ID => (2..=MOST_IDENTIFIER).contains(&len),
        TIME_TO_LIVE => len >= 2,
        PORT_DESCRIPTION..=SYSTEM_DESCRIPTION => len <= MOST_TEXT,
        SYSTEM_CAPABILITIES => caps(tlv.body).is_some(),
        MANAGEMENT_ADDRESS => mgmt(tlv.body).is_some(),
        ORGANIZATIONALLY_SPECIFIC => len >= 4,
        _ => true,
    }
}
