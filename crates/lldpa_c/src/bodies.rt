//! Reads the bodies of System Capabilities and Management Address TLVs.
ghost use Rattle.std.specs.Prelude.{◌≡◌, IsTrue};
ghost use Rattle.lldp_pdu.specs.Capabilities.{caps_of};
ghost use Rattle.lldp_pdu.specs.ManagementAddress.{address_of};
ghost use Rattle.lldp_pdu.specs.View.{address_view};
ghost use Rattle.lldpa_c.specs.Answer.{TellsIf};
ghost use Rattle.lldpa_c.specs.Bodies.{caps_told, address_told, management_of, IsWithin};

use crate::place::LldpaPlace;
use lldp_pdu::{Mgmt, caps, mgmt};

/// The fields of a System Capabilities TLV.
#[repr(C)]
#[derive(Clone, Copy)]
pub struct LldpaCapabilities {
    pub available: u16,
    pub enabled: u16,
}

/// The fields of a Management Address TLV. `address` and `oid` are ranges of its body.
#[repr(C)]
#[derive(Clone, Copy)]
pub struct LldpaManagement {
    pub address: LldpaPlace,
    pub oid: LldpaPlace,
    pub interface: u32,
    pub family: u8,
    pub numbering: u8,
}

/// Reads the body of a System Capabilities TLV. Returns true if the body is well formed. Otherwise
/// returns false, and leaves the struct unchanged.
#[unsafe(no_mangle)]
pub extern "C" fn lldpa_caps(body: &[u8], told: &mut LldpaCapabilities) -> bool
    ensures told { TellsIf (caps_of body.now) caps_told told.old result told.new }
{
    match caps(body) {
        None => false,
        Some(caps) => {
            *told = LldpaCapabilities {
                available: caps.available,
                enabled: caps.enabled,
            };
            true
        }
    }
}

/// Returns the fields of a Management Address TLV. In its body the address starts after two octets,
/// and the object identifier starts six octets after the end of the address.
fn management(fields: &Mgmt<'_>) -> LldpaManagement
    ensures { result ≡ management_of (address_view fields.now) }
{
    LldpaManagement {
        address: LldpaPlace {
            start: 2,
            length: fields.address.len(),
        },
        oid: LldpaPlace {
            start: 2 + fields.address.len() + 6,
            length: fields.oid.len(),
        },
        interface: fields.interface,
        family: fields.family,
        numbering: fields.numbering,
    }
}

/// Reads the body of a Management Address TLV. Returns true if the body is well formed. Otherwise
/// returns false, and leaves the struct unchanged.
#[unsafe(no_mangle)]
pub extern "C" fn lldpa_mgmt(body: &[u8], told: &mut LldpaManagement) -> bool
    ensures told { TellsIf (address_of body.now) (address_told body.now) told.old result told.new }
    ensures within { IsTrue result → IsWithin body.now told.new }
{
    match mgmt(body) {
        None => false,
        Some(fields) => {
            *told = management(&fields);
            true
        }
    }
}
