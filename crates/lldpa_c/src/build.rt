//! Builds LLDPDUs in the caller's buffer.
ghost use Rattle.std.specs.Prelude.{◌≡◌, ◌≤◌, ◌<◌, ◌↔◌, ℕ, [], ◌∷◌, length, map, drop, slice_index_or, IsTrue};
ghost use Rattle.lldp_pdu.specs.Msap.{IsIdentifier};
ghost use Rattle.lldp_pdu.specs.Draft.{put_fault};
ghost use Rattle.lldpa_c.specs.Building.{tlv_of, fault_number, put_all, put_faults, Builds};

use crate::answer::{NO_ROOM, OUT_OF_RANGE};
use crate::faults::tlv_fault_number;
use crate::giving::give;
use lldp_pdu::{Builder, MOST_IDENTIFIER};

/// A TLV to put into an LLDPDU.
#[repr(C)]
#[derive(Clone, Copy)]
pub struct LldpaTlv<'a> {
    pub body: &'a [u8],
    pub kind: u8,
}

/// True if these octets have the length of a Chassis ID or a Port ID.
fn is_identifier(body: &[u8]) -> bool
    ensures { IsTrue result ↔ IsIdentifier body.now }
{
    2 <= body.len() && body.len() <= MOST_IDENTIFIER
}

/// Puts a TLV into the LLDPDU. Returns 0, or the number of the fault if the TLV is left out.
fn put_one(builder: &mut Builder, tlv: &LldpaTlv<'_>) -> u8
    ensures put { builder.new ≡ put_all builder.old (tlv_of tlv.now ∷ []) }
    ensures fault { result ≡ fault_number (put_fault builder.old (tlv_of tlv.now)) }
{
    match builder.put(tlv.kind, tlv.body) {
        Ok(()) => 0,
        Err(fault) => tlv_fault_number(fault),
    }
}

/// Puts the TLVs in order, except those with a fault. Writes 0 or the fault's number for each TLV.
fn put_each(builder: &mut Builder, tlvs: &[LldpaTlv<'_>], faults: &mut [u8])
    requires { length tlvs.now ≤ length faults.old }
    ensures put { builder.new ≡ put_all builder.old (map tlv_of tlvs.now) }
    ensures faults { (i : ℕ) → i < length tlvs.now → slice_index_or faults.new i 0
        ≡ slice_index_or (put_faults builder.old (map tlv_of tlvs.now)) i 0 }
    ensures rest { drop (length tlvs.now) faults.new ≡ drop (length tlvs.now) faults.old }
{
    for (i, tlv) in tlvs.iter().enumerate() {
        faults[i] = put_one(builder, tlv);
    }
}

/// Builds an LLDPDU in the caller's buffer. TLVs with a fault are left out. `faults` receives 0 or
/// the number of the fault for each TLV.
#[unsafe(no_mangle)]
pub extern "C" fn lldpa_build(
    chassis: &[u8],
    port: &[u8],
    ttl: u16,
    tlvs: &[LldpaTlv<'_>],
    faults: &mut [u8],
    room: &mut [u8],
    written: &mut usize,
) -> u8
    ensures built { Builds chassis.now port.now ttl tlvs.now faults.old room.old written.old
        result faults.new room.new written.new }
{
    if !is_identifier(chassis) || !is_identifier(port) {
        return OUT_OF_RANGE;
    }
    if faults.len() < tlvs.len() {
        return NO_ROOM;
    }
    let mut builder = Builder::begin(chassis, port, ttl);
    put_each(&mut builder, tlvs, faults);
    give(builder.finish().as_slice(), room, written)
}
