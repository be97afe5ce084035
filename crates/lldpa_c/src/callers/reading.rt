//! Reads LLDPDUs and bodies of TLVs through the exported functions, as lldp_pdu does.
ghost use Rattle.std.specs.Prelude.{◌≡◌, IsSome, ◌≤◌, ◌<◌, true, false, Some, None, length, take, slice_get, ◌+◌, ◌∷◌, [], if◌then◌else◌};
ghost use Rattle.std.specs.Option.{option_map, option_copied};
ghost use Rattle.lldp_pdu.specs.Fault.{fault_of};
ghost use Rattle.lldp_pdu.specs.Capabilities.{caps_of};
ghost use Rattle.lldp_pdu.specs.Code.Seen.{none_seen};
ghost use Rattle.lldp_pdu.specs.FaultNumber.{pdu_fault_number};
ghost use Rattle.lldp_pdu.specs.Frame.{lldpdu_of};
ghost use Rattle.lldp_pdu.specs.Kept.{kept_of, discarded_of, count_unrecognized};
ghost use Rattle.lldp_pdu.specs.Lldpdu.{extent, ttl_of, msap_of};
ghost use Rattle.lldp_pdu.specs.ManagementAddress.{address_of};
ghost use Rattle.lldp_pdu.specs.View.{address_view, tlv_view};
ghost use Rattle.lldp_pdu.specs.declared.fault.PduFault.{PduFault};
ghost use Rattle.lldp_pdu.specs.declared.fields.Caps.{Caps as CapsFields};
ghost use Rattle.lldpa_c.specs.Place.{octets_at};
ghost use Rattle.lldpa_c.specs.Walk.{IsExtent, left_of};

use crate::bodies::{LldpaCapabilities, LldpaManagement, lldpa_caps, lldpa_mgmt};
use crate::examine::{LldpaExamined, lldpa_examine};
use crate::frame::lldpa_frame_pdu;
use crate::kept::{LldpaKept, lldpa_next_kept};
use crate::place::LldpaPlace;
use lldp_pdu::{Caps, Mgmt, Tlv};

/// Finds the LLDPDU of a frame, as `frame_pdu` of lldp_pdu does.
fn pdu_of(frame: &[u8]) -> Option<&[u8]>
    ensures value { option_copied result ≡ lldpdu_of frame.now }
{
    let mut place = LldpaPlace {
        start: 7,
        length: 9,
    };
    if lldpa_frame_pdu(frame, &mut place) {
        prove!(place.start + place.length == frame.len());
        Some(&frame[place.start..])
    } else {
        prove!(place.start == 7 && place.length == 9);
        None
    }
}

/// Finds the range of the LLDPDU of a frame.
fn place_of(frame: &[u8], place: &mut LldpaPlace) -> bool
    ensures value { (if result then Some (octets_at frame.now place.new) else None) ≡ lldpdu_of frame.now }
    ensures none { result ≡ false → place.new ≡ place.old }
{
    lldpa_frame_pdu(frame, place)
}

/// Examines an LLDPDU.
fn examined(pdu: &[u8], told: &mut LldpaExamined) -> u8
    ensures fault { (fault : PduFault) → fault_of pdu.now ≡ Some fault → (result ≡ pdu_fault_number fault) × (told.new ≡ told.old) }
    ensures value { fault_of pdu.now ≡ None → (result ≡ 0) × (told.new.ttl ≡ ttl_of pdu.now)
        × (octets_at pdu.now told.new.chassis ≡ (msap_of pdu.now).chassis) × (octets_at pdu.now told.new.port ≡ (msap_of pdu.now).port) }
    ensures within { fault_of pdu.now ≡ None → (told.new.chassis.start + told.new.chassis.length ≤ length pdu.now)
        × (told.new.port.start + told.new.port.length ≤ length pdu.now) }
    ensures life { fault_of pdu.now ≡ None → 0 < ttl_of pdu.now → (take told.new.extent pdu.now ≡ extent pdu.now)
        × (told.new.extent ≤ length pdu.now)
        × (told.new.discarded ≡ discarded_of pdu.now) × (told.new.unrecognized ≡ count_unrecognized (kept_of pdu.now)) }
    ensures gone { fault_of pdu.now ≡ None → ttl_of pdu.now ≡ 0 → (told.new.extent ≡ 0) × (told.new.discarded ≡ 0) × (told.new.unrecognized ≡ 0) }
{
    lldpa_examine(pdu, told)
}

/// Reads capabilities, as `caps` of lldp_pdu does.
fn capabilities(body: &[u8]) -> Option<Caps>
    ensures { result ≡ caps_of body.now }
{
    let mut told = LldpaCapabilities {
        available: 7,
        enabled: 9,
    };
    if lldpa_caps(body, &mut told) {
        Some(Caps {
            available: told.available,
            enabled: told.enabled,
        })
    } else {
        prove!(told.available == 7 && told.enabled == 9);
        None
    }
}

/// Reads the fields of capabilities.
fn fields(body: &[u8], told: &mut LldpaCapabilities) -> bool
    ensures some { result ≡ true → (c : CapsFields) → caps_of body.now ≡ Some c → (told.new.available ≡ c.available) × (told.new.enabled ≡ c.enabled) }
    ensures is_some { result ≡ true → IsSome (caps_of body.now) }
    ensures none { result ≡ false → caps_of body.now ≡ None }
    ensures kept { result ≡ false → told.new ≡ told.old }
{
    lldpa_caps(body, told)
}

/// Reads a management address, as `mgmt` of lldp_pdu does.
fn management(body: &[u8]) -> Option<Mgmt<'_>>
    ensures { option_map address_view result ≡ address_of body.now }
{
    let none = LldpaPlace {
        start: 7,
        length: 9,
    };
    let mut told = LldpaManagement {
        address: none,
        oid: none,
        interface: 1,
        family: 2,
        numbering: 3,
    };
    if !lldpa_mgmt(body, &mut told) {
        prove!(told.interface == 1 && told.family == 2 && told.numbering == 3);
        prove!(told.address.start == 7 && told.address.length == 9);
        prove!(told.oid.start == 7 && told.oid.length == 9);
        return None;
    }
    Some(Mgmt {
        family: told.family,
        address: &body[told.address.start..told.address.start + told.address.length],
        numbering: told.numbering,
        interface: told.interface,
        oid: &body[told.oid.start..told.oid.start + told.oid.length],
    })
}

/// Reads the fields of a management address, if the body is that of one.
fn address(body: &[u8], told: &mut LldpaManagement) -> bool
    ensures some { result ≡ true → IsSome (address_of body.now) }
    ensures none { result ≡ false → address_of body.now ≡ None }
    ensures kept { result ≡ false → told.new ≡ told.old }
{
    lldpa_mgmt(body, told)
}

/// Finds the next kept TLV.
fn next_kept(octets: &[u8], walk: &mut LldpaKept) -> bool
    ensures begun { IsExtent octets.now → walk.old.next ≡ 0 → walk.old.met ≡ none_seen → left_of octets.now walk.old ≡ kept_of octets.now }
    ensures some { result ≡ true → left_of octets.now walk.old
        ≡ record { kind = walk.new.kind; body = octets_at octets.now walk.new.body } ∷ left_of octets.now walk.new }
    ensures within { result ≡ true → walk.new.body.start + walk.new.body.length ≤ length octets.now }
    ensures none { result ≡ false → (left_of octets.now walk.old ≡ []) × (walk.new ≡ walk.old) }
{
    lldpa_next_kept(octets, walk)
}

/// Looks for a kept TLV where there is none.
fn has_none(octets: &[u8], walk: &mut LldpaKept)
    requires extent { IsExtent octets.now }
    requires begins { (walk.old.next ≡ 0) × (walk.old.met ≡ none_seen) }
    requires none { kept_of octets.now ≡ [] }
    ensures { walk.new ≡ walk.old }
{
    let found = lldpa_next_kept(octets, walk);
    prove!(!found);
}

/// Returns the kept TLV with this number, from 0, by a walk from the first.
fn kept_at(octets: &[u8], n: u32) -> Option<Tlv<'_>>
    requires { IsExtent octets.now }
    ensures { option_map tlv_view result ≡ slice_get (kept_of octets.now) n }
{
    let mut walk = LldpaKept {
        next: 0,
        body: LldpaPlace {
            start: 0,
            length: 0,
        },
        met: [false; 4],
        kind: 0,
    };
    let mut left = n;
    while lldpa_next_kept(octets, &mut walk) {
        if left == 0 {
            return Some(Tlv {
                kind: walk.kind,
                body: &octets[walk.body.start..walk.body.start + walk.body.length],
            });
        }
        left -= 1;
    }
    None
}
