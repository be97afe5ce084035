//! Walks over the kept TLVs of an LLDPDU.
ghost use Rattle.std.specs.Prelude.{◌≡◌, ◌-◌, [], ◌∷◌, drop, None, IfNone, IfSome};
ghost use Rattle.lldp_pdu.specs.Cut.{cut};
ghost use Rattle.lldp_pdu.specs.View.{tlv_view};
ghost use Rattle.lldp_pdu.specs.Kept.{kept_of};
ghost use Rattle.lldp_pdu.specs.Code.Seen.{none_seen, kept_seen};
ghost use Rattle.lldpa_c.specs.Place.{EndsWith};
ghost use Rattle.lldpa_c.specs.Walk.{tlvs_from, left_of, IsExtent, GivesKept, Advances};

use crate::place::LldpaPlace;
use lldp_pdu::{Seen, Tlv, Tlvs};

/// The state of a walk over the kept TLVs. All fields are 0 at the start.
#[repr(C)]
#[derive(Clone, Copy)]
pub struct LldpaKept {
    /// The offset where the walk continues. 0 for the first TLV after the mandatory ones.
    pub next: usize,
    /// The body of the TLV that was found last.
    pub body: LldpaPlace,
    /// For each of the types 4 to 7, whether a well-formed TLV was found.
    pub met: [bool; 4],
    /// The type of the TLV that was found last.
    pub kind: u8,
}

/// A kept TLV, the types found up to and including this TLV, and the octets after the TLV.
#[derive(Drop)]
struct Found<'a> {
    tlv: Tlv<'a>,
    seen: Seen,
    rest: &'a [u8],
}

/// Returns the octets after the first TLV, or all octets if there is no TLV.
fn behind_first(octets: &[u8]) -> &[u8]
    ensures tlvs { (cut result.now).tlvs ≡ drop 1 (cut octets.now).tlvs }
    ensures place { EndsWith octets.now result.now }
{
    let mut tlvs = Tlvs::new(octets);
    match tlvs.next() {
        Some(_) => tlvs.rest(),
        None => octets,
    }
}

/// Returns the octets from the offset at which a walk continues.
fn rest_from(extent: &[u8], next: usize) -> &[u8]
    ensures tlvs { (cut result.now).tlvs ≡ tlvs_from extent.now next }
    ensures place { EndsWith extent.now result.now }
{
    if next == 0 {
        behind_first(behind_first(behind_first(extent)))
    } else {
        &extent[next.min(extent.len())..]
    }
}

/// Returns the first kept TLV in these octets. `met` says which types were found before them.
fn first_kept(octets: &[u8], met: Seen) -> Option<Found<'_>>
    ensures none { IfNone result (kept_seen met.types (cut octets.now).tlvs ≡ []) }
    ensures some { IfSome result (λ found. kept_seen met.types (cut octets.now).tlvs
        ≡ tlv_view found.tlv ∷ kept_seen found.seen.types (cut found.rest.now).tlvs) }
    ensures place { IfSome result (λ found.
        GivesKept octets.now found.tlv.body.now found.rest.now) }
{
    let mut tlvs = Tlvs::new(octets);
    let mut seen = met;
    while let Some(tlv) = tlvs.next() {
        if seen.keeps(&tlv) {
            return Some(Found {
                tlv,
                seen,
                rest: tlvs.rest(),
            });
        }
    }
    None
}

/// Advances a walk to the next kept TLV of an extent (the octets before the End Of LLDPDU or an
/// incomplete TLV). Returns false, and leaves the walk unchanged, if no TLV is left.
#[unsafe(no_mangle)]
pub extern "C" fn lldpa_next_kept(extent: &[u8], walk: &mut LldpaKept) -> bool
    ensures given { Advances extent.now walk.old result walk.new }
    ensures begun { IsExtent extent.now → walk.old.next ≡ 0 → walk.old.met ≡ none_seen →
        left_of extent.now walk.old ≡ kept_of extent.now }
{
    let rest = rest_from(extent, walk.next);
    let Some(found) = first_kept(rest, Seen { types: walk.met }) else {
        return false;
    };
    let next = extent.len() - found.rest.len();
    *walk = LldpaKept {
        next,
        body: LldpaPlace {
            start: next - found.tlv.body.len(),
            length: found.tlv.body.len(),
        },
        met: found.seen.types,
        kind: found.tlv.kind,
    };
    true
}
