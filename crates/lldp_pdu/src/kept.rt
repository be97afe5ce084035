//! The kept TLVs of an LLDPDU.
ghost use Rattle.std.specs.Prelude.{◌≡◌, ℕ, ◌+◌, ◌*◌, ◌<◌, ◌≤◌, List, length, drop, None};
ghost use Rattle.std.specs.Iterator.{item_count, YieldsFirstBy};
ghost use Rattle.std.specs.List.{AllByRecursion};
ghost use Rattle.lldp_pdu.specs.Tlv.{TlvUnit};
ghost use Rattle.lldp_pdu.specs.Cut.{cut};
ghost use Rattle.lldp_pdu.specs.Code.Seen.{none_seen, kept_seen};
ghost use Rattle.lldp_pdu.specs.Fault.{fault_of};
ghost use Rattle.lldp_pdu.specs.Kept.{kept_of, IsKeptTlv};
ghost use Rattle.lldp_pdu.specs.Lldpdu.{extent, ttl_of};
ghost use Rattle.lldp_pdu.specs.View.{tlv_view};

use crate::seen::Seen;
use crate::tlv::{Tlv, Tlvs};
use std::marker::Model;

/// The kept TLVs of an LLDPDU, in order.
#[derive(Debug, Drop)]
pub struct Kept<'a> {
    tlvs: Tlvs<'a>,
    seen: Seen,
}

impl<'a> Model for Kept<'a> {
    ghost use Rattle.std.specs.Prelude.{ℕ, List};
    ghost use Rattle.lldp_pdu.specs.Tlv.{TlvUnit};
    ghost use Rattle.lldp_pdu.specs.Cut.{cut};
    ghost use Rattle.lldp_pdu.specs.Code.Seen.{kept_seen};

    ghost Value = { List TlvUnit };

    ghost view = { λ k. kept_seen k.seen.types (cut k.tlvs).tlvs };
}

/// Returns the octets after the first TLV, or all of them if they do not begin with a TLV.
fn behind_first(octets: &[u8]) -> &[u8]
    ensures { (cut result.now).tlvs ≡ drop 1 (cut octets.now).tlvs }
{
    let mut tlvs = Tlvs::new(octets);
    match tlvs.next() {
        Some(_) => tlvs.rest(),
        None => octets,
    }
}

impl<'a> Kept<'a> {
    /// Returns the kept TLVs of an extent, such as `Info::octets` returns. `octets` must be a sound
    /// LLDPDU with a TTL above 0 and equal to its own extent. The types, lengths and number of the
    /// TLVs have the same bounds as for `Info::kept`.
    pub fn of_extent(octets: &'a [u8]) -> Kept<'a>
        requires sound { fault_of octets.now ≡ None }
        requires lives { 0 < ttl_of octets.now }
        requires whole { extent octets.now ≡ octets.now }
        ensures value { result ≡ kept_of octets.now }
        ensures each { AllByRecursion IsKeptTlv (kept_of octets.now) }
        ensures few { 12 + 2 * length (kept_of octets.now) ≤ length octets.now }
    {
        Kept::of(behind_first(behind_first(behind_first(octets))))
    }

    /// Returns the kept TLVs of octets that begin after the mandatory TLVs.
    pub(crate) fn of(octets: &'a [u8]) -> Kept<'a>
        ensures { result ≡ kept_seen none_seen (cut octets.now).tlvs }
    {
        Kept {
            tlvs: Tlvs::new(octets),
            seen: Seen::NONE,
        }
    }
}

impl<'a> Iterator for Kept<'a> {
    type Item = Tlv<'a>;

    ghost next_gives = { YieldsFirstBy tlv_view (λ kept. kept) };

    ghost remaining = { item_count (λ kept. kept) };

    fn next(&mut self) -> Option<Tlv<'a>> {
        while let Some(tlv) = self.tlvs.next() {
            if self.seen.keeps(&tlv) {
                return Some(tlv);
            }
        }
        None
    }
}
