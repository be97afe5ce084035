//! The memory for one neighbor.
ghost use Rattle.std.specs.Prelude.{◌≡◌, ◌+◌, ◌*◌, ◌%◌, ◌≤◌, ◌<◌, ◌^◌, true, length};
ghost use Rattle.std.specs.Str.{bytes_eq};
ghost use Rattle.lldp_pdu.specs.Cut.{cut};
ghost use Rattle.lldp_pdu.specs.Lldpdu.{msap_of, tlv_at};
ghost use Rattle.lldp_pdu.specs.View.{msap_view};
ghost use Rattle.lldp_table.specs.Msap.{same_msap};
ghost use Rattle.lldp_table.specs.Code.Layout.{blank};
ghost use Rattle.lldp_table.specs.Code.Stored.{mixed, tag_of};

use lldp_pdu::{MOST_OCTETS, Msap, Tlvs};
use std::marker::Model;

/// The memory for one neighbor. It stores the extent of the neighbor's frame.
#[derive(Drop)]
pub(crate) struct Slot {
    ttl: u16,
    /// How many octets are stored.
    length: u16,
    /// The first `length` octets are stored. The others are left over from earlier frames.
    room: [u8; MOST_OCTETS],
}

impl Model for Slot {
    ghost use Rattle.std.specs.Prelude.{take};
    ghost use Rattle.lldp_table.specs.Code.Stored.{Stored, IsSlot};

    ghost Value = { Stored };

    ghost view = { λ s. record { octets = take s.length s.room; ttl = s.ttl } };

    ghost invariant = { λ s. IsSlot s.room s.length };
}

/// Returns the body of the next TLV, or no octets if there is none.
fn next_body<'a>(tlvs: &mut Tlvs<'a>) -> &'a [u8]
    ensures first { result.now ≡ (tlv_at (cut tlvs.old).tlvs 0).body }
    ensures second { tlv_at (cut tlvs.new).tlvs 0 ≡ tlv_at (cut tlvs.old).tlvs 1 }
{
    match tlvs.next() {
        Some(tlv) => tlv.body,
        None => &[],
    }
}

/// Returns the MSAP identifier in an LLDPDU: the bodies of its first two TLVs.
fn msap_in(octets: &[u8]) -> Msap<'_>
    ensures { msap_view result ≡ msap_of octets.now }
{
    let mut tlvs = Tlvs::new(octets);
    let chassis = next_body(&mut tlvs);
    let port = next_body(&mut tlvs);
    Msap { chassis, port }
}

/// The factor by which a tag is multiplied for each octet that is mixed into it. It is odd, so no octet
/// is lost.
const FACTOR: u8 = 31;

/// Mixes these octets into a tag, one after another.
fn mix_octets(tag: u8, octets: &[u8]) -> u8
    ensures { result ≡ mixed tag octets.now }
{
    let mut mix = tag;
    for octet in octets {
        mix = mix.wrapping_mul(FACTOR).wrapping_add(*octet);
    }
    mix
}

/// Returns the tag of an MSAP identifier: a mix of all its octets.
pub(crate) fn mix_name(name: &Msap<'_>) -> u8
    ensures { result ≡ tag_of (msap_view name.now) }
{
    mix_octets(mix_octets(0, name.chassis), name.port)
}

impl Slot {
    pub(crate) fn blank() -> Slot
        ensures { result ≡ blank }
    {
        Slot {
            ttl: 0,
            length: 0,
            room: [0; MOST_OCTETS],
        }
    }

    /// Returns the stored octets.
    pub(crate) fn octets(&self) -> &[u8]
        ensures value { result.now ≡ self.now.octets }
        ensures short { length result.now ≤ MOST_OCTETS }
    {
        &self.room[..usize::from(self.length)]
    }

    pub(crate) fn ttl(&self) -> u16
        ensures { result ≡ self.now.ttl }
    {
        self.ttl
    }

    pub(crate) fn msap(&self) -> Msap<'_>
        ensures { msap_view result ≡ msap_of self.now.octets }
    {
        msap_in(self.octets())
    }

    /// Returns whether the stored frame has the MSAP identifier `name`.
    pub(crate) fn is_named(&self, name: &Msap<'_>) -> bool
        ensures { result ≡ same_msap (msap_view name.now) (msap_of self.now.octets) }
    {
        let held = self.msap();
        name.port == held.port && name.chassis == held.chassis
    }

    /// Stores a frame in place of the previous one. Returns whether the octets are the same as before.
    pub(crate) fn store(&mut self, octets: &[u8], ttl: u16) -> bool
        requires { length octets.now ≤ MOST_OCTETS }
        ensures octets { self.new.octets ≡ octets.now }
        ensures ttl { self.new.ttl ≡ ttl }
        ensures same { result ≡ bytes_eq self.old.octets octets.now }
    {
        self.ttl = ttl;
        if self.octets() == octets {
            return true;
        }
        self.room[..octets.len()].copy_from_slice(octets);
        self.length = octets.len() as u16;
        false
    }
}
