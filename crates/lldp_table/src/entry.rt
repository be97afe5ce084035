//! A neighbor that a table holds.
ghost use Rattle.std.specs.Prelude.{◌≡◌, ◌+◌, ◌*◌, ◌<◌, ◌≤◌, length};
ghost use Rattle.std.specs.List.{AllByRecursion};
ghost use Rattle.lldp_pdu.specs.Msap.{IsIdentifier};
ghost use Rattle.lldp_pdu.specs.Kept.{kept_of, IsKeptTlv};
ghost use Rattle.lldp_pdu.specs.View.{msap_view};
ghost use Rattle.lldp_table.specs.Contents.{IsExtent};

use crate::slot::Slot;
use lldp_pdu::{Kept, Msap};
use std::marker::Model;

/// A neighbor that a table holds.
#[derive(Drop)]
pub struct Entry<'a> {
    pub(crate) slot: &'a Slot,
    pub(crate) left: u16,
}

impl<'a> Model for Entry<'a> {
    ghost use Rattle.lldp_table.specs.Events.{Neighbor};

    ghost Value = { Neighbor };

    ghost use Rattle.lldp_table.specs.Contents.{IsHeld};
    ghost use Rattle.lldp_table.specs.Code.Layout.{neighbor_of};

    ghost view = { λ e. neighbor_of e.slot.now e.left };

    ghost invariant = { λ e. IsHeld (neighbor_of e.slot.now e.left) };
}

impl<'a> Entry<'a> {
    /// Returns the neighbor's MSAP identifier. Its two bodies have 2 to 256 octets each.
    pub fn msap(&self) -> Msap<'a>
        ensures value { msap_view result ≡ self.now.msap }
        ensures chassis { IsIdentifier self.now.msap.chassis }
        ensures port { IsIdentifier self.now.msap.port }
    {
        self.slot.msap()
    }

    /// Returns the time to live that was received, in seconds, at least 1.
    pub fn ttl(&self) -> u16
        ensures value { result ≡ self.now.ttl }
        ensures lives { 0 < result }
    {
        self.slot.ttl()
    }

    /// Returns how many ticks (seconds) are left: at least 1, and at most the TTL.
    pub fn left(&self) -> u16
        ensures value { result ≡ self.now.left }
        ensures lives { 0 < result }
        ensures most { result ≤ self.now.ttl }
    {
        self.left
    }

    /// Returns the kept TLVs of the neighbor's frame, in order, read again from the stored octets.
    /// Each is well formed. Their number is at most half the number of octets after the first 12.
    pub fn kept(&self) -> Kept<'a>
        ensures value { result ≡ kept_of self.now.octets }
        ensures each { AllByRecursion IsKeptTlv (kept_of self.now.octets) }
        ensures few { 12 + 2 * length (kept_of self.now.octets) ≤ length self.now.octets }
    {
        Kept::of_extent(self.octets())
    }

    /// Returns the extent of the neighbor's last stored LLDPDU, at most 1,500 octets.
    pub fn octets(&self) -> &'a [u8]
        ensures value { result.now ≡ self.now.octets }
        ensures extent { IsExtent self.now.msap self.now.ttl self.now.octets }
    {
        self.slot.octets()
    }
}
