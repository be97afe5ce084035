//! The contents of a sound LLDPDU with a TTL above 0.
ghost use Rattle.std.specs.Prelude.{◌≡◌, ◌+◌, ◌*◌, ◌<◌, ◌≤◌, length};
ghost use Rattle.std.specs.List.{AllByRecursion};
ghost use Rattle.lldp_pdu.specs.Msap.{IsIdentifier};
ghost use Rattle.lldp_pdu.specs.Kept.{IsKeptTlv};
ghost use Rattle.lldp_pdu.specs.Info.{TellsItself};
ghost use Rattle.lldp_pdu.specs.View.{msap_view};

use crate::fields::Msap;
use crate::kept::Kept;
use std::marker::Model;

/// The contents of a sound LLDPDU with a TTL above 0.
#[derive(Debug, Drop)]
pub struct Info<'a> {
    pub(crate) msap: Msap<'a>,
    pub(crate) ttl: u16,
    pub(crate) octets: &'a [u8],
    pub(crate) optional: &'a [u8],
    pub(crate) discarded: usize,
    pub(crate) unrecognized: usize,
}

impl<'a> Model for Info<'a> {
    ghost use Rattle.lldp_pdu.specs.Info.{LldpInfo, IsInfo, TellsItself};

    ghost Value = { LldpInfo };

    ghost use Rattle.lldp_pdu.specs.Code.InfoView.{info_view};

    ghost view = { info_view };

    ghost invariant = { λ i. IsInfo (info_view i) × TellsItself (info_view i) };
}

impl<'a> Info<'a> {
    /// Returns the neighbor's MSAP identifier. Its two bodies have 2 to 256 octets each.
    pub fn msap(&self) -> Msap<'a>
        ensures value { msap_view result ≡ self.now.msap }
        ensures chassis { IsIdentifier self.now.msap.chassis }
        ensures port { IsIdentifier self.now.msap.port }
    {
        self.msap
    }

    /// Returns the time to live in seconds, 1 to 65,535.
    pub fn ttl(&self) -> u16
        ensures value { result ≡ self.now.ttl }
        ensures lives { 0 < result }
    {
        self.ttl
    }

    /// Returns the kept TLVs, in order. Each has a type from 4 to 127 and a well-formed body of at
    /// most 511 octets, and none of the types 4 to 7 occurs twice. An extent of n octets has at
    /// most (n - 12) / 2 of them. They are not stored: the iterator reads them again from the
    /// octets, in linear time.
    pub fn kept(&self) -> Kept<'a>
        ensures value { result ≡ self.now.kept }
        ensures each { AllByRecursion IsKeptTlv self.now.kept }
        ensures few { 12 + 2 * length self.now.kept ≤ length self.now.octets }
    {
        Kept::of(self.optional)
    }

    /// Returns the extent: the octets before the End Of LLDPDU, or before an incomplete TLV. It is
    /// a sound LLDPDU with the same contents, except that fewer TLVs may be discarded.
    pub fn octets(&self) -> &'a [u8]
        ensures value { result.now ≡ self.now.octets }
        ensures again { TellsItself self.now }
    {
        self.octets
    }

    /// Returns how many TLVs were discarded, including an incomplete one: at most (n - 10) / 2 for
    /// an extent of n octets.
    pub fn discarded(&self) -> usize
        ensures value { result ≡ self.now.discarded }
        ensures few { 10 + 2 * result ≤ length self.now.octets }
    {
        self.discarded
    }

    /// Returns how many kept TLVs have types 9 to 127: reserved or organizationally specific.
    pub fn unrecognized(&self) -> usize
        ensures value { result ≡ self.now.unrecognized }
        ensures few { result ≤ length self.now.kept }
    {
        self.unrecognized
    }
}
