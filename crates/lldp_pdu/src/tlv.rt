//! TLVs, an iterator over the TLVs in a list of octets, and a function that writes a TLV.
ghost use Rattle.std.specs.Prelude.{◌≡◌, ◌+◌, ◌<◌, ◌≤◌, ◌++◌, ℕ, List, length};
ghost use Rattle.std.specs.Option.{option_map};
ghost use Rattle.std.specs.Iterator.{item_count};
ghost use Rattle.arrayvec.specs.ArrayVec.{array_vec_len};
ghost use Rattle.lldp_pdu.specs.Cut.{first_tlv, cut};
ghost use Rattle.lldp_pdu.specs.Range.{most_body};
ghost use Rattle.lldp_pdu.specs.Tlv.{spelling};
ghost use Rattle.lldp_pdu.specs.View.{tlv_view, GivesFirstTlv};

use arrayvec::ArrayVec;
use std::marker::Model;

/// A TLV (IEEE 802.1AB-2009, 8.4).
#[derive(Clone, Copy, Debug, PartialEq, Eq)]
pub struct Tlv<'a> {
    /// The type, below 128.
    pub kind: u8,
    /// The standard's information string, at most 511 octets.
    pub body: &'a [u8],
}

/// An iterator over the complete TLVs of some octets. It returns an End Of LLDPDU like any other
/// TLV and continues after it. `next` removes the TLV at the front of the octets that are left and
/// returns it. If no complete TLV is left, `next` returns None and changes nothing.
#[derive(Debug, Drop)]
pub struct Tlvs<'a> {
    rest: &'a [u8],
}

impl<'a> Model for Tlvs<'a> {
    ghost use Rattle.std.specs.Prelude.{ℕ, List};

    ghost Value = { List ℕ };

    ghost view = { λ t. t.rest.now };
}

impl<'a> Tlvs<'a> {
    /// Returns an iterator over the TLVs of these octets, which may hold any number of TLVs.
    pub fn new(octets: &'a [u8]) -> Tlvs<'a>
        ensures { result ≡ octets.now }
    {
        Tlvs { rest: octets }
    }

    /// Returns the octets not yet read. After the last TLV, they do not begin with a complete TLV.
    pub fn rest(&self) -> &'a [u8]
        ensures { result.now ≡ self.now }
    {
        self.rest
    }
}

impl<'a> Iterator for Tlvs<'a> {
    type Item = Tlv<'a>;

    ghost next_gives = { GivesFirstTlv };

    ghost remaining = { item_count (λ octets. (cut octets).tlvs) };

    fn next(&mut self) -> Option<Tlv<'a>> {
        let (tlv, rest) = first(self.rest)?;
        self.rest = rest;
        Some(tlv)
    }
}

/// Returns the TLV at the front and the octets after it, or None if no complete TLV is there.
fn first(octets: &[u8]) -> Option<(Tlv<'_>, &[u8])>
    ensures { option_map (λ x. (tlv_view x.0, x.1.now)) result ≡ first_tlv octets.now }
{
    let [high, low, after @ ..] = octets else {
        return None;
    };
    let header = u16::from_be_bytes([*high, *low]);
    let (body, others) = after.split_at_checked(usize::from(header & 0x1ff))?;
    let kind = (header >> 9) as u8;
    Some((Tlv { kind, body }, others))
}

/// Appends a TLV (IEEE 802.1AB-2009, 8.4). Its type must be below 128, its body must have at most
/// 511 octets, and there must be room. Use this to write an LLDPDU directly into a frame; the law
/// `drafts_are_read_back` covers such LLDPDUs.
pub fn append_tlv<const N: usize>(octets: &mut ArrayVec<u8, N>, kind: u8, body: &[u8])
    requires kind { kind < 128 }
    requires body { length body.now ≤ most_body }
    requires room { array_vec_len octets.old + 2 + length body.now ≤ N }
    ensures value { octets.new.items ≡ octets.old.items
        ++ spelling (record { kind = kind; body = body.now }) }
    ensures len { array_vec_len octets.new ≡ array_vec_len octets.old + 2 + length body.now }
{
    let header = u16::from(kind) << 9 | body.len() as u16;
    octets.try_extend_from_slice(&header.to_be_bytes()).unwrap();
    octets.try_extend_from_slice(body).unwrap();
}
