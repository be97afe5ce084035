//! A builder of LLDPDUs.
ghost use Rattle.std.specs.Prelude.{◌≡◌, ◌+◌, ◌≤◌, ◌++◌, [], None, OnOk, OnErr};
ghost use Rattle.arrayvec.specs.ArrayVec.{array_vec_len};
ghost use Rattle.lldp_pdu.specs.Tlv.{spelling};
ghost use Rattle.std.specs.Result.{result_err};
ghost use Rattle.lldp_pdu.specs.TlvType.{port_description_type, organizationally_specific_type};
ghost use Rattle.lldp_pdu.specs.Range.{is_between};
ghost use Rattle.lldp_pdu.specs.Fault.{fault_of};
ghost use Rattle.lldp_pdu.specs.Lldpdu.{msap_of, ttl_of};
ghost use Rattle.lldp_pdu.specs.Info.{info_of};
ghost use Rattle.lldp_pdu.specs.View.{tlv_view};
ghost use Rattle.lldp_pdu.specs.Draft.{end_of_lldpdu, with_tlv, put_fault, lldpdu_octets, info_of_draft};

use crate::bodies::body_is_well_formed;
use crate::fault::BuildFault;
use crate::limits::{MOST_BODY, MOST_OCTETS};
use crate::seen::Seen;
use crate::tlv::{Tlv, append_tlv};
use crate::tlv_type::{
    CHASSIS_ID, END_OF_LLDPDU, ORGANIZATIONALLY_SPECIFIC, PORT_DESCRIPTION, PORT_ID, TIME_TO_LIVE,
};
use arrayvec::ArrayVec;
use std::marker::Model;

/// An LLDPDU under construction, of at most 1,500 octets including its End Of LLDPDU TLV.
#[derive(Drop)]
pub struct Builder {
    octets: ArrayVec<u8, MOST_OCTETS>,
    met: Seen,
    lives: bool,
}

impl Model for Builder {
    ghost use Rattle.lldp_pdu.specs.Draft.{Draft};

    ghost Value = { Draft };

    ghost use Rattle.lldp_pdu.specs.Code.BuilderView.{draft_view, Builds};

    ghost view = { draft_view };

    ghost invariant = { λ b. Builds b.octets.items b.met.types b.lives };
}

/// Returns whether TLVs of this type may follow the mandatory TLVs.
fn is_optional_type(kind: u8) -> bool
    ensures { result ≡ is_between port_description_type kind organizationally_specific_type }
{
    (PORT_DESCRIPTION..=ORGANIZATIONALLY_SPECIFIC).contains(&kind)
}

/// Appends the End Of LLDPDU (IEEE 802.1AB-2009, 8.5.1).
fn append_end(octets: &mut ArrayVec<u8, MOST_OCTETS>)
    requires { array_vec_len octets.old + 2 ≤ MOST_OCTETS }
    ensures { octets.new.items ≡ octets.old.items ++ spelling end_of_lldpdu }
{
    append_tlv(octets, END_OF_LLDPDU, &[]);
}

impl Builder {
    ghost use Rattle.std.specs.Prelude.{◌≡◌, ◌==◌, ◌<◌, ◌≤◌, [], length, None, OnOk, OnErr};
    ghost use Rattle.lldp_pdu.specs.Msap.{IsIdentifier};

    /// Begins an LLDPDU with its three mandatory TLVs. `chassis` and `port` are the bodies of the
    /// Chassis ID and the Port ID, 2 to 256 octets each; `ttl` is in seconds. A TTL of 0 makes a
    /// shutdown LLDPDU, which can have no other TLVs.
    pub fn begin(chassis: &[u8], port: &[u8], ttl: u16) -> Builder
        requires chassis { IsIdentifier chassis.now }
        requires port { IsIdentifier port.now }
        ensures { result
            ≡ record {
              msap = record { chassis = chassis.now; port = port.now };
              ttl = ttl;
              tlvs = [];
            } }
    {
        let mut octets = ArrayVec::new();
        append_tlv(&mut octets, CHASSIS_ID, chassis);
        append_tlv(&mut octets, PORT_ID, port);
        append_tlv(&mut octets, TIME_TO_LIVE, &ttl.to_be_bytes());
        Builder {
            octets,
            met: Seen::NONE,
            lives: ttl > 0,
        }
    }

    /// Returns whether the TTL is 0.
    #[tactic(auto, using(crate::proofs::Drafts::tells_shutdown))]
    fn is_shutdown(&self) -> bool
        ensures { result ≡ (self.now.ttl == 0) }
    {
        !self.lives
    }

    /// Returns why this TLV can't be put next, or None if it can.
    fn refusal(&self, tlv: &Tlv<'_>) -> Option<BuildFault>
        ensures { result ≡ put_fault self.now (tlv_view tlv.now) }
    {
        if !is_optional_type(tlv.kind) {
            return Some(BuildFault::Kind);
        }
        if self.is_shutdown() {
            return Some(BuildFault::Kind);
        }
        if self.met.has(tlv.kind) {
            return Some(BuildFault::Kind);
        }
        if tlv.body.len() > MOST_BODY {
            return Some(BuildFault::Body);
        }
        if !body_is_well_formed(tlv) {
            return Some(BuildFault::Body);
        }
        if self.octets.len() + tlv.body.len() + 4 > MOST_OCTETS {
            return Some(BuildFault::Full);
        }
        None
    }

    /// Adds a TLV after those already put.
    ///
    /// If one of these faults applies, returns the first and changes nothing. Kind: the type is not
    /// 4 to 127, or it is one of 4 to 7 and was put before, or the TTL is 0. Body: the body has
    /// more than 511 octets or is not well formed for its type. Full: the TLV and the End Of LLDPDU
    /// do not fit in 1,500 octets.
    pub fn put(&mut self, kind: u8, body: &[u8]) -> Result<(), BuildFault>
        ensures fault { result_err result
            ≡ put_fault self.old (record { kind = kind; body = body.now }) }
        ensures ok { OnOk result (self.new
            ≡ with_tlv self.old (record { kind = kind; body = body.now })) }
        ensures err { OnErr result (self.new ≡ self.old) }
    {
        if let Some(fault) = self.refusal(&Tlv { kind, body }) {
            return Err(fault);
        }
        append_tlv(&mut self.octets, kind, body);
        self.met.add(kind);
        Ok(())
    }

    /// Returns the finished LLDPDU, with the End Of LLDPDU as its last TLV. The LLDPDU is sound.
    /// Examining it returns the MSAP identifier and the TTL given to `begin` and every TLV that was
    /// put; none is discarded.
    pub fn finish(self) -> ArrayVec<u8, MOST_OCTETS>
        ensures octets { result.items ≡ lldpdu_octets self }
        ensures sound { fault_of result.items ≡ None }
        ensures msap { msap_of result.items ≡ self.msap }
        ensures ttl { ttl_of result.items ≡ self.ttl }
        ensures info { info_of result.items ≡ info_of_draft self }
    {
        let mut octets = self.octets;
        append_end(&mut octets);
        octets
    }
}
