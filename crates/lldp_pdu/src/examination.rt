//! Checks and reads a whole LLDPDU.
ghost use Rattle.std.specs.Prelude.{◌≡◌, ◌+◌, ◌-◌, ◌<◌, ◌≤◌, Bool, true, false, ◌&&◌, List, length, nat_lt, Some, None, IfOk, IfErr, OnErr, if◌then◌else◌};
ghost use Rattle.std.specs.Result.{result_err};
ghost use Rattle.std.specs.List.{list_any};
ghost use Rattle.lldp_pdu.specs.Cut.{cut};
ghost use Rattle.lldp_pdu.specs.Lldpdu.{before_end};
ghost use Rattle.lldp_pdu.specs.Fault.{fault_of, is_mandatory};
ghost use Rattle.lldp_pdu.specs.View.{msap_view};
ghost use Rattle.lldp_pdu.specs.declared.fault.PduFault.TheVariants.{Repeated};
ghost use Rattle.lldp_pdu.specs.Examined.{Answers, IsWithin};
ghost use Rattle.lldp_pdu.specs.Code.Survey.{OpensWith, IsSurveyOf};

use crate::fault::PduFault;
use crate::fields::Msap;
use crate::info::Info;
use crate::limits::MOST_IDENTIFIER;
use crate::seen::Seen;
use crate::tlv::Tlvs;
use crate::tlv_type::{CHASSIS_ID, END_OF_LLDPDU, FIRST_RESERVED, PORT_ID, TIME_TO_LIVE};

/// The result of examining a sound LLDPDU, that is, one that passes every check.
#[derive(Debug, Drop)]
pub enum Examined<'a> {
    /// The TTL is 0: the neighbor with this MSAP identifier has shut down.
    Shutdown(Msap<'a>),
    Info(Info<'a>),
}

/// The mandatory TLVs, and the octets after them.
#[derive(Drop)]
struct Mandatory<'a> {
    msap: Msap<'a>,
    ttl: u16,
    after: &'a [u8],
}

/// The TLVs between the mandatory ones and the End Of LLDPDU or the first incomplete TLV.
#[derive(Drop)]
struct Optional<'a> {
    octets: &'a [u8],
    discarded: usize,
    unrecognized: usize,
}

#[tactic(auto, unfolding(crate::specs::Fault::fault_of))]
fn mandatory_tlvs(pdu: &[u8]) -> Result<Mandatory<'_>, PduFault>
    ensures err { IfErr result (λ f. fault_of pdu.now ≡ Some f) }
    ensures ok { IfOk result (λ m. OpensWith pdu.now (msap_view m.msap) m.ttl m.after.now) }
{
    let mut tlvs = Tlvs::new(pdu);
    let Some(chassis) = tlvs.next() else {
        return Err(PduFault::Truncated);
    };
    if chassis.kind != CHASSIS_ID {
        return Err(PduFault::NoChassis);
    }
    if chassis.body.len() < 2 || chassis.body.len() > MOST_IDENTIFIER {
        return Err(PduFault::ChassisLength);
    }
    let Some(port) = tlvs.next() else {
        return Err(PduFault::Truncated);
    };
    if port.kind != PORT_ID {
        return Err(PduFault::NoPort);
    }
    if port.body.len() < 2 || port.body.len() > MOST_IDENTIFIER {
        return Err(PduFault::PortLength);
    }
    let Some(ttl) = tlvs.next() else {
        return Err(PduFault::Truncated);
    };
    if ttl.kind != TIME_TO_LIVE {
        return Err(PduFault::NoTtl);
    }
    let [high, low, ..] = ttl.body else {
        return Err(PduFault::TtlLength);
    };
    Ok(Mandatory {
        msap: Msap {
            chassis: chassis.body,
            port: port.body,
        },
        ttl: u16::from_be_bytes([*high, *low]),
        after: tlvs.rest(),
    })
}

/// Returns the number of incomplete TLVs, which are discarded: 1 if octets are left, otherwise 0.
fn incomplete_tlvs(rest: &[u8]) -> usize
    ensures { result ≡ (if nat_lt 0 (length rest.now) then 1 else 0) }
{
    usize::from(!rest.is_empty())
}

fn optional_tlvs(after: &[u8]) -> Result<Optional<'_>, PduFault>
    ensures repeated { result_err result
        ≡ (if list_any is_mandatory (before_end (cut after.now).tlvs)
        then Some Repeated else None) }
    ensures ok { IfOk result (λ o. IsSurveyOf after.now o.octets.now o.discarded o.unrecognized) }
{
    let mut tlvs = Tlvs::new(after);
    let mut seen = Seen::NONE;
    let mut len = 0;
    let mut discarded = 0;
    let mut unrecognized = 0;
    while let Some(tlv) = tlvs.next() {
        if tlv.kind <= TIME_TO_LIVE {
            if tlv.kind == END_OF_LLDPDU {
                return Ok(Optional {
                    octets: &after[..len],
                    discarded,
                    unrecognized,
                });
            }
            return Err(PduFault::Repeated);
        }
        len += 2 + tlv.body.len();
        if !seen.keeps(&tlv) {
            discarded += 1;
        } else if tlv.kind >= FIRST_RESERVED {
            unrecognized += 1;
        }
    }
    Ok(Optional {
        octets: &after[..len],
        discarded: discarded + incomplete_tlvs(tlvs.rest()),
        unrecognized,
    })
}

/// Examines an LLDPDU of any length. Returns Shutdown with the MSAP identifier if the TTL is 0, and
/// otherwise an Info with the contents that `info_of` defines. The result borrows from `pdu`, and
/// the octets of an Info are the beginning of `pdu`.
///
/// Returns the fault of the first check that fails. The checks are in the order of `PduFault`,
/// except that Truncated is checked before each of the three mandatory TLVs. If the TTL is 0,
/// nothing after the third TLV is read (IEEE 802.1AB-2009, 8.2 and 9.2.7.7).
pub fn examine(pdu: &[u8]) -> Result<Examined<'_>, PduFault>
    ensures fault { result_err result ≡ fault_of pdu.now }
    ensures answer { IfOk result (Answers pdu.now) }
    ensures within { IfOk result (IsWithin pdu.now) }
{
    let mandatory = mandatory_tlvs(pdu)?;
    if mandatory.ttl == 0 {
        return Ok(Examined::Shutdown(mandatory.msap));
    }
    let found = optional_tlvs(mandatory.after)?;
    let end = pdu.len() - mandatory.after.len() + found.octets.len();
    Ok(Examined::Info(Info {
        msap: mandatory.msap,
        ttl: mandatory.ttl,
        octets: &pdu[..end],
        optional: found.octets,
        discarded: found.discarded,
        unrecognized: found.unrecognized,
    }))
}
