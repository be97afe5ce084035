//! Examines LLDPDUs.
ghost use Rattle.std.specs.Prelude.{◌≡◌, None, IsSome};
ghost use Rattle.lldp_pdu.specs.Fault.{fault_of};
ghost use Rattle.lldp_pdu.specs.View.{msap_view};
ghost use Rattle.lldpa_c.specs.Examined.{fault_number, Tells, Examines, chassis_place, port_place, told_gone, told_alive};

use crate::place::LldpaPlace;
use lldp_pdu::{Examined, Info, Msap, examine};

/// The fields of an LLDPDU without a fault.
#[repr(C)]
#[derive(Clone, Copy)]
pub struct LldpaExamined {
    /// The range of the Chassis ID's body. The body begins with the subtype.
    pub chassis: LldpaPlace,
    /// The range of the Port ID's body. The body begins with the subtype.
    pub port: LldpaPlace,
    /// The number of octets before the End Of LLDPDU or an incomplete TLV. 0 if the TTL is 0.
    pub extent: usize,
    /// How many TLVs are discarded. 0 if the TTL is 0.
    pub discarded: usize,
    /// How many kept TLVs have a type of 9 to 127. 0 if the TTL is 0.
    pub unrecognized: usize,
    /// The time to live, in seconds. 0 means that the neighbor leaves.
    pub ttl: u16,
}

/// The size in octets of a TLV's header, which has the type and the length.
pub(crate) const TLV_HEADER: usize = 2;

/// Returns the range of the Chassis ID's body in the LLDPDU.
fn chassis_place(msap: &Msap<'_>) -> LldpaPlace
    ensures { result ≡ chassis_place (msap_view msap.now) }
{
    LldpaPlace {
        start: TLV_HEADER,
        length: msap.chassis.len(),
    }
}

/// Returns the range of the Port ID's body in the LLDPDU.
fn port_place(msap: &Msap<'_>) -> LldpaPlace
    ensures { result ≡ port_place (msap_view msap.now) }
{
    LldpaPlace {
        start: TLV_HEADER + msap.chassis.len() + TLV_HEADER,
        length: msap.port.len(),
    }
}

/// Returns the fields of a shutdown LLDPDU.
fn gone(msap: &Msap<'_>) -> LldpaExamined
    ensures { result ≡ told_gone (msap_view msap.now) }
{
    LldpaExamined {
        chassis: chassis_place(msap),
        port: port_place(msap),
        extent: 0,
        discarded: 0,
        unrecognized: 0,
        ttl: 0,
    }
}

/// Returns the fields of an LLDPDU with a TTL above 0.
fn alive(info: &Info<'_>) -> LldpaExamined
    ensures { result ≡ told_alive info.now }
{
    let msap = info.msap();
    LldpaExamined {
        chassis: chassis_place(&msap),
        port: port_place(&msap),
        extent: info.octets().len(),
        discarded: info.discarded(),
        unrecognized: info.unrecognized(),
        ttl: info.ttl(),
    }
}

/// Writes the fields of an LLDPDU of any length, and returns 0. If the LLDPDU has a fault, returns
/// the fault's number, 1 to 8, and leaves the struct unchanged.
pub(crate) fn tell_examined(pdu: &[u8], told: &mut LldpaExamined) -> u8
    ensures fault { result ≡ fault_number (fault_of pdu.now) }
    ensures told { fault_of pdu.now ≡ None → Tells pdu.now told.new }
    ensures refused { IsSome (fault_of pdu.now) → told.new ≡ told.old }
{
    match examine(pdu) {
        Err(fault) => fault.number(),
        Ok(Examined::Shutdown(msap)) => {
            *told = gone(&msap);
            0
        }
        Ok(Examined::Info(info)) => {
            *told = alive(&info);
            0
        }
    }
}

/// Writes the fields of an LLDPDU of any length, or returns the number of its fault, as
/// `tell_examined` does.
#[unsafe(no_mangle)]
pub extern "C" fn lldpa_examine(pdu: &[u8], told: &mut LldpaExamined) -> u8
    ensures told { Examines pdu.now told.old result told.new }
{
    tell_examined(pdu, told)
}
