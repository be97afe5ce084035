//! Writes what a frame did.
ghost use Rattle.std.specs.Prelude.{◌≡◌, Some, None};
ghost use Rattle.lldp_pdu.specs.Msap.{MsapId};
ghost use Rattle.lldp_pdu.specs.View.{msap_view};
ghost use Rattle.lldp_engine.specs.Told.{told_of};
ghost use Rattle.lldpa_c.specs.News.{outcome_number, news_number, news_fault, news_name, PlacesName, TellsNoName};

use crate::examine::TLV_HEADER;
use crate::frame::HEADER;
use crate::place::LldpaPlace;
use lldp_engine::Told;
use lldp_pdu::Msap;
use lldp_table::Outcome;

/// The octets are not an LLDP frame.
pub const NOT_LLDP: u32 = 1;

/// The port does not receive, or its link is down.
pub const DEAF: u32 = 2;

/// The LLDPDU has a fault.
pub const REFUSED: u32 = 3;

/// A neighbor that was not held is stored.
pub const NEW: u32 = 4;

/// A neighbor that is held sent different octets.
pub const CHANGED: u32 = 5;

/// A neighbor that is held sent the same octets as before.
pub const SAME: u32 = 6;

/// There is no room for a neighbor that is not held.
pub const DROPPED: u32 = 7;

/// A neighbor that is held leaves.
pub const GONE: u32 = 8;

/// A neighbor that is not held leaves.
pub const UNKNOWN: u32 = 9;

/// What a frame does, and to which neighbor.
#[repr(C)]
#[derive(Clone, Copy)]
pub struct LldpaNews {
    /// The range of the Chassis ID's body in the frame. The body begins with the subtype.
    pub chassis: LldpaPlace,
    /// The range of the Port ID's body in the frame. The body begins with the subtype.
    pub port: LldpaPlace,
    pub what: u32,
    /// The number of the fault of the LLDPDU, or 0.
    pub fault: u32,
}

const NOWHERE: LldpaPlace = LldpaPlace {
    start: 0,
    length: 0,
};

/// Returns news without a neighbor: both ranges are empty.
fn unnamed(what: u32, fault: u32) -> LldpaNews
    ensures what { result.what ≡ what }
    ensures fault { result.fault ≡ fault }
    ensures name { TellsNoName result }
{
    LldpaNews {
        chassis: NOWHERE,
        port: NOWHERE,
        what,
        fault,
    }
}

/// Returns news about the neighbor with this MSAP identifier.
fn named(what: u32, name: &Msap<'_>) -> LldpaNews
    ensures what { result.what ≡ what }
    ensures fault { result.fault ≡ 0 }
    ensures name { PlacesName result (msap_view name.now) }
{
    LldpaNews {
        chassis: LldpaPlace {
            start: HEADER + TLV_HEADER,
            length: name.chassis.len(),
        },
        port: LldpaPlace {
            start: HEADER + (TLV_HEADER + name.chassis.len() + TLV_HEADER),
            length: name.port.len(),
        },
        what,
        fault: 0,
    }
}

/// Returns the number of what a frame with a TTL above 0 did.
fn outcome_number(outcome: Outcome) -> u32
    ensures { result ≡ outcome_number outcome }
{
    match outcome {
        Outcome::Added => NEW,
        Outcome::Changed => CHANGED,
        Outcome::Repeated => SAME,
        Outcome::NoRoom => DROPPED,
    }
}

/// Returns the news of a frame, from what its step told.
pub(crate) fn news_of(told: &Told<'_>) -> LldpaNews
    ensures what { result.what ≡ news_number (told_of told.now) }
    ensures fault { result.fault ≡ news_fault (told_of told.now) }
    ensures none { news_name (told_of told.now) ≡ None → TellsNoName result }
    ensures named { (name : MsapId) → news_name (told_of told.now) ≡ Some name →
        PlacesName result name }
{
    match told {
        Told::Nothing | Told::NotLldp => unnamed(NOT_LLDP, 0),
        Told::Deaf => unnamed(DEAF, 0),
        Told::Refused(fault) => unnamed(REFUSED, u32::from(fault.number())),
        Told::Stored { name, outcome } => named(outcome_number(*outcome), name),
        Told::Left { name, held: true } => named(GONE, name),
        Told::Left { name, held: false } => named(UNKNOWN, name),
    }
}
