//! Flags for the types 4 to 7: only the first well-formed TLV of each of these types is kept.
ghost use Rattle.std.specs.Prelude.{◌≡◌};
ghost use Rattle.lldp_pdu.specs.Kept.{is_single};
ghost use Rattle.lldp_pdu.specs.Code.Seen.{has_flag, with_flag, is_kept_seen, seen_after};
ghost use Rattle.lldp_pdu.specs.View.{tlv_view};

use crate::bodies::body_is_well_formed;
use crate::tlv::Tlv;
use crate::tlv_type::{
    FIRST_RESERVED, ORGANIZATIONALLY_SPECIFIC, PORT_DESCRIPTION, SYSTEM_CAPABILITIES,
};

/// Returns whether the type is 4 to 7. At most one TLV of each of these types is kept.
fn counts_once(kind: u8) -> bool
    ensures { result ≡ is_single kind }
{
    (PORT_DESCRIPTION..=SYSTEM_CAPABILITIES).contains(&kind)
}

/// Records for each of the types 4 to 7 whether a well-formed TLV of that type has occurred. Code
/// that reads an LLDPDU in parts, without a `Kept`, keeps this value between the parts.
#[derive(Clone, Copy, Debug)]
pub struct Seen {
    /// One flag for each type from Port Description to System Capabilities.
    pub types: [bool; 4],
}

impl Seen {
    /// No type has occurred.
    pub const NONE: Seen = Seen { types: [false; 4] };

    /// Returns whether the type has a flag and the flag is set.
    #[tactic(auto, unfolding(crate::specs::Code::Seen::has_flag))]
    pub(crate) fn has(&self, kind: u8) -> bool
        ensures { result ≡ has_flag self.now.types kind }
    {
        counts_once(kind) && self.types[usize::from(kind - PORT_DESCRIPTION)]
    }

    /// Records that a TLV of the type has occurred, if the type has a flag.
    #[tactic(auto, unfolding(crate::specs::Code::Seen::with_flag))]
    pub(crate) fn add(&mut self, kind: u8)
        ensures { self.new.types ≡ with_flag self.old.types kind }
    {
        if counts_once(kind) {
            self.types[usize::from(kind - PORT_DESCRIPTION)] = true;
        }
    }

    /// Returns whether the next TLV is kept, and records its type if the TLV is well formed. The
    /// types from 9 on, which most TLVs have, need one test.
    #[inline(always)]
    #[tactic(auto, unfolding(crate::specs::WellFormed::is_well_formed, crate::specs::Code::Seen::has_flag, crate::specs::Code::Seen::with_flag))]
    pub fn keeps(&mut self, tlv: &Tlv<'_>) -> bool
        ensures kept { result ≡ is_kept_seen self.old.types (tlv_view tlv.now) }
        ensures met { self.new.types ≡ seen_after self.old.types (tlv_view tlv.now) }
    {
        if tlv.kind >= FIRST_RESERVED {
            if tlv.kind == ORGANIZATIONALLY_SPECIFIC {
                return tlv.body.len() >= 4;
            }
            return true;
        }
        if !body_is_well_formed(tlv) {
            return false;
        }
        if !counts_once(tlv.kind) {
            return true;
        }
        let flag = usize::from(tlv.kind - PORT_DESCRIPTION);
        let was_met = self.types[flag];
        self.types[flag] = true;
        !was_met
    }
}
