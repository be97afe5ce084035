//! The counters of a port (IEEE 802.1AB-2009, 9.2.6).
ghost use Rattle.std.specs.Prelude.{◌≡◌};
ghost use Rattle.lldp_engine.specs.Code.Counting.{with_received, with_refused, with_tlvs, with_answer, with_aged_out, with_mark};

use lldp_table::Learned;
use lldp_transmit::Mark;

/// The counters of a port, each modulo 2^32. Nothing ever resets them. C reads this struct, as
/// `lldpa_statistics_told`, so it has these fields in this order within 1.x.
#[repr(C)]
#[derive(Clone, Copy, Debug, PartialEq, Eq, Drop)]
pub struct Counters {
    /// Ordinary frames sent.
    pub sent: u32,
    /// Shutdown frames sent.
    pub shutdowns: u32,
    /// LLDP frames received while the status allowed it and the link was up.
    pub received: u32,
    /// LLDPDUs that were refused.
    pub discarded: u32,
    /// LLDPDUs that were refused or had a TLV discarded.
    pub errors: u32,
    /// TLVs that were discarded.
    pub tlvs_discarded: u32,
    /// Kept TLVs that are unrecognized: of a reserved type, or organizationally specific.
    pub unrecognized: u32,
    /// Neighbors that aged out.
    pub ageouts: u32,
    /// LLDPDUs that were dropped for lack of room.
    pub drops: u32,
}

impl Counters {
    /// The counters of a newly opened port.
    pub(crate) const ZERO: Counters = Counters {
        sent: 0,
        shutdowns: 0,
        received: 0,
        discarded: 0,
        errors: 0,
        tlvs_discarded: 0,
        unrecognized: 0,
        ageouts: 0,
        drops: 0,
    };

    /// Counts a received LLDP frame.
    pub(crate) fn count_received(&mut self)
        ensures { self.new ≡ with_received self.old }
    {
        self.received = self.received.wrapping_add(1);
    }

    /// Counts a refused LLDPDU.
    pub(crate) fn count_refused(&mut self)
        ensures { self.new ≡ with_refused self.old }
    {
        self.discarded = self.discarded.wrapping_add(1);
        self.errors = self.errors.wrapping_add(1);
    }

    /// Counts discarded and unrecognized TLVs of an LLDPDU, and an error if any was discarded.
    pub(crate) fn count_tlvs(&mut self, discarded: u32, unrecognized: u32)
        ensures { self.new ≡ with_tlvs self.old discarded unrecognized }
    {
        self.errors = self.errors.wrapping_add(u32::from(discarded > 0));
        self.tlvs_discarded = self.tlvs_discarded.wrapping_add(discarded);
        self.unrecognized = self.unrecognized.wrapping_add(unrecognized);
    }

    /// Counts an LLDPDU that the table dropped for lack of room.
    pub(crate) fn count_answer(&mut self, answer: Learned)
        ensures { self.new ≡ with_answer self.old answer }
    {
        match answer {
            Learned::New | Learned::Refreshed => {}
            Learned::Dropped => self.drops = self.drops.wrapping_add(1),
        }
    }

    /// Counts this many neighbors that aged out.
    pub(crate) fn count_aged_out(&mut self, n: u8)
        ensures { self.new ≡ with_aged_out self.old n }
    {
        let before = self.ageouts;
        if n > 0 {
            self.ageouts = before.wrapping_add(u32::from(n));
        }
    }

    /// Counts a frame that was sent, if any.
    pub(crate) fn count_mark(&mut self, mark: Mark)
        ensures { self.new ≡ with_mark self.old mark }
    {
        match mark {
            Mark::Quiet => {}
            Mark::Ordinary => self.sent = self.sent.wrapping_add(1),
            Mark::Shutdown => self.shutdowns = self.shutdowns.wrapping_add(1),
        }
    }
}
