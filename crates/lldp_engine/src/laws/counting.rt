//! Laws of the counters.
ghost use Rattle.std.specs.Prelude.{◌≡◌, ◌≢◌, ℕ, ◌<◌, ◌%◌, ◌^◌, List, Some, None};
ghost use Rattle.lldp_pdu.specs.declared.fault.PduFault.{PduFault};
ghost use Rattle.lldp_pdu.specs.Frame.{lldpdu_of};
ghost use Rattle.lldp_pdu.specs.Fault.{fault_of};
ghost use Rattle.lldp_pdu.specs.Lldpdu.{ttl_of};
ghost use Rattle.lldp_pdu.specs.Kept.{discarded_of};
ghost use Rattle.lldp_transmit.specs.declared.event.Mark.TheVariants.{Ordinary, Shutdown};
ghost use Rattle.lldp_engine.specs.Event.{Event, tick, frame};
ghost use Rattle.lldp_engine.specs.AgentState.{PortState};
ghost use Rattle.lldp_engine.specs.Past.{Past};
ghost use Rattle.lldp_engine.specs.Laws.PortAt.{port_at};
ghost use Rattle.lldp_engine.specs.Laws.Deaf.{Hears};
ghost use Rattle.lldp_engine.specs.Laws.Tally.{HasSent, Adds, unknown_tlvs, Makes, CountsAgedOut, KeepsAgeouts, CountsDrop, KeepsDrops, KeepsReceived, HasNoRoom};

/// `sent` is the number of events at which a port sent an ordinary frame, and `shutdowns` the
/// number of events at which it sent a shutdown frame, both modulo 2^32.
#[tactic(auto, using(crate::proofs::ForLaws::Tally::ports_count_what_they_sent))]
pub fn ports_count_what_they_sent()
    ensures sent { (past : Past) (i : ℕ) (port : PortState) → port_at past i ≡ Some port →
        (n : ℕ) × HasSent past i Ordinary n × (port.counters.sent ≡ n % 2 ^ 32) }
    ensures shutdowns { (past : Past) (i : ℕ) (port : PortState) → port_at past i ≡ Some port →
        (n : ℕ) × HasSent past i Shutdown n × (port.counters.shutdowns ≡ n % 2 ^ 32) }
{}

/// A port that hears an LLDPDU with a fault counts it as discarded and as an error. If an LLDPDU
/// has no fault and a TTL above 0, its discarded TLVs and its unrecognized kept TLVs are added, and
/// it counts as an error if a TLV was discarded. Each LLDPDU is counted once.
pub fn ports_count_each_lldpdu_once()
    ensures refused { (past : Past) (i : ℕ) (octets pdu : List ℕ) (fault : PduFault) →
        Hears past i → lldpdu_of octets ≡ Some pdu → fault_of pdu ≡ Some fault →
        Adds past i octets 1 1 0 0 }
    ensures leaves { (past : Past) (i : ℕ) (octets pdu : List ℕ) → Hears past i →
        lldpdu_of octets ≡ Some pdu → fault_of pdu ≡ None → ttl_of pdu ≡ 0 →
        Adds past i octets 0 0 0 0 }
    ensures whole { (past : Past) (i : ℕ) (octets pdu : List ℕ) → Hears past i →
        lldpdu_of octets ≡ Some pdu → fault_of pdu ≡ None → 0 < ttl_of pdu →
        discarded_of pdu ≡ 0 → Adds past i octets 0 0 0 (unknown_tlvs pdu) }
    ensures faulty_tlvs { (past : Past) (i : ℕ) (octets pdu : List ℕ) → Hears past i →
        lldpdu_of octets ≡ Some pdu → fault_of pdu ≡ None → 0 < ttl_of pdu →
        0 < discarded_of pdu → Adds past i octets 0 1 (discarded_of pdu) (unknown_tlvs pdu) }
{}

/// A tick adds to `ageouts` of each port the number of neighbors that it removes there; no other
/// event changes `ageouts`. A frame adds one to `drops` of its port exactly if there is no room for
/// it. Only frames that a port received change its counters of received frames.
#[tactic(auto, using(crate::proofs::ForLaws::Losses::ports_count_what_they_lose))]
pub fn ports_count_what_they_lose()
    ensures aged_out { (past : Past) (i : ℕ) → Makes past tick i CountsAgedOut }
    ensures others_age_none { (past : Past) (i : ℕ) (event : Event) → event ≢ tick →
        Makes past event i KeepsAgeouts }
    ensures no_room { (past : Past) (i : ℕ) (octets : List ℕ) → HasNoRoom past i octets →
        Makes past (frame i octets) i CountsDrop }
    ensures room { (past : Past) (i : ℕ) (octets : List ℕ) → ¬ (HasNoRoom past i octets) →
        Makes past (frame i octets) i KeepsDrops }
    ensures others_count_none { (past : Past) (i : ℕ) (event : Event) →
        ((octets : List ℕ) → event ≢ frame i octets) → Makes past event i KeepsReceived }
{}
