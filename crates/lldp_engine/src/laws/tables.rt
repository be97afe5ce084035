//! Laws of what removes a neighbor.
ghost use Rattle.std.specs.Prelude.{◌≡◌, ℕ, List, [], Some, None, IfSome};
ghost use Rattle.std.specs.Option.{option_map};
ghost use Rattle.lldp_pdu.specs.declared.fault.PduFault.{PduFault};
ghost use Rattle.lldp_pdu.specs.Frame.{lldpdu_of};
ghost use Rattle.lldp_pdu.specs.Fault.{fault_of};
ghost use Rattle.lldp_pdu.specs.Lldpdu.{ttl_of, msap_of};
ghost use Rattle.lldp_engine.specs.declared.port.status.Status.TheVariants.{RxAndTx, RxOnly, TxOnly, Disabled};
ghost use Rattle.lldp_engine.specs.Event.{frame, set, status};
ghost use Rattle.lldp_engine.specs.Past.{Past, with_event};
ghost use Rattle.lldp_engine.specs.Laws.PortAt.{table_at, neighbors_at, LeavesTables};
ghost use Rattle.lldp_engine.specs.Laws.Deaf.{HasStatus, Hears};
ghost use Rattle.lldp_engine.specs.Laws.Neighbors.{others_than};

/// An LLDPDU concerns only the neighbor with the same MSAP identifier: all other neighbors of the
/// port stay, in their order. If the port hears an LLDPDU without a fault and with a TTL of 0, that
/// neighbor is removed. An LLDPDU with a fault does not change the table.
#[tactic(auto, using(crate::proofs::ForLaws::Emptied::lldpdus_speak_of_one_neighbor))]
pub fn lldpdus_speak_of_one_neighbor()
    ensures others { (past : Past) (i : ℕ) (octets pdu : List ℕ) → lldpdu_of octets ≡ Some pdu →
        option_map (others_than (msap_of pdu)) (neighbors_at (with_event past (frame i octets)) i)
        ≡ option_map (others_than (msap_of pdu)) (neighbors_at past i) }
    ensures own { (past : Past) (i : ℕ) (octets pdu : List ℕ) → Hears past i →
        lldpdu_of octets ≡ Some pdu → fault_of pdu ≡ None → ttl_of pdu ≡ 0 →
        neighbors_at (with_event past (frame i octets)) i
        ≡ option_map (others_than (msap_of pdu)) (neighbors_at past i) }
    ensures refused { (past : Past) (i : ℕ) (octets pdu : List ℕ) (fault : PduFault) →
        lldpdu_of octets ≡ Some pdu → fault_of pdu ≡ Some fault →
        table_at (with_event past (frame i octets)) i ≡ table_at past i }
{}

/// Setting the status RxAndTx or RxOnly changes no table. A port whose status is TxOnly or Disabled
/// holds no neighbors.
#[tactic(auto, using(crate::proofs::ForLaws::Emptied::receiving_leaves_tables))]
pub fn ports_that_cannot_receive_hold_none()
    ensures rx_and_tx { (past : Past) (port : ℕ) → LeavesTables past (set (status port RxAndTx)) }
    ensures rx_only { (past : Past) (port : ℕ) → LeavesTables past (set (status port RxOnly)) }
    ensures tx_only { (past : Past) (i : ℕ) → HasStatus past i TxOnly →
        IfSome (neighbors_at past i) (λ held. held ≡ []) }
    ensures disabled { (past : Past) (i : ℕ) → HasStatus past i Disabled →
        IfSome (neighbors_at past i) (λ held. held ≡ []) }
{}
