//! Laws of ports that cannot receive.
ghost use Rattle.std.specs.Prelude.{◌≡◌, ℕ, List, None, false};
ghost use Rattle.lldp_pdu.specs.Frame.{lldpdu_of};
ghost use Rattle.lldp_engine.specs.declared.port.status.Status.TheVariants.{TxOnly, Disabled};
ghost use Rattle.lldp_engine.specs.Options.{InRange};
ghost use Rattle.lldp_engine.specs.Event.{frame};
ghost use Rattle.lldp_engine.specs.Laws.LastSet.{IsLastLink};
ghost use Rattle.lldp_engine.specs.Past.{Past};
ghost use Rattle.lldp_engine.specs.Laws.PortAt.{LeavesPort};
ghost use Rattle.lldp_engine.specs.Laws.Deaf.{HasStatus};

/// A frame does not change a port, or make it send, if the port's last status is TxOnly or Disabled
/// or its last link event says down. Octets that are not an LLDP frame change no port. The four
/// numbers of the options must be in their ranges, as in every agent.
pub fn deaf_ports_stay_as_they_were()
    ensures tx_only { (past : Past) (i : ℕ) (octets : List ℕ) → InRange past.options →
        HasStatus past i TxOnly → LeavesPort past (frame i octets) i }
    ensures disabled { (past : Past) (i : ℕ) (octets : List ℕ) → InRange past.options →
        HasStatus past i Disabled → LeavesPort past (frame i octets) i }
    ensures down { (past : Past) (i : ℕ) (octets : List ℕ) → InRange past.options →
        IsLastLink i past.events false → LeavesPort past (frame i octets) i }
    ensures other_frames { (past : Past) (i : ℕ) (octets : List ℕ) → InRange past.options →
        lldpdu_of octets ≡ None → LeavesPort past (frame i octets) i }
{}
