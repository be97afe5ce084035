//! Laws of which ports may send.
ghost use Rattle.std.specs.Prelude.{ℕ, ◌⊎◌, IsTrue};
ghost use Rattle.lldp_transmit.specs.declared.event.Mark.{Mark};
ghost use Rattle.lldp_transmit.specs.declared.event.Mark.TheVariants.{Ordinary, Shutdown};
ghost use Rattle.lldp_engine.specs.declared.port.status.Status.TheVariants.{RxAndTx, RxOnly, TxOnly, Disabled};
ghost use Rattle.lldp_engine.specs.Event.{set, status};
ghost use Rattle.lldp_engine.specs.Laws.LastSet.{NoneSets};
ghost use Rattle.lldp_engine.specs.Past.{Past};
ghost use Rattle.lldp_engine.specs.Laws.PortAt.{Sends};
ghost use Rattle.lldp_engine.specs.Laws.Deaf.{HasStatus};

/// Only a port whose last status is RxAndTx or TxOnly sends an ordinary frame, and only a port
/// whose last status is RxOnly or Disabled sends a shutdown frame.
pub fn ports_send_by_their_status()
    ensures ordinary { (past : Past) (i : ℕ) → Sends past i Ordinary →
        HasStatus past i RxAndTx ⊎ HasStatus past i TxOnly }
    ensures shutdown { (past : Past) (i : ℕ) → Sends past i Shutdown →
        HasStatus past i RxOnly ⊎ HasStatus past i Disabled }
{}

/// A port that was opened as RxOnly sends nothing until its first status command.
pub fn ports_opened_to_receive_only_are_silent()
    ensures { (past : Past) (i : ℕ) (mark : Mark) → IsTrue past.options.receive_only →
        NoneSets (λ given. set (status i given)) past.events → ¬ (Sends past i mark) }
{}
