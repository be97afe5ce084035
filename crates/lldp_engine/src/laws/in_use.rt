//! When a limit is refused because it is in use.
ghost use Rattle.std.specs.Prelude.{◌≡◌, ◌↔◌, ◌≤◌, ℕ, List, Err};
ghost use Rattle.lldp_text.specs.declared.fault.CommandFault.TheVariants.{InUse};
ghost use Rattle.lldp_engine.specs.AgentState.{AgentState, AllowsSetting};
ghost use Rattle.lldp_engine.specs.Event.{limit};
ghost use Rattle.lldp_engine.specs.Given.{command_given};
ghost use Rattle.lldp_engine.specs.Laws.InUse.{WouldLimitBelow, HoldAtMost};

/// A line has the fault InUse exactly if its words would set a limit and some port holds more
/// neighbors than that limit. A limit may be set exactly if it is from 1 to the limit at opening
/// and no port holds more neighbors.
#[tactic(auto, using(crate::proofs::ForLaws::InUse::limits_below_what_ports_hold_are_in_use))]
pub fn limits_below_what_ports_hold_are_in_use()
    ensures refused { (agent : AgentState) (line : List ℕ) →
        (command_given agent line ≡ Err InUse) ↔ WouldLimitBelow agent line }
    ensures allowed { (agent : AgentState) (most : ℕ) → AllowsSetting agent (limit most)
        ↔ ((1 ≤ most) × (most ≤ agent.configuration.capacity) × HoldAtMost agent most) }
{}
