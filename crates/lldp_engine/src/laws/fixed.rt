//! Laws of fixed numbers, and of the words for roles.
ghost use Rattle.std.specs.Prelude.{◌≡◌, ℕ};
ghost use Rattle.lldp_pdu.specs.Capabilities.{caps_fields};
ghost use Rattle.lldp_engine.specs.declared.agent.options.Role.{Role};
ghost use Rattle.lldp_engine.specs.AgentState.{AgentState};
ghost use Rattle.lldp_text.specs.Capabilities.{capabilities_text};
ghost use Rattle.lldp_engine.specs.Frames.{capabilities_of};
ghost use Rattle.lldp_engine.specs.FixedNumbers.{AreConstants, MaySet};
ghost use Rattle.lldp_engine.specs.Laws.Shows.{role_text};

/// The greatest values of options and commands, the most lines of a show, the sizes of a line and
/// of a writer, and the numbers of the faults at opening are those of `AreConstants`.
pub fn ranges_end_at_fixed_numbers()
    ensures constants { AreConstants }
    ensures settings { (agent : AgentState) (n : ℕ) → MaySet agent n }
{}

/// `show chassis` names the capabilities that the frames of a role report.
pub fn roles_are_shown_as_sent()
    ensures { (role : Role) →
        role_text role ≡ capabilities_text (caps_fields (capabilities_of role)) }
{}
