//! Laws of which options open an agent, and of the agent that they open.
ghost use Rattle.std.specs.Prelude.{◌≡◌, ◌↔◌, codes, Some, None};
ghost use Rattle.std.specs.List.{filter, range_with_len};
ghost use Rattle.lldp_engine.specs.declared.agent.open_fault.OpenFault.{OpenFault};
ghost use Rattle.lldp_engine.specs.Options.{Options, options_of, IsRefusal, fault_of, is_name_octet};
ghost use Rattle.lldp_engine.specs.declared.agent.options.Options.{Options as CodeOptions};
ghost use Rattle.lldp_engine.specs.Past.{opened, agent_of};
ghost use Rattle.lldp_engine.specs.Laws.Opening.{Passes, IsFirstFault, Refuses, OpensWith};

/// Options have a fault exactly if they fail the check for it and pass each check with a smaller
/// number. They have no fault exactly if they pass every check; opening is then refused only for
/// lack of memory. Each check is over all the ports.
/// Exactly the listed octets may occur in names of ports.
#[tactic(auto, using(crate::proofs::ForLaws::Opening::openings_tell_first_faults))]
pub fn openings_tell_first_faults()
    ensures fault { (options : Options) (fault : OpenFault) →
        (fault_of options ≡ Some fault) ↔ IsFirstFault options fault }
    ensures none { (options : Options) →
        (fault_of options ≡ None) ↔ ((fault : OpenFault) → Passes options fault) }
    ensures refused { (options : Options) (fault : OpenFault) →
        IsRefusal options fault ↔ Refuses options fault }
    ensures names { filter is_name_octet (range_with_len 0 256)
        ≡ codes "-/0123456789:ABCDEFGHIJKLMNOPQRSTUVWXYZ_abcdefghijklmnopqrstuvwxyz" }
{}

/// Each value of a newly opened agent is that of its option, or a fixed value if it has no option.
pub fn agents_open_as_their_options_say()
    ensures { (options : CodeOptions) →
        OpensWith options (agent_of (opened (options_of options))) }
{}
