//! Laws of the values that callers pass and get.
ghost use Rattle.std.specs.Prelude.{◌≡◌, ◌&&◌, ℕ, List, Some, Ok, slice_get};
ghost use Rattle.lldp_pdu.specs.Frame.{lldpdu_of};
ghost use Rattle.lldp_engine.specs.declared.agent.event.Event.{Event};
ghost use Rattle.lldp_engine.specs.declared.agent.event.Event.TheVariants.{Frame, Set};
ghost use Rattle.lldp_engine.specs.declared.agent.event.Setting.{Setting};
ghost use Rattle.lldp_engine.specs.declared.agent.told.Told.{Told};
ghost use Rattle.lldp_engine.specs.declared.command.Command.{Command};
ghost use Rattle.lldp_engine.specs.declared.command.Command.TheVariants as command;
ghost use Rattle.lldp_engine.specs.Status.{receives};
ghost use Rattle.lldp_engine.specs.Event.{event_of, frame};
ghost use Rattle.lldp_engine.specs.Configuration.{Configuration, configured};
ghost use Rattle.lldp_engine.specs.AgentState.{AgentState, PortState, Allows};
ghost use Rattle.lldp_engine.specs.Port.Event.{for_port};
ghost use Rattle.lldp_engine.specs.Command.{command_of};
ghost use Rattle.lldp_engine.specs.Given.{said_by, command_said};
ghost use Rattle.lldp_engine.specs.Told.{told_of, Tells};
ghost use Rattle.lldp_engine.specs.Laws.Calls.{set_by, comes_to, words_for, IsTrueOf};

/// Each setting sets its own part of the configuration, and no other event sets any. A frame, a
/// link event and a status come to their port alone. A tick, a limit and any other setting come to
/// each port.
#[tactic(auto, using(crate::proofs::ForLaws::Calls::events_do_what_they_say))]
pub fn events_do_what_they_say()
    ensures set { (event : Event) (c : Configuration) →
        configured (event_of event) c ≡ set_by event c }
    ensures come { (event : Event) (i : ℕ) →
        for_port i (event_of event) ≡ comes_to i event }
{}

/// A command that is read has the words of its form, and the agent allows it.
pub fn commands_have_their_words()
    ensures words { (agent : AgentState) (words : List (List ℕ)) (command : Command) →
        said_by agent words ≡ Ok (command_of command) →
        (word : List ℕ) × (words ≡ words_for word command) }
    ensures allowed { (agent : AgentState) (words : List (List ℕ)) (setting : Setting) →
        command_said agent words ≡ Ok (command_of (command.Set setting)) →
        Allows agent (event_of (Set setting)) }
{}

/// What a step tells of a frame is true of its port before and after it: whether the port hears,
/// the fault of the LLDPDU, and the name, TTL and neighbor of an LLDPDU without a fault.
pub fn steps_tell_what_frames_did()
    ensures { (before after : AgentState) (number : ℕ) (octets : List ℕ) (port next : PortState)
        (told : Told) → Tells (frame number octets) before after (told_of told) →
        slice_get before.ports number ≡ Some port → slice_get after.ports number ≡ Some next →
        IsTrueOf (receives port.status && port.machine.up) (lldpdu_of octets) port.table
        next.table told }
{}
