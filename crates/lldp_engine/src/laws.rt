//! Laws that hold for every agent and every past.
ghost use Rattle.std.specs.Prelude.{◌≡◌, ◌↔◌, ℕ, Bool, List};
ghost use Rattle.lldp_engine.specs.declared.port.status.Status.{Status};
ghost use Rattle.lldp_engine.specs.Options.{Options};
ghost use Rattle.lldp_engine.specs.Event.{Event, HasOctets};
ghost use Rattle.lldp_engine.specs.AgentState.{AgentState, Allows};
ghost use Rattle.lldp_engine.specs.Past.{Past, with_event, configuration_after, port_past, marks_of};
ghost use Rattle.lldp_engine.specs.Port.Past.{Happened, status_after, up_after};
ghost use Rattle.lldp_engine.specs.Standing.{Stands};
ghost use Rattle.lldp_engine.specs.Code.Step.{agent_after, agent_marks};
ghost use Rattle.lldp_engine.specs.Laws.LastSet.{IsLastStatus, IsLastLink, IsLastConfiguration};
ghost use Rattle.lldp_engine.specs.Laws.Holding.{HoldLastStored};
ghost use Rattle.lldp_engine.specs.Laws.Rights.{FollowsStatus};
ghost use Rattle.lldp_engine.specs.Headline.{Promised};
ghost use Rattle.lldp_engine.specs.Sending.{HaveSentExactly};

pub mod calls;
pub mod counting;
pub mod deafness;
pub mod fixed;
pub mod frames;
pub mod in_use;
pub mod local_changes;
pub mod opening;
pub mod sayings;
pub mod sending;
pub mod shows;
pub mod tables;
pub mod whose;

/// After an event that an agent allows, the past of the agent is its earlier past with the event
/// added, and the ports that send are those that the definitions give.
#[tactic(auto, using(crate::proofs::Standing::Carrying::steps_carry_standing))]
pub fn steps_carry_standing()
    ensures marks { (past : Past) (event : Event) (agent : AgentState) → Stands past agent →
        Allows agent event → HasOctets event →
        agent_marks event agent ≡ marks_of (with_event past event) }
    ensures stands { (past : Past) (event : Event) (agent : AgentState) → Stands past agent →
        Allows agent event → HasOctets event →
        Stands (with_event past event) (agent_after event agent) }
{}

/// Each port's table holds exactly the last stored frames that have not expired (`positions`: each by
/// its position in the port's past).
#[tactic(auto, using(crate::proofs::Headline::Promise::promised, crate::proofs::Headline::Promise::hold_last_stored))]
pub fn standing_agents_are_promised()
    ensures tables { (past : Past) (agent : AgentState) → Stands past agent → Promised past agent }
    ensures positions { (past : Past) (agent : AgentState) → Stands past agent → HoldLastStored past agent }
{}

/// Each port has sent exactly what was due while its credit window was open. So no run of events has
/// more ordinary frames than txCreditMax plus the ticks after its first event, or more stops than
/// one plus one for each reinitDelay ticks in it; and no other choice of events to send at, each
/// with a frame due and the window open, has sent more frames up to any event.
pub fn standing_agents_have_sent_exactly()
    ensures { (past : Past) (agent : AgentState) → Stands past agent → HaveSentExactly past }
{}

/// After any past, a port's transmit machine may transmit exactly if the port's status allows it,
/// so setting such a status restores the right. The link is up exactly if the last link event says
/// so, or if there was none.
pub fn rights_follow_statuses()
    ensures { (options : Options) (past : List Happened) → FollowsStatus options past }
{}

/// A port's status, its link and each part of the configuration have the value that was set last:
/// no later event sets it. If no event set a value, it is as at opening.
pub fn last_events_decide()
    ensures status { (options : Options) (port : ℕ) (events : List Event) (status : Status) →
        (status ≡ status_after options (port_past port events))
        ↔ IsLastStatus options port events status }
    ensures link { (options : Options) (port : ℕ) (events : List Event) (up : Bool) →
        (up ≡ up_after (port_past port events)) ↔ IsLastLink port events up }
    ensures configuration { (options : Options) (events : List Event) →
        IsLastConfiguration options events (configuration_after options events) }
{}
