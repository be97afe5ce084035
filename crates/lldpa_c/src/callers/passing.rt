//! Passes events and commands to an agent through the exported functions.
ghost use Rattle.std.specs.Prelude.{◌≡◌, ◌+◌, ◌≤◌, ◌<◌, ℕ, suc, [], true, false, length, take, map, Ok, Err};
ghost use Rattle.std.specs.List.{AllByRecursion};
ghost use Rattle.lldp_engine.specs.AgentState.{IsPort};
ghost use Rattle.lldp_engine.specs.Code.Step.{agent_after, agent_marks};
ghost use Rattle.lldp_engine.specs.Code.Telling.{agent_told};
ghost use Rattle.lldp_engine.specs.Command.{show, set};
ghost use Rattle.lldp_engine.specs.Event.{frame as frame_event, link as link_event, Setting, set as set_event, tick};
ghost use Rattle.lldp_engine.specs.Given.{command_given};
ghost use Rattle.lldp_engine.specs.Frames.{IsSent};
ghost use Rattle.lldp_engine.specs.Headline.{PromisedStep};
ghost use Rattle.lldp_engine.specs.Past.{Past, with_event, marks_of};
ghost use Rattle.lldp_engine.specs.Sending.{HaveSentExactly};
ghost use Rattle.lldp_engine.specs.Standing.{Stands};
ghost use Rattle.lldp_engine.specs.Told.{Tells, deaf, not_lldp, refused, stored, left as goodbye};
ghost use Rattle.lldp_engine.specs.declared.command.Show.TheVariants.{Neighbors, Statistics, Chassis, Configuration};
ghost use Rattle.lldp_engine.specs.declared.port.status.Status.TheVariants.{Disabled};
ghost use Rattle.lldp_pdu.specs.FaultNumber.{pdu_fault_number};
ghost use Rattle.lldp_pdu.specs.Msap.{MsapId};
ghost use Rattle.lldp_pdu.specs.declared.fault.PduFault.{PduFault};
ghost use Rattle.lldp_table.specs.declared.learned.Outcome.{Outcome};
ghost use Rattle.lldp_text.specs.declared.fault.CommandFault.{CommandFault};
ghost use Rattle.lldpa_c.specs.Faults.{command_fault_number};
ghost use Rattle.lldpa_c.specs.Leaving.{left, sent_leaving, shutdowns, with_leaving};
ghost use Rattle.lldpa_c.specs.Marks.{numbered};
ghost use Rattle.lldpa_c.specs.News.{outcome_number};
ghost use Rattle.lldpa_c.specs.Place.{octets_at};
ghost use Rattle.lldpa_c.specs.Ticks.{neighbors_held, ticked, with_ticks};

use crate::agent::{lldpa_frame, lldpa_frame_news, lldpa_link};
use crate::command::lldpa_command;
use crate::holder::LldpaAgent;
use crate::leaving::lldpa_leave;
use crate::marks::LldpaMarks;
use crate::news::LldpaNews;
use crate::ticks::{LldpaTicks, lldpa_ticks};
use std::alloc::Global;

/// Passes a frame to a port.
fn hear(
    alloc: Global,
    agent: &mut LldpaAgent,
    port: u32,
    octets: &[u8],
    marks: &mut LldpaMarks,
) -> u8
    ensures taken { agent.old.is_open ≡ true → IsPort agent.old.held.agent port → (result ≡ 0) × (agent.new.is_open ≡ true)
        × (agent.new.held.agent ≡ agent_after (frame_event port octets.now) agent.old.held.agent)
        × (marks.new.count ≡ length (agent_marks (frame_event port octets.now) agent.old.held.agent))
        × (take marks.new.count marks.new.items ≡ map numbered (agent_marks (frame_event port octets.now) agent.old.held.agent)) }
    ensures stands { result ≡ 0 → (past : Past) → Stands past agent.old.held.agent →
        Stands (with_event past (frame_event port octets.now)) agent.new.held.agent }
    ensures sends { result ≡ 0 → AllByRecursion (λ mark. IsPort agent.new.held.agent mark.0 × IsSent mark.1) (agent_marks (frame_event port octets.now) agent.old.held.agent) }
    ensures promised { result ≡ 0 → (past : Past) → Stands past agent.old.held.agent →
        (agent_marks (frame_event port octets.now) agent.old.held.agent ≡ marks_of (with_event past (frame_event port octets.now)))
        × PromisedStep past (frame_event port octets.now) (agent_marks (frame_event port octets.now) agent.old.held.agent) agent.new.held.agent
        × HaveSentExactly (with_event past (frame_event port octets.now)) }
    ensures closed { agent.old.is_open ≡ false → (result ≡ 102) × (agent.new.is_open ≡ false) × (marks.new ≡ marks.old) }
    ensures no_port { agent.old.is_open ≡ true → ¬ (IsPort agent.old.held.agent port) → (result ≡ 103) × (agent.new.is_open ≡ true)
        × (agent.new.held.agent ≡ agent.old.held.agent) × (marks.new ≡ marks.old) }
{
    lldpa_frame(alloc, agent, port, octets, marks)
}

/// Passes a frame and reads what it did.
fn news(
    alloc: Global,
    agent: &mut LldpaAgent,
    port: u32,
    octets: &[u8],
    marks: &mut LldpaMarks,
    told: &mut LldpaNews,
) -> u8
    ensures taken { agent.old.is_open ≡ true → IsPort agent.old.held.agent port → (result ≡ 0) × (agent.new.is_open ≡ true)
        × (agent.new.held.agent ≡ agent_after (frame_event port octets.now) agent.old.held.agent)
        × (marks.new.count ≡ length (agent_marks (frame_event port octets.now) agent.old.held.agent))
        × (take marks.new.count marks.new.items ≡ map numbered (agent_marks (frame_event port octets.now) agent.old.held.agent)) }
    ensures stands { result ≡ 0 → (past : Past) → Stands past agent.old.held.agent →
        Stands (with_event past (frame_event port octets.now)) agent.new.held.agent }
    ensures sends { result ≡ 0 → AllByRecursion (λ mark. IsPort agent.new.held.agent mark.0 × IsSent mark.1) (agent_marks (frame_event port octets.now) agent.old.held.agent) }
    ensures promised { result ≡ 0 → (past : Past) → Stands past agent.old.held.agent →
        (agent_marks (frame_event port octets.now) agent.old.held.agent ≡ marks_of (with_event past (frame_event port octets.now)))
        × PromisedStep past (frame_event port octets.now) (agent_marks (frame_event port octets.now) agent.old.held.agent) agent.new.held.agent
        × HaveSentExactly (with_event past (frame_event port octets.now)) }
    ensures step { result ≡ 0 → Tells (frame_event port octets.now) agent.old.held.agent agent.new.held.agent
        (agent_told (frame_event port octets.now) agent.old.held.agent) }
    ensures not_lldp { result ≡ 0 → agent_told (frame_event port octets.now) agent.old.held.agent ≡ not_lldp → (told.new.what ≡ 1) × (told.new.fault ≡ 0)
        × (told.new.chassis.start ≡ 0) × (told.new.chassis.length ≡ 0) × (told.new.port.start ≡ 0) × (told.new.port.length ≡ 0) }
    ensures deaf { result ≡ 0 → agent_told (frame_event port octets.now) agent.old.held.agent ≡ deaf → (told.new.what ≡ 2) × (told.new.fault ≡ 0)
        × (told.new.chassis.start ≡ 0) × (told.new.chassis.length ≡ 0) × (told.new.port.start ≡ 0) × (told.new.port.length ≡ 0) }
    ensures fault { result ≡ 0 → (fault : PduFault) → agent_told (frame_event port octets.now) agent.old.held.agent ≡ refused fault →
        (told.new.what ≡ 3) × (told.new.fault ≡ pdu_fault_number fault)
        × (told.new.chassis.start ≡ 0) × (told.new.chassis.length ≡ 0) × (told.new.port.start ≡ 0) × (told.new.port.length ≡ 0) }
    ensures stored { result ≡ 0 → (name : MsapId) (outcome : Outcome) → agent_told (frame_event port octets.now) agent.old.held.agent ≡ stored name outcome →
        (told.new.what ≡ outcome_number outcome) × (told.new.fault ≡ 0)
        × (octets_at octets.now told.new.chassis ≡ name.chassis) × (octets_at octets.now told.new.port ≡ name.port)
        × (told.new.chassis.start + told.new.chassis.length ≤ length octets.now) × (told.new.port.start + told.new.port.length ≤ length octets.now) }
    ensures gone { result ≡ 0 → (name : MsapId) → agent_told (frame_event port octets.now) agent.old.held.agent ≡ goodbye name true →
        (told.new.what ≡ 8) × (told.new.fault ≡ 0)
        × (octets_at octets.now told.new.chassis ≡ name.chassis) × (octets_at octets.now told.new.port ≡ name.port)
        × (told.new.chassis.start + told.new.chassis.length ≤ length octets.now) × (told.new.port.start + told.new.port.length ≤ length octets.now) }
    ensures unknown { result ≡ 0 → (name : MsapId) → agent_told (frame_event port octets.now) agent.old.held.agent ≡ goodbye name false →
        (told.new.what ≡ 9) × (told.new.fault ≡ 0)
        × (octets_at octets.now told.new.chassis ≡ name.chassis) × (octets_at octets.now told.new.port ≡ name.port)
        × (told.new.chassis.start + told.new.chassis.length ≤ length octets.now) × (told.new.port.start + told.new.port.length ≤ length octets.now) }
    ensures closed { agent.old.is_open ≡ false → (result ≡ 102) × (agent.new.is_open ≡ false) × (marks.new ≡ marks.old) × (told.new ≡ told.old) }
    ensures no_port { agent.old.is_open ≡ true → ¬ (IsPort agent.old.held.agent port) → (result ≡ 103) × (agent.new.is_open ≡ true)
        × (agent.new.held.agent ≡ agent.old.held.agent) × (marks.new ≡ marks.old) × (told.new ≡ told.old) }
{
    lldpa_frame_news(alloc, agent, port, octets, marks, told)
}

/// Reports a link of a port.
fn plug(alloc: Global, agent: &mut LldpaAgent, port: u32, up: bool, marks: &mut LldpaMarks) -> u8
    ensures taken { agent.old.is_open ≡ true → IsPort agent.old.held.agent port → (result ≡ 0) × (agent.new.is_open ≡ true)
        × (agent.new.held.agent ≡ agent_after (link_event port up) agent.old.held.agent)
        × (marks.new.count ≡ length (agent_marks (link_event port up) agent.old.held.agent))
        × (take marks.new.count marks.new.items ≡ map numbered (agent_marks (link_event port up) agent.old.held.agent)) }
    ensures stands { result ≡ 0 → (past : Past) → Stands past agent.old.held.agent →
        Stands (with_event past (link_event port up)) agent.new.held.agent }
    ensures sends { result ≡ 0 → AllByRecursion (λ mark. IsPort agent.new.held.agent mark.0 × IsSent mark.1) (agent_marks (link_event port up) agent.old.held.agent) }
    ensures promised { result ≡ 0 → (past : Past) → Stands past agent.old.held.agent →
        (agent_marks (link_event port up) agent.old.held.agent ≡ marks_of (with_event past (link_event port up)))
        × PromisedStep past (link_event port up) (agent_marks (link_event port up) agent.old.held.agent) agent.new.held.agent
        × HaveSentExactly (with_event past (link_event port up)) }
    ensures closed { agent.old.is_open ≡ false → (result ≡ 102) × (agent.new.is_open ≡ false) × (marks.new ≡ marks.old) }
    ensures no_port { agent.old.is_open ≡ true → ¬ (IsPort agent.old.held.agent port) → (result ≡ 103) × (agent.new.is_open ≡ true)
        × (agent.new.held.agent ≡ agent.old.held.agent) × (marks.new ≡ marks.old) }
{
    lldpa_link(alloc, agent, port, up, marks)
}

/// Passes one second.
fn second(
    alloc: Global,
    agent: &mut LldpaAgent,
    marks: &mut LldpaMarks,
    told: &mut LldpaTicks,
) -> u8
    ensures taken { agent.old.is_open ≡ true → (result ≡ 0) × (agent.new.is_open ≡ true) × (told.new.taken ≡ 1)
        × (agent.new.held.agent ≡ agent_after tick agent.old.held.agent)
        × (marks.new.count ≡ length (agent_marks tick agent.old.held.agent))
        × (take marks.new.count marks.new.items ≡ map numbered (agent_marks tick agent.old.held.agent)) }
    ensures aged { result ≡ 0 → told.new.aged_out + neighbors_held agent.new.held.agent ≡ neighbors_held agent.old.held.agent }
    ensures stands { result ≡ 0 → (past : Past) → Stands past agent.old.held.agent → Stands (with_event past tick) agent.new.held.agent }
    ensures closed { agent.old.is_open ≡ false → (result ≡ 102) × (agent.new.is_open ≡ false) × (marks.new ≡ marks.old) × (told.new ≡ told.old) }
{
    lldpa_ticks(alloc, agent, 1, marks, told)
}

/// Passes as many seconds as go by until a port sends or a neighbor ages out, and at most `count`.
fn seconds(
    alloc: Global,
    agent: &mut LldpaAgent,
    count: u32,
    marks: &mut LldpaMarks,
    told: &mut LldpaTicks,
) -> u8
    ensures taken { agent.old.is_open ≡ true → (result ≡ 0) × (agent.new.is_open ≡ true) × (told.new.taken ≤ count)
        × (agent.new.held.agent ≡ ticked told.new.taken agent.old.held.agent) }
    ensures none { agent.old.is_open ≡ true → told.new.taken ≡ 0 → (marks.new.count ≡ 0) × (told.new.aged_out ≡ 0) }
    ensures last { agent.old.is_open ≡ true → (n : ℕ) → told.new.taken ≡ suc n →
        (marks.new.count ≡ length (agent_marks tick (ticked n agent.old.held.agent)))
        × (take marks.new.count marks.new.items ≡ map numbered (agent_marks tick (ticked n agent.old.held.agent)))
        × (told.new.aged_out + neighbors_held agent.new.held.agent ≡ neighbors_held (ticked n agent.old.held.agent)) }
    ensures quiet { agent.old.is_open ≡ true → (k : ℕ) → k + 1 < told.new.taken →
        (agent_marks tick (ticked k agent.old.held.agent) ≡ [])
        × (neighbors_held (ticked (suc k) agent.old.held.agent) ≡ neighbors_held (ticked k agent.old.held.agent)) }
    ensures why { agent.old.is_open ≡ true → told.new.taken < count → ¬ ((marks.new.count ≡ 0) × (told.new.aged_out ≡ 0)) }
    ensures stands { agent.old.is_open ≡ true → (past : Past) → Stands past agent.old.held.agent →
        Stands (with_ticks told.new.taken past) agent.new.held.agent }
    ensures promised { agent.old.is_open ≡ true → (n : ℕ) → told.new.taken ≡ suc n → (past : Past) → Stands past agent.old.held.agent →
        (take marks.new.count marks.new.items ≡ map numbered (marks_of (with_ticks (suc n) past)))
        × PromisedStep (with_ticks n past) tick (agent_marks tick (ticked n agent.old.held.agent)) agent.new.held.agent
        × HaveSentExactly (with_ticks (suc n) past) }
    ensures closed { agent.old.is_open ≡ false → (result ≡ 102) × (agent.new.is_open ≡ false) × (marks.new ≡ marks.old) × (told.new ≡ told.old) }
{
    lldpa_ticks(alloc, agent, count, marks, told)
}

/// Runs a command.
fn commands(
    alloc: Global,
    agent: &mut LldpaAgent,
    line: &[u8],
    asks: &mut u32,
    marks: &mut LldpaMarks,
) -> u8
    ensures fault { agent.old.is_open ≡ true → (fault : CommandFault) → command_given agent.old.held.agent line.now ≡ Err fault →
        (result ≡ command_fault_number fault) × (agent.new.is_open ≡ true) × (agent.new.held.agent ≡ agent.old.held.agent)
        × (asks.new ≡ asks.old) × (marks.new ≡ marks.old) }
    ensures neighbors { agent.old.is_open ≡ true → command_given agent.old.held.agent line.now ≡ Ok (show Neighbors) →
        (result ≡ 0) × (agent.new.held.agent ≡ agent.old.held.agent) × (asks.new ≡ 1) × (marks.new.count ≡ 0) }
    ensures statistics { agent.old.is_open ≡ true → command_given agent.old.held.agent line.now ≡ Ok (show Statistics) →
        (result ≡ 0) × (agent.new.held.agent ≡ agent.old.held.agent) × (asks.new ≡ 2) × (marks.new.count ≡ 0) }
    ensures chassis { agent.old.is_open ≡ true → command_given agent.old.held.agent line.now ≡ Ok (show Chassis) →
        (result ≡ 0) × (agent.new.held.agent ≡ agent.old.held.agent) × (asks.new ≡ 3) × (marks.new.count ≡ 0) }
    ensures configuration { agent.old.is_open ≡ true → command_given agent.old.held.agent line.now ≡ Ok (show Configuration) →
        (result ≡ 0) × (agent.new.held.agent ≡ agent.old.held.agent) × (asks.new ≡ 4) × (marks.new.count ≡ 0) }
    ensures set { agent.old.is_open ≡ true → (setting : Setting) → command_given agent.old.held.agent line.now ≡ Ok (set setting) →
        (result ≡ 0) × (asks.new ≡ 0) × (agent.new.held.agent ≡ agent_after (set_event setting) agent.old.held.agent)
        × (marks.new.count ≡ length (agent_marks (set_event setting) agent.old.held.agent))
        × (take marks.new.count marks.new.items ≡ map numbered (agent_marks (set_event setting) agent.old.held.agent)) }
    ensures stands { agent.old.is_open ≡ true → (setting : Setting) → command_given agent.old.held.agent line.now ≡ Ok (set setting) →
        (past : Past) → Stands past agent.old.held.agent → Stands (with_event past (set_event setting)) agent.new.held.agent }
    ensures sends { agent.old.is_open ≡ true → (setting : Setting) → command_given agent.old.held.agent line.now ≡ Ok (set setting) →
        AllByRecursion (λ mark. IsPort agent.new.held.agent mark.0 × IsSent mark.1) (agent_marks (set_event setting) agent.old.held.agent) }
    ensures promised { agent.old.is_open ≡ true → (setting : Setting) → command_given agent.old.held.agent line.now ≡ Ok (set setting) →
        (past : Past) → Stands past agent.old.held.agent →
        (agent_marks (set_event setting) agent.old.held.agent ≡ marks_of (with_event past (set_event setting)))
        × PromisedStep past (set_event setting) (agent_marks (set_event setting) agent.old.held.agent) agent.new.held.agent
        × HaveSentExactly (with_event past (set_event setting)) }
    ensures open { agent.old.is_open ≡ true → agent.new.is_open ≡ true }
    ensures closed { agent.old.is_open ≡ false → (result ≡ 102) × (agent.new.is_open ≡ false) × (asks.new ≡ asks.old) × (marks.new ≡ marks.old) }
{
    lldpa_command(alloc, agent, line, asks, marks)
}

/// Leaves.
fn leaves(alloc: Global, agent: &mut LldpaAgent, marks: &mut LldpaMarks) -> u8
    ensures value { agent.old.is_open ≡ true → (result ≡ 0) × (agent.new.is_open ≡ true)
        × AllByRecursion (λ port. port.status ≡ Disabled) agent.new.held.agent.ports
        × (marks.new.count ≡ length (shutdowns 0 agent.old.held.agent.ports))
        × (take marks.new.count marks.new.items ≡ map numbered (shutdowns 0 agent.old.held.agent.ports)) }
    ensures after { agent.old.is_open ≡ true → agent.new.held.agent ≡ left (length agent.old.held.agent.ports) agent.old.held.agent }
    ensures sent { agent.old.is_open ≡ true → take marks.new.count marks.new.items
        ≡ map numbered (sent_leaving (length agent.old.held.agent.ports) agent.old.held.agent) }
    ensures stands { agent.old.is_open ≡ true → (past : Past) → Stands past agent.old.held.agent →
        Stands (with_leaving (length agent.old.held.agent.ports) past) agent.new.held.agent }
    ensures closed { agent.old.is_open ≡ false → (result ≡ 102) × (agent.new.is_open ≡ false) × (marks.new ≡ marks.old) }
{
    lldpa_leave(alloc, agent, marks)
}
