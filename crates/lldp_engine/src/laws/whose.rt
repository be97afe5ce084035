//! Laws of which ports an event concerns.
ghost use Rattle.std.specs.Prelude.{◌≡◌, ◌≢◌, ℕ, Bool, List, All};
ghost use Rattle.std.specs.Option.{option_map};
ghost use Rattle.lldp_engine.specs.declared.port.status.Status.{Status};
ghost use Rattle.lldp_engine.specs.Options.{InRange};
ghost use Rattle.lldp_engine.specs.Event.{tick, frame, link, set, Setting, limit, status};
ghost use Rattle.lldp_engine.specs.Past.{Past, with_event, agent_of};
ghost use Rattle.lldp_engine.specs.Laws.PortAt.{neighbors_at, LeavesPort, LeavesTables};
ghost use Rattle.lldp_engine.specs.Laws.Neighbors.{one_tick_older};

/// A frame, a link event or a status command concerns one port: every other port stays as it was
/// and sends nothing. The four numbers of the options must be in their ranges, as in every agent.
pub fn events_of_one_port_leave_the_others()
    ensures frame { (past : Past) (port other : ℕ) (octets : List ℕ) → InRange past.options →
        other ≢ port → LeavesPort past (frame port octets) other }
    ensures link { (past : Past) (port other : ℕ) (up : Bool) → InRange past.options →
        other ≢ port → LeavesPort past (link port up) other }
    ensures status { (past : Past) (port other : ℕ) (given : Status) → InRange past.options →
        other ≢ port → LeavesPort past (set (status port given)) other }
{}

/// A tick concerns each port: each neighbor has one tick less left, and neighbors with none left
/// are removed.
#[tactic(auto, using(crate::proofs::ForLaws::Whose::tick_ages))]
pub fn ticks_come_to_each_port()
    ensures { (past : Past) (i : ℕ) →
        neighbors_at (with_event past tick) i
        ≡ option_map one_tick_older (neighbors_at past i) }
{}

/// Only ticks, frames, limits and statuses change tables, and a limit removes no neighbor.
#[tactic(auto, using(crate::proofs::ForLaws::Whose::links_and_updates_leave_tables))]
pub fn links_and_updates_leave_tables()
    ensures link { (past : Past) (port : ℕ) (up : Bool) → LeavesTables past (link port up) }
    ensures setting { (past : Past) (setting : Setting) →
        ((port : ℕ) (given : Status) → setting ≢ status port given) →
        ((neighbors : ℕ) → setting ≢ limit neighbors) → LeavesTables past (set setting) }
    ensures limit { (past : Past) (i neighbors : ℕ) →
        neighbors_at (with_event past (set (limit neighbors))) i ≡ neighbors_at past i }
{}

/// After any past, each port's table has the configured limit, and room for as many neighbors as
/// the options allow.
#[tactic(auto, using(crate::proofs::ForLaws::Whose::ports_have_the_configured_limit))]
pub fn ports_have_the_configured_limit()
    ensures limit { (past : Past) →
        All (λ port. port.table.limit ≡ (agent_of past).configuration.limit)
        (agent_of past).ports }
    ensures room { (past : Past) →
        All (λ port. port.table.capacity ≡ past.options.max_neighbors) (agent_of past).ports }
{}
