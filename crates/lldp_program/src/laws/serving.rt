//! What is true after connections were served.
ghost use Rattle.std.specs.Prelude.{List, Option};
ghost use Rattle.lldp_engine.specs.AgentState.{AgentState};
ghost use Rattle.lldp_program.specs.Devices.Acceptors.{Call};
ghost use Rattle.lldp_program.specs.Laws.Served.{ServesAll};

use crate::acceptor::Acceptor;

/// For any acceptor: if the answer is not a fault, all requested connections were served, each over
/// the agent as the connection before left it, and `listen` served them at 127.0.0.1. It answers a
/// fault only if binding or accepting failed, or a run had a fault.
pub fn all_connections_are_served<D: Acceptor>()
    ensures { (old new : Option (List (Call D.Connection))) (before after : AgentState) →
        ServesAll D.to_come D.taken old new before after }
{}
