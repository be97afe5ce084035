//! Runs traces that arrive over connections, one after another.
ghost use Rattle.std.specs.Prelude.{◌≡◌, ◌≤◌, IfOk};
ghost use Rattle.lldp_engine.specs.Past.{Past};
ghost use Rattle.lldp_engine.specs.Standing.{Stands};
ghost use Rattle.lldp_program.specs.Faults.FaultNumber.{number_of_serve_fault};
ghost use Rattle.lldp_program.specs.Trace.Runs.{KeepsOn};
ghost use Rattle.lldp_program.specs.Serving.{HasAsked, HasListened, faults_in};

use crate::acceptor::{Acceptor, AtListener, Bind};
use crate::arguments::Listening;
use crate::device::DeviceFault;
use crate::trace::RunFault;
use lldp_engine::Agent;
use std::net::TcpListener;
use thiserror::Error;

/// Why serving ended before its last connection.
#[derive(Clone, Copy, Debug, PartialEq, Eq, Error)]
pub enum ServeFault {
    /// A connection could not be accepted.
    #[error("lldpa: socket failed")]
    Accept = 1,
}

impl ServeFault {
    /// Returns the number of the fault, 1.
    pub fn number(self) -> u8
        ensures { result ≡ number_of_serve_fault self }
    {
        self as u8
    }
}

/// Returns 1 if a run ended with a fault, else 0.
fn count_fault(ran: Result<(), RunFault>) -> u16
    ensures { result ≡ faults_in ran }
{
    match ran {
        Ok(()) => 0,
        Err(_) => 1,
    }
}

/// Accepts this many connections, one after another, and runs the trace that arrives over each
/// before it accepts the next, even after a fault. Returns how many of these runs ended with a
/// fault. The agent keeps its state from one connection to the next. Fails if accepting fails; by
/// then the trace of each accepted connection has been run. An acceptor that reports its calls
/// reports these accepts and runs, and no other calls. In every case `KeepsOn` holds: the agent has
/// the state after its past and some more allowed events.
pub fn serve_connections<D: Acceptor>(
    agent: &mut Agent,
    acceptor: &mut D,
    connections: u16,
) -> Result<u16, ServeFault>
    // The calls of the acceptor: each connection was accepted and its trace was run once, or
    // accepting failed before the last connection.
    ensures asked { HasAsked D.to_come D.taken (D.asked acceptor.old) (D.asked acceptor.new) connections
        agent.old agent.new result }
    ensures few { IfOk result (λ faulty. faulty ≤ connections) }
    // This holds for all octets that connections bring, even if accepting failed.
    ensures headline { (past : Past) → Stands past agent.old → KeepsOn past agent.new }
{
    let mut faulty = 0;
    for _served in 0..connections {
        let Ok(connection) = acceptor.accept() else {
            return Err(ServeFault::Accept);
        };
        faulty += count_fault(acceptor.run(connection, agent));
    }
    Ok(faulty)
}

/// Binds a port of 127.0.0.1, and then serves this many connections there. Returns Ok exactly if
/// all were served and no run had a fault. Fails if binding fails (then no further call of the
/// acceptor is made), if accepting fails, or if a run ends with a fault. `KeepsOn` holds for the
/// agent in every case.
pub fn listen<D: Bind>(
    agent: &mut Agent,
    acceptor: &mut D,
    listening: Listening,
) -> Result<(), DeviceFault>
    ensures asked { HasListened D.to_come D.taken (D.asked acceptor.old) (D.asked acceptor.new)
        listening agent.old agent.new result }
    ensures headline { (past : Past) → Stands past agent.old → KeepsOn past agent.new }
{
    let Ok(()) = acceptor.bind([127, 0, 0, 1], listening.port) else {
        return Err(DeviceFault::Failed);
    };
    match serve_connections(agent, acceptor, listening.connections) {
        Ok(0) => Ok(()),
        _ => Err(DeviceFault::Failed),
    }
}

/// Serves this many connections to a listener, as `serve_connections` does, and returns how many of
/// them ended with a fault. The toolchain's sockets do not report their octets, and a listener does
/// not report its calls, so no clause says that any client is served.
pub fn serve(agent: &mut Agent, listener: &TcpListener, connections: u16) -> Result<u16, ServeFault>
    ensures few { IfOk result (λ faulty. faulty ≤ connections) }
    // This holds for all octets that connections bring, even if accepting failed.
    ensures headline { (past : Past) → Stands past agent.old → KeepsOn past agent.new }
{
    serve_connections(agent, &mut AtListener { listener }, connections)
}
