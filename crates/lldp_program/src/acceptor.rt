//! Acceptors of connections, and adapters for std's listener.
ghost use Rattle.std.specs.Prelude.{◌≡◌, [], ◌∷◌, ℕ, List, Option};
ghost use Rattle.lldp_engine.specs.Past.{Past};
ghost use Rattle.lldp_engine.specs.Standing.{Stands};
ghost use Rattle.lldp_program.specs.Devices.Acceptors.{Call, RanOver, logged, accepting, binding};
ghost use Rattle.lldp_program.specs.Trace.Runs.{HasRun, KeepsOn};

use crate::device::{DeviceFault, FromReader, ToWriter};
use crate::trace::{RunFault, run_trace};
use lldp_engine::Agent;
use std::net::{Ipv4Addr, Net, TcpListener, TcpStream};

/// Accepts connections, and runs the trace that arrives over each of them.
pub trait Acceptor {
    type Connection;

    /// The calls made so far, the last one first, or None if the acceptor does not report them.
    ghost asked: { Self → Option (List (Call Self.Connection)) };
    /// The octets that a connection will bring, or None if it does not report them.
    ghost to_come: { Self.Connection → Option (List ℕ) };
    /// The octets that were written to a connection, or None if it does not report them.
    ghost taken: { Self.Connection → Option (List ℕ) };

    /// Waits for the next connection.
    fn accept(&mut self) -> Result<Self::Connection, DeviceFault>
        ensures asked { asked self.new ≡ logged (accepting result ∷ []) (asked self.old) };

    /// Runs the trace that arrives over a connection, writes its text there, and closes it.
    fn run(&mut self, connection: Self::Connection, agent: &mut Agent) -> Result<(), RunFault>
        ensures run { RanOver to_come taken connection (asked self.old) (asked self.new)
            agent.old agent.new result }
        ensures headline { (past : Past) → Stands past agent.old → KeepsOn past agent.new };
}

/// An acceptor that must be bound to a port before it accepts connections.
pub trait Bind: Acceptor {
    /// Binds this port of this address. Connections are accepted there from then on.
    fn bind(&mut self, address: [u8; 4], port: u16) -> Result<(), DeviceFault>
        ensures asked { Self.asked self.new
            ≡ logged (binding address port result ∷ []) (Self.asked self.old) };
}

/// An acceptor that accepts from a borrowed listener.
#[derive(Drop)]
pub struct AtListener<'a> {
    pub listener: &'a TcpListener,
}

impl Acceptor for AtListener<'_> {
    type Connection = TcpStream;

    ghost asked = { λ _. Option.None };

    ghost to_come = { λ _. Option.None };

    ghost taken = { λ _. Option.None };

    fn accept(&mut self) -> Result<TcpStream, DeviceFault> {
        match self.listener.accept() {
            Ok((stream, _)) => Ok(stream),
            Err(_) => Err(DeviceFault::Failed),
        }
    }

    fn run(&mut self, connection: TcpStream, agent: &mut Agent) -> Result<(), RunFault> {
        run_connection(connection, agent)
    }
}

/// An acceptor that binds a port through a network, and accepts connections there.
#[derive(Drop)]
pub struct AtPort<'a, N> {
    pub network: &'a N,
    pub listener: Option<TcpListener>,
}

impl<N: Net<Listener = TcpListener, Stream = TcpStream>> Acceptor for AtPort<'_, N> {
    type Connection = TcpStream;

    ghost asked = { λ _. Option.None };

    ghost to_come = { λ _. Option.None };

    ghost taken = { λ _. Option.None };

    fn accept(&mut self) -> Result<TcpStream, DeviceFault> {
        match &self.listener {
            Some(listener) => AtListener { listener }.accept(),
            None => Err(DeviceFault::Failed),
        }
    }

    fn run(&mut self, connection: TcpStream, agent: &mut Agent) -> Result<(), RunFault> {
        run_connection(connection, agent)
    }
}

impl<N: Net<Listener = TcpListener, Stream = TcpStream>> Bind for AtPort<'_, N> {
    fn bind(&mut self, address: [u8; 4], port: u16) -> Result<(), DeviceFault> {
        match TcpListener::bind(self.network, (Ipv4Addr::from(address), port)) {
            Ok(listener) => {
                self.listener = Some(listener);
                Ok(())
            }
            Err(_) => Err(DeviceFault::Failed),
        }
    }
}

/// Runs the trace that arrives over a TCP connection. The connection does not report its octets.
fn run_connection(connection: TcpStream, agent: &mut Agent) -> Result<(), RunFault>
    ensures run { HasRun Option.None Option.None Option.None Option.None
        agent.old agent.new result }
    ensures headline { (past : Past) → Stands past agent.old → KeepsOn past agent.new }
{
    // Each answer is sent at once, without waiting for the client to acknowledge the one before.
    let _ = connection.set_nodelay(true);
    let (mut input, mut output) = (&connection, &connection);
    run_trace(
        agent,
        &mut FromReader::new(&mut input),
        &mut ToWriter::new(&mut output),
    )
}
