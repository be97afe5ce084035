//! Tests traces that arrive over connections to a listener on this host.
use super::runs::{HEARD, expect_counters};
use super::statuses::NONE;
use crate::engine::{only_receiving, open};
use lldp_engine::Agent;
use lldp_program::device::{FromReader, ToWriter};
use lldp_program::serve::{ServeFault, serve};
use lldp_program::trace::{RunFault, run_trace};
use std::io;
use std::io::{Error, ErrorKind, Read, Write};
use std::net::{Net, Shutdown, TcpListener, TcpStream};
use std::process::Abort;
use std::test::Fail;
use std::time::Duration;

const SHOW: &str = "show neighbors\n";

/// The answer to `SHOW` if only the neighbor of `HEARD` is held.
const SHOWN: &str = "lldp.eth0.neighbors=1
lldp.eth0.octets=20
lldp.eth0.too-many=no
lldp.eth0.1.chassis.mac=00:11:22:33:44:55
lldp.eth0.1.port.ifname=eth0
lldp.eth0.1.ttl=120
lldp.eth0.1.expires=120
";

/// A client: what it sends, and the answer that it reads. A client without an answer leaves without
/// reading.
pub type Client<'a> = (&'a [&'a str], Option<&'a str>);

/// A client that sends a neighbor's frame.
pub const LEARN: Client<'static> = (&[HEARD], Some(""));

/// A client that asks for the neighbors, and expects one.
pub const ASK: Client<'static> = (&[SHOW], Some(SHOWN));

/// A client that asks for the neighbors, and expects none.
pub const ASK_IN_VAIN: Client<'static> = (&[SHOW], Some(NONE));

/// A client that asks 200 times, and leaves without reading.
pub const LEAVE: Client<'static> = (&[SHOW; 200], None);

/// A client that sends nothing.
const NOTHING: Client<'static> = (&[], Some(""));

/// A client whose only line is not whole.
const HALF_A_LINE: Client<'static> = (&["show neigh"], Some("error: unknown command\n"));

/// Returns a listener at a free port. If no client waits there, accepting fails.
pub fn listen(
    rt: &(impl Abort + AllocGlobal + Net<Stream = TcpStream, Listener = TcpListener>),
) -> io::Result<TcpListener> {
    let listener = TcpListener::bind(rt, "127.0.0.1:0")?;
    listener.set_nonblocking(true)?;
    Ok(listener)
}

/// Connects to a listener. A read of the client waits for at most ten seconds.
fn connect(
    rt: &(impl Abort + AllocGlobal + Net<Stream = TcpStream, Listener = TcpListener>),
    listener: &TcpListener,
) -> io::Result<TcpStream> {
    let client = TcpStream::connect(rt, listener.local_addr()?)?;
    client.set_read_timeout(Some(Duration::from_secs(10)))?;
    Ok(client)
}

/// Connects the clients, and sends their lines. Returns the clients that wait for an answer.
pub fn send_all<'a>(
    rt: &(impl Abort + AllocGlobal + Net<Stream = TcpStream, Listener = TcpListener>),
    listener: &TcpListener,
    clients: &[Client<'a>],
) -> Result<Vec<(TcpStream, &'a str)>, Fail> {
    let mut waiting = Vec::new(rt.alloc());
    for &(texts, answer) in clients {
        let mut stream = connect(rt, listener)?;
        for text in texts {
            stream.write_all(text.as_bytes())?;
        }
        if let Some(answer) = answer {
            stream.shutdown(Shutdown::Write)?;
            waiting.push((stream, answer))?;
        }
    }
    Ok(waiting)
}

/// Checks that each client receives exactly its answer.
pub fn read_all(
    rt: &(impl Abort + AllocGlobal),
    waiting: Vec<(TcpStream, &str)>,
) -> Result<(), Fail> {
    for (stream, answer) in waiting {
        let got = io::read_to_string(rt.alloc(), stream)?;
        assert_eq!(rt; got.as_str(), answer);
    }
    Ok(())
}

/// An agent that only receives, and the listener at which it is served.
#[derive(Drop)]
struct Server {
    agent: Agent,
    listener: TcpListener,
}

impl Server {
    fn open(
        rt: &(impl Abort + AllocGlobal + Net<Stream = TcpStream, Listener = TcpListener>),
    ) -> Result<Server, Fail> {
        Ok(Server {
            agent: open(rt, rt.alloc(), &only_receiving(&["eth0"], 32))?,
            listener: listen(rt)?,
        })
    }

    /// Connects clients and sends their lines. Calls `serve` for each of these numbers of
    /// connections, and compares its answers. Then compares what the clients receive. Failures of
    /// calls print `name`.
    fn serves(
        &mut self,
        rt: &(impl Abort + AllocGlobal + Net<Stream = TcpStream, Listener = TcpListener>),
        name: &str,
        clients: &[Client<'_>],
        calls: &[(u16, Result<u16, ServeFault>)],
    ) -> Result<(), Fail> {
        let waiting = send_all(rt, &self.listener, clients)?;
        for &(connections, answer) in calls {
            let served = serve(&mut self.agent, &self.listener, connections);
            assert_eq!(rt; served, answer, "{name}");
        }
        read_all(rt, waiting)
    }
}

/// Clients that connect and send their lines, and then calls of `serve`: how many connections each
/// may serve, and its answer.
type Scene<'a> = (&'a [Client<'a>], &'a [(u16, Result<u16, ServeFault>)]);

/// Scenes with one agent and one listener. No more clients are served than requested, also if 0 are
/// requested; each client is served, whatever the client before it did; and connections before a
/// failed accept were served.
const ROWS: &[(&str, &[Scene<'_>])] = &[
    ("two connections", &[(&[LEARN, ASK], &[(2, Ok(0))])]),
    (
        "no connections",
        &[
            (&[], &[(0, Ok(0))]),
            (&[LEARN, ASK], &[(0, Ok(0)), (1, Ok(0)), (1, Ok(0))]),
        ],
    ),
    (
        "client that does not read",
        &[(&[LEARN, LEAVE, NOTHING, HALF_A_LINE, ASK], &[(5, Ok(1))])],
    ),
    (
        "nobody to accept",
        &[
            (&[LEARN], &[(2, Err(ServeFault::Accept))]),
            (&[ASK], &[(1, Ok(0))]),
        ],
    ),
];

#[test]
fn scenes(rt: HostRuntime) -> Result<(), Fail> {
    for (name, scenes) in ROWS {
        let mut server = Server::open(&rt)?;
        for (clients, calls) in *scenes {
            server.serves(&rt, name, clients, calls)?;
        }
    }
    Ok(())
}

/// Checks that the next client is served after a client left without reading its answer. The client
/// that left may or may not count as a fault.
#[test]
fn client_that_leaves(rt: HostRuntime) -> Result<(), Fail> {
    let mut server = Server::open(&rt)?;
    let gone: Client<'_> = (&[HEARD, SHOW], None);
    let waiting = send_all(&rt, &server.listener, &[gone, ASK])?;
    let faulty = serve(&mut server.agent, &server.listener, 2)?;
    assert!(rt; faulty <= 1);
    read_all(&rt, waiting)
}

/// The counters after a thousand frames.
const HEARD_ALL: [&str; 3] = [
    "lldp.eth0.sent=0",
    "lldp.eth0.shutdowns=0",
    "lldp.eth0.received=1000",
];

/// Checks that one agent serves a thousand clients, one after another.
#[test]
fn many_connections(rt: HostRuntime) -> Result<(), Fail> {
    let mut server = Server::open(&rt)?;
    for _client in 0..1000 {
        server.serves(&rt, "many connections", &[LEARN], &[(1, Ok(0))])?;
    }
    expect_counters(&rt, &server.agent, &HEARD_ALL);
    Ok(())
}

/// A connection whose client reads each answer before it sends its next lines, and at the end
/// leaves. A read fails if an answer differs.
#[derive(Drop)]
struct Conversation<'a> {
    client: Option<TcpStream>,
    stream: &'a TcpStream,
    /// Lines, and the answer to them.
    steps: &'a [(&'a str, &'a str)],
    sent: usize,
}

impl Read for Conversation<'_> {
    fn read(&mut self, room: &mut [u8]) -> io::Result<usize> {
        let Some(mut client) = self.client.take() else {
            return self.stream.read(room);
        };
        if let Some(step) = self.steps.get(self.sent.wrapping_sub(1)) {
            for octet in step.1.as_bytes() {
                let mut next = [0];
                client.read_exact(&mut next)?;
                if next[0] != *octet {
                    return Err(Error::from(ErrorKind::InvalidData));
                }
            }
        }
        match self.steps.get(self.sent) {
            Some(step) => {
                client.write_all(step.0.as_bytes())?;
                self.sent = self.sent.saturating_add(1);
                self.client = Some(client);
            }
            None => drop(client),
        }
        self.stream.read(room)
    }
}

/// Runs the trace of a conversation. Checks the answer, and that the agent keeps the neighbor.
fn converse(
    rt: &(impl Abort + AllocGlobal + Net<Stream = TcpStream, Listener = TcpListener>),
    steps: &[(&str, &str)],
    answer: Result<(), RunFault>,
) -> Result<(), Fail> {
    let mut server = Server::open(rt)?;
    let client = connect(rt, &server.listener)?;
    let (stream, _) = server.listener.accept()?;
    let mut conversation = Conversation {
        client: Some(client),
        stream: &stream,
        steps,
        sent: 0,
    };
    let ran = run_trace(
        &mut server.agent,
        &mut FromReader::new(&mut conversation),
        &mut ToWriter::new(&mut &stream),
    );
    assert_eq!(rt; ran, answer);
    server.serves(rt, "after a conversation", &[ASK], &[(1, Ok(0))])
}

/// Checks that each answer arrives before the next line is sent, while the connection is still
/// open.
#[test]
fn answers_come_at_once(rt: HostRuntime) -> Result<(), Fail> {
    let steps = [
        (SHOW, NONE),
        ("tick 0\ntick", "error: out of range\n"),
        (" x\n", "error: not a number\n"),
        ("rx eth0", ""),
        (" 00\n", ""),
        (HEARD, ""),
        (SHOW, SHOWN),
    ];
    converse(&rt, &steps, Ok(()))
}

/// Checks that the run fails with Read if its client leaves without reading an answer.
#[test]
fn client_that_resets(rt: HostRuntime) -> Result<(), Fail> {
    let steps = [(HEARD, ""), ("show neighbors\nrx eth0", "")];
    converse(&rt, &steps, Err(RunFault::Read))
}
