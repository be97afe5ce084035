//! Tests the program with arguments that ask to listen.
use super::devices::{Drip, Fuse, Network};
use super::sockets::{ASK, ASK_IN_VAIN, Client, LEARN, LEAVE, listen, read_all, send_all};
use super::statuses::expect_status;
use lldp_program::arguments::{listening_of, parse};
use std::net::{Net, TcpListener, TcpStream};
use std::process::Abort;
use std::test::Fail;

const DONE: (u8, &str) = (0, "");

const SOCKET_FAILED: (u8, &str) = (1, "lldpa: socket failed\n");

/// Runs the program. Checks its status and fault, and that it uses neither reader nor writer.
fn run(
    rt: &(impl Abort + AllocGlobal),
    net: &impl Net<Listener = TcpListener, Stream = TcpStream>,
    words: &str,
    wanted: (u8, &str),
) -> Result<(), Fail> {
    let mut reader = Drip::whole(b"show chassis\n");
    let mut writer = Fuse::endless();
    expect_status(rt, net, words, &mut reader, &mut writer, wanted)?;
    assert_eq!(rt; reader.calls, 0);
    assert_eq!(rt; writer.taken(), b"".as_slice());
    Ok(())
}

/// Connects clients and sends their lines, runs the program with the arguments of each row, and
/// compares what the clients receive.
fn serve_all(
    rt: &(impl Abort + AllocGlobal + Net<Stream = TcpStream, Listener = TcpListener>),
    clients: &[Client<'_>],
    rows: &[(&str, (u8, &str))],
) -> Result<(), Fail> {
    let listener = listen(rt)?;
    let waiting = send_all(rt, &listener, clients)?;
    let net = Network {
        listener: Some(&listener),
    };
    for &(words, wanted) in rows {
        run(rt, &net, words, wanted)?;
    }
    read_all(rt, waiting)
}

/// Checks the port and the number of connections that the arguments ask for.
#[test]
fn port_and_connections(rt: HostRuntime) -> Result<(), Fail> {
    let rows: &[(&[&str], Option<(u16, u16)>)] = &[
        (&["lldpa"], None),
        (&["lldpa", "--connections=7"], None),
        (&["lldpa", "--listen=1"], Some((1, 1))),
        (
            &["lldpa", "--listen=65534", "--connections=65535"],
            Some((65534, 65535)),
        ),
    ];
    for &(words, wanted) in rows {
        let matches = parse(rt.alloc(), words)?;
        let found = listening_of(&matches).map(|found| (found.port, found.connections));
        assert_eq!(rt; found, wanted);
    }
    Ok(())
}

/// Checks that exactly as many clients are served as the arguments ask for.
#[test]
fn serves_so_many(rt: HostRuntime) -> Result<(), Fail> {
    let two = "lldpa --listen 4711 --receive-only eth0 --connections 2";
    let one = "lldpa --listen 4711 --receive-only eth0";
    let clients = [LEARN, ASK, ASK_IN_VAIN, ASK_IN_VAIN];
    serve_all(&rt, &clients, &[(two, DONE), (one, DONE), (one, DONE)])
}

/// Checks that the fault of a connection is reported after all were served.
#[test]
fn faulty_connection(rt: HostRuntime) -> Result<(), Fail> {
    let words = "lldpa --receive-only --listen=4711 --connections=2 eth0";
    serve_all(&rt, &[LEAVE, ASK_IN_VAIN], &[(words, SOCKET_FAILED)])
}

/// The whole message for an argument that is not an option.
const NO_SUCH: &str = "error: unexpected argument '--no-such' found

  tip: to pass '--no-such' as a value, use '-- --no-such'

Usage: lldpa [OPTIONS] PORT...

For more information, try '--help'.
";

/// Checks the answer if no client comes, and if the network has another port. Checks that options
/// are refused before a port is bound, and that an empty list of arguments is like the program's
/// name alone.
#[test]
fn nobody_is_served(rt: HostRuntime) -> Result<(), Fail> {
    let rows: &[(&str, (u8, &str))] = &[
        ("", (2, "lldpa: no ports\n")),
        ("lldpa --no-such eth0", (2, NO_SUCH)),
        ("lldpa --listen 4711 eth0", SOCKET_FAILED),
        ("lldpa --listen 4712 eth0", SOCKET_FAILED),
        ("lldpa --listen 4712 a.b", (2, "lldpa: bad port name\n")),
        (
            "lldpa --listen 4712 --mac 1 eth0",
            (2, "lldpa: bad --mac\n"),
        ),
    ];
    serve_all(&rt, &[], rows)
}

/// Checks the answer if another program already listens at the port.
#[test]
fn port_in_use(rt: HostRuntime) -> Result<(), Fail> {
    let listener = listen(&rt)?;
    let port = listener.local_addr()?.port();
    let words = format!(in rt.alloc(); "lldpa --listen {port} eth0")?;
    run(&rt, &rt, words.as_str(), SOCKET_FAILED)
}
