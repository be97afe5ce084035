//! Tests calls that a host with an embedded agent makes, but the program does not.
use super::{only_receiving, open};
use linked_list_allocator::LocalHeap;
use lldp_engine::{Agent, Command, CommandFault, Event, Mark, Show};
use lldp_table::Entry;
use std::alloc::Allocator;
use std::process::Abort;
use std::test::Fail;

/// An Ethernet header, then Chassis ID, Port ID, TTL 120 and System Name.
const FRAME: &[u8] =
    b"\x01\x80\xc2\x00\x00\x0e\x00\x11\x22\x33\x44\x55\x88\xcc\x02\x07\x04\x00\x11\x22\x33\x44\x55\x04\x05\x05eth7\x06\x02\x00\x78\x0a\x03sw2";

/// The shutdown frame of `eth0`, with the MAC 02:00:00:00:00:01.
const SHUTDOWN: &[u8] =
    b"\x01\x80\xc2\x00\x00\x0e\x02\x00\x00\x00\x00\x01\x88\xcc\x02\x07\x04\x02\x00\x00\x00\x00\x01\x04\x05\x05eth0\x06\x02\x00\x00\x00\x00";

#[test]
fn commands_and_frames(rt: HostRuntime) -> Result<(), Fail> {
    let agent = open(&rt, rt.alloc(), &only_receiving(&["eth0"], 2))?;
    let show = agent.read_command(b"show \"neighbors\"");
    assert!(rt; matches!(show, Ok(Command::Show(Show::Neighbors))));
    let refused = agent.read_command(b"show neighbors x");
    assert!(rt; matches!(refused, Err(CommandFault::Extra)));
    assert!(rt; 0 < agent.ports());
    assert_eq!(rt; agent.frame(0, Mark::Shutdown).as_slice(), SHUTDOWN);
    Ok(())
}

/// Passes an event to the agent, which must accept it.
fn take<A: Allocator>(rt: &impl Abort, agent: &mut Agent<A>, event: Event<'_>) {
    assert!(rt; agent.allows(&event));
    agent.step(event);
}

/// Checks that a neighbor is that of `FRAME`, with this many ticks left.
fn expect_neighbor(rt: &impl Abort, neighbor: &Entry<'_>, left: u16) {
    assert_eq!(rt; (neighbor.ttl(), neighbor.left()), (120, left));
    assert_eq!(rt; neighbor.msap().port, b"\x05eth7".as_slice());
    assert_eq!(rt; neighbor.octets(), &FRAME[14..]);
}

/// Checks that the first of two ports has no neighbor, and the second one has that of `FRAME`, with
/// this many ticks left.
fn expect_heard<A: Allocator>(rt: &impl Abort, agent: &Agent<A>, left: u16) {
    assert_eq!(rt; agent.ports(), 2);
    assert_eq!(rt; agent.port_name(0), b"eth0".as_slice());
    assert_eq!(rt; agent.port_name(1), b"eth1".as_slice());
    assert_eq!(rt; agent.table(0).len(), 0);
    let second = agent.table(1);
    assert_eq!(rt; second.len(), 1);
    expect_neighbor(rt, &second.entry(0), left);
}

/// Checks that a frame at the second of two ports is stored there alone, that each port keeps its
/// number, and that no event takes memory.
#[test]
fn frame_at_the_second_port(rt: HostRuntime) -> Result<(), Fail> {
    let heap = LocalHeap::new(rt.alloc(), 100_000)?;
    let mut agent = open(&rt, &heap, &only_receiving(&["eth0", "eth1"], 2))?;
    let used = heap.used();
    let event = Event::Frame {
        port: 1,
        octets: FRAME,
    };
    take(&rt, &mut agent, event);
    expect_heard(&rt, &agent, 120);
    take(&rt, &mut agent, Event::Tick);
    expect_heard(&rt, &agent, 119);
    assert_eq!(rt; heap.used(), used);
    Ok(())
}

#[test]
fn numbers_of_command_faults(rt: HostRuntime) -> Result<(), Fail> {
    for (fault, number) in [
        (CommandFault::Unknown, 1),
        (CommandFault::NoSuchPort, 2),
        (CommandFault::Number, 3),
        (CommandFault::Range, 4),
        (CommandFault::Text, 5),
        (CommandFault::Extra, 6),
        (CommandFault::Quote, 7),
        (CommandFault::InUse, 8),
    ] {
        assert_eq!(rt; fault.number(), number);
    }
    Ok(())
}
