//! Tests runs over octets in memory, whole and in pieces.
ghost use Rattle.std.specs.Prelude.{◌≡◌, ◌<◌, length, IfOk, OnOk};
ghost use Rattle.lldp_engine.specs.Past.{Past};
ghost use Rattle.lldp_engine.specs.Standing.{Stands};
ghost use Rattle.lldp_program.specs.Devices.Adapters.{source_calls, source_ends, source_failures};
ghost use Rattle.lldp_program.specs.Devices.Counts.{ends_after, failures_after, one_more};
ghost use Rattle.lldp_program.specs.Trace.Items.{text, after_input};

use super::devices::{Drip, Fuse};
use crate::engine::{only_receiving, open};
use lldp_engine::{Agent, Options, Show};
use lldp_program::device::{DeviceFault, FromReader, Source, ToWriter};
use lldp_program::trace::{RunFault, run_trace};
use std::io::Read;
use std::process::Abort;
use std::test::Fail;

/// The line of an ordinary frame of port eth0 with default options.
pub const SENT: &str =
    "tx eth0 0180c200000e02000000000188cc02070402000000000104050565746830060200790804657468300a096c6f63616c686f73740c056c6c6470610e04008000800000\n";

/// A line with a frame of the neighbor eth0.
pub const HEARD: &str =
    "rx eth0 0180c200000e00112233445588cc02070400112233445504050565746830060200780000\n";

/// A trace in which a neighbor with a TTL of 1 is shown and ages out, and lines are refused. The
/// last line has no LF.
pub const INPUT: &[u8] =
    b"rx eth0 0180c200000e00112233445588cc02070400112233445504050565746830060200010000
show neighbors
# tick
tick
show neighbors
rx eth9 00

\ttick 0
\"tick\" x
show neighbors x
show neighbors";

pub const OUTPUT: &[u8] = b"lldp.eth0.neighbors=1
lldp.eth0.octets=20
lldp.eth0.too-many=no
lldp.eth0.1.chassis.mac=00:11:22:33:44:55
lldp.eth0.1.port.ifname=eth0
lldp.eth0.1.ttl=1
lldp.eth0.1.expires=1
lldp.eth0.neighbors=0
lldp.eth0.octets=0
lldp.eth0.too-many=no
error: no such port
error: out of range
error: not a number
error: extra word
lldp.eth0.neighbors=0
lldp.eth0.octets=0
lldp.eth0.too-many=no
";

/// Returns the default options of an agent with one port.
pub fn sending() -> Options<'static> {
    let mut options = only_receiving(&["eth0"], 32);
    options.receive_only = false;
    options
}

/// Checks that the counters of eth0 begin with these lines.
pub fn expect_counters(rt: &impl Abort, agent: &Agent, wanted: &[&str]) {
    for (place, line) in (0..u32::MAX).zip(wanted) {
        let Some(shown) = agent.show_line(&Show::Statistics, place) else {
            panic!(rt; "there is no such counter: {line}");
        };
        assert_eq!(rt; shown.as_slice(), line.as_bytes());
    }
}

/// Runs a trace over these devices, and checks the answer and the output. Failures print `place`.
pub fn expect_run(
    rt: &(impl Abort + AllocGlobal),
    agent: &mut Agent,
    drip: &mut Drip<'_>,
    mut fuse: Fuse,
    wanted: (Result<(), RunFault>, &[u8]),
    place: usize,
) {
    let ran = run_trace(
        agent,
        &mut FromReader::new(drip),
        &mut ToWriter::new(&mut fuse),
    );
    assert_eq!(rt; ran, wanted.0, "at {place}");
    assert_eq!(rt; fuse.taken(), wanted.1, "at {place}");
}

/// Returns what a run over the input writes. The clauses follow from public contracts alone.
pub fn text_of_input(
    rt: &(impl Abort + AllocGlobal),
    agent: &mut Agent,
    input: &[u8],
) -> Result<Vec<u8>, RunFault>
    ensures text { IfOk result (λ out. (past : Past) → Stands past agent.old →
        out.items ≡ text past input.now) }
    ensures stands { OnOk result ((past : Past) → Stands past agent.old →
        Stands (after_input past input.now) agent.new) }
{
    let mut octets = input;
    let mut out = Vec::new(rt.alloc());
    let mut reader = FromReader::new(&mut octets);
    let mut writer = ToWriter::new(&mut out);
    run_trace(agent, &mut reader, &mut writer)?;
    Ok(out)
}

#[test]
fn runs_octets(rt: HostRuntime) -> Result<(), Fail> {
    let mut agent = open(&rt, rt.alloc(), &only_receiving(&["eth0"], 32))?;
    let out = text_of_input(&rt, &mut agent, INPUT)?;
    assert_eq!(rt; out.as_slice(), OUTPUT);
    Ok(())
}

/// Reads once from a new source, and returns it with the answer. Its counts begin at 0.
pub fn read_once<'a, R: Read>(
    reader: &'a mut R,
    room: &mut [u8],
) -> (FromReader<'a, R>, Result<usize, DeviceFault>)
    requires { 0 < length room.old }
    ensures calls { source_calls result.0 ≡ one_more 0 }
    ensures failures { source_failures result.0 ≡ failures_after 0 result.1 }
    ensures ends { source_ends result.0 ≡ ends_after 0 result.1 }
{
    let mut source = FromReader::new(reader);
    let answer = source.read(room);
    (source, answer)
}

/// Checks that each read of a `FromReader` makes one read of its stream and returns the answer of
/// that read.
#[test]
fn adapters_ask(rt: HostRuntime) -> Result<(), Fail> {
    let mut drip = Drip::new(b"abc", 2, 2, Some(2));
    let mut room = [0; 4];
    for read in [Some(2), None, Some(1), Some(0)] {
        assert_eq!(rt; read_once(&mut drip, &mut room).1.ok(), read);
    }
    assert_eq!(rt; &room[..2], b"cb".as_slice());
    assert_eq!(rt; drip.calls, 4);
    Ok(())
}
