//! Tests runs over devices that fail.
use super::devices::{Burn, Drip, Fuse};
use super::runs::{HEARD, INPUT, OUTPUT, SENT, expect_counters, expect_run, sending};
use crate::engine::{only_receiving, open};
use lldp_program::trace::RunFault;
use std::process::Abort;
use std::test::Fail;

/// Checks that the tick whose LF was read was done, and the other tick was not: one second was
/// counted, and the next frame is sent 30 seconds after the first.
#[test]
fn reader_that_fails_inside_a_line(rt: HostRuntime) -> Result<(), Fail> {
    let rows: &[(&[u8], Option<usize>, Result<(), RunFault>, &str)] = &[
        (b"tick\ntick", Some(2), Err(RunFault::Read), SENT),
        (b"tick\n", None, Ok(()), ""),
        (b"tick 28\n", None, Ok(()), ""),
        (b"tick\n", None, Ok(()), SENT),
    ];
    let mut agent = open(&rt, rt.alloc(), &sending())?;
    for (place, &(input, fails_at, answer, output)) in rows.iter().enumerate() {
        let mut drip = Drip::new(input, usize::MAX, usize::MAX, fails_at);
        let wanted = (answer, output.as_bytes());
        expect_run(&rt, &mut agent, &mut drip, Fuse::endless(), wanted, place);
        assert_eq!(rt; drip.calls, 2);
    }
    Ok(())
}

/// Lines with frames of the neighbors eth1, eth2 (TTL 9 seconds) and eth3 (TTL 5 seconds).
const HEARD_OTHER: &str =
    "rx eth0 0180c200000e00112233445588cc02070400112233445504050565746831060200780000\n";

const HEARD_NINE: &str =
    "rx eth0 0180c200000e00112233445588cc02070400112233445504050565746832060200090000\n";

const HEARD_FIVE: &str =
    "rx eth0 0180c200000e00112233445588cc02070400112233445504050565746833060200050000\n";

const SHOWN_FULL: &str = "lldp.eth0.neighbors=2
lldp.eth0.octets=40
lldp.eth0.too-many=yes
lldp.eth0.1.chassis.mac=00:11:22:33:44:55
lldp.eth0.1.port.ifname=eth0
lldp.eth0.1.ttl=120
lldp.eth0.1.expires=112
lldp.eth0.2.chassis.mac=00:11:22:33:44:55
lldp.eth0.2.port.ifname=eth1
lldp.eth0.2.ttl=120
lldp.eth0.2.expires=112
";

const SHOWN_LATER: &str = "lldp.eth0.neighbors=2
lldp.eth0.octets=40
lldp.eth0.too-many=no
lldp.eth0.1.chassis.mac=00:11:22:33:44:55
lldp.eth0.1.port.ifname=eth0
lldp.eth0.1.ttl=120
lldp.eth0.1.expires=111
lldp.eth0.2.chassis.mac=00:11:22:33:44:55
lldp.eth0.2.port.ifname=eth1
lldp.eth0.2.ttl=120
lldp.eth0.2.expires=111
";

/// Lines about four neighbors for a table of two, each with the text that it writes.
const FULL_TABLE: &[(&str, &str)] = &[
    (HEARD, ""),
    (HEARD_OTHER, ""),
    (HEARD_NINE, ""),
    (HEARD_FIVE, ""),
    (HEARD, ""),
    ("tick 8\n", ""),
    ("show neighbors\n", SHOWN_FULL),
    ("tick\n", ""),
    ("show neighbors\n", SHOWN_LATER),
];

/// Runs `FULL_TABLE` with a reader that returns one octet at each call and fails at this call, and
/// compares what was written before.
fn fails_at_call(
    rt: &(impl Abort + AllocGlobal),
    input: &str,
    call: usize,
    output: &str,
) -> Result<(), Fail> {
    let mut agent = open(rt, rt.alloc(), &only_receiving(&["eth0"], 2))?;
    let mut drip = Drip::new(input.as_bytes(), 1, 1, Some(call));
    let wanted = (Err(RunFault::Read), output.as_bytes());
    expect_run(rt, &mut agent, &mut drip, Fuse::endless(), wanted, call);
    assert_eq!(rt; drip.calls, call);
    Ok(())
}

/// Checks that exactly the lines whose LF came before the failed read were done, and that the
/// reader is not called again.
#[test]
fn reader_that_fails(rt: HostRuntime) -> Result<(), Fail> {
    let mut input = String::new(rt.alloc());
    for (line, _) in FULL_TABLE {
        input.push_str(line)?;
    }
    let mut output = String::new(rt.alloc());
    let mut call = 1usize;
    for (line, text) in FULL_TABLE {
        for _octet in 0..line.len() {
            fails_at_call(&rt, input.as_str(), call, output.as_str())?;
            call = call.saturating_add(1);
        }
        output.push_str(text)?;
    }
    // This call would have returned the end.
    fails_at_call(&rt, input.as_str(), call, output.as_str())
}

/// Nine lines. Each of the first five and the eighth sends a frame.
const LINES: [&str; 9] = [
    "tick\n", "update\n", "update\n", "update\n", "update\n", "update\n", "update\n", "tick\n",
    "tick\n",
];

/// The lines of the six frames that `LINES` sends, and of one more: `fails_at` adds two updates,
/// and the credit suffices for one.
const FRAMES: [&str; 7] = [SENT; 7];

/// Runs the lines with a writer that fails after this many octets. Then runs the lines that were
/// not done, and two updates. The line of a frame has 141 octets with its LF.
fn fails_at(rt: &(impl Abort + AllocGlobal), octets: usize, burn: Burn) -> Result<(), Fail> {
    let mut agent = open(rt, rt.alloc(), &sending())?;
    let input = LINES.concat(rt.alloc())?;
    let output = FRAMES.concat(rt.alloc())?;
    let mut drip = Drip::whole(input.as_bytes());
    let fuse = Fuse::new(1, octets, burn);
    let answer = if octets < 846 {
        Err(RunFault::Write)
    } else {
        Ok(())
    };
    let wanted = (answer, output.as_bytes().get(..octets).unwrap_or(&[]));
    expect_run(rt, &mut agent, &mut drip, fuse, wanted, octets);
    let frames = octets / 141;
    let done = match frames {
        0..=4 => frames + 1,
        5 => 8,
        _ => 9,
    };
    let mut input = LINES[done..].concat(rt.alloc())?;
    input.push_str("update\nupdate\n")?;
    let output = FRAMES[frames.saturating_add(1).min(6)..].concat(rt.alloc())?;
    let mut drip = Drip::whole(input.as_bytes());
    let wanted = (Ok(()), output.as_bytes());
    expect_run(rt, &mut agent, &mut drip, Fuse::endless(), wanted, octets);
    // A frame counts as sent even if its line was not written whole.
    let counters = ["lldp.eth0.sent=7", "lldp.eth0.shutdowns=0"];
    expect_counters(rt, &agent, &counters);
    Ok(())
}

/// Checks that exactly the octets before the fault were written, and that the agent did the events
/// up to the one whose output failed. With room for 846 octets no write fails.
#[test]
fn writer_that_fails(rt: HostRuntime) -> Result<(), Fail> {
    for octets in 0..=846 {
        fails_at(&rt, octets, Burn::Error)?;
        fails_at(&rt, octets, Burn::TakesNone)?;
    }
    Ok(())
}

/// Checks that exactly the octets before the fault are written, at every place in a show.
#[test]
fn writer_that_fails_inside_a_show(rt: HostRuntime) -> Result<(), Fail> {
    for octets in 0..OUTPUT.len() {
        for burn in [Burn::Error, Burn::TakesNone] {
            let mut agent = open(&rt, rt.alloc(), &only_receiving(&["eth0"], 32))?;
            let mut drip = Drip::whole(INPUT);
            let fuse = Fuse::new(1, octets, burn);
            let wanted = (Err(RunFault::Write), &OUTPUT[..octets]);
            expect_run(&rt, &mut agent, &mut drip, fuse, wanted, octets);
        }
    }
    Ok(())
}
