//! Tests the program with streams that fail, and with arguments that no shell can pass to it.
use super::devices::{Burn, Drip, Fuse, Network};
use super::runs::{INPUT, OUTPUT};
use lldp_engine::CommandFault;
use lldp_program::line::LineFault;
use lldp_program::program::run_program;
use lldp_program::serve::ServeFault;
use lldp_program::trace::RunFault;
use std::net::{Net, TcpListener, TcpStream};
use std::process::Abort;
use std::test::Fail;

/// What `show neighbors` writes if no neighbor is held.
pub const NONE: &str = "lldp.eth0.neighbors=0\nlldp.eth0.octets=0\nlldp.eth0.too-many=no\n";

const READ_FAILED: &str = "lldpa: read failed\n";

const WRITE_FAILED: &str = "lldpa: write failed\n";

/// A limit that no test reaches.
const FAR: usize = usize::MAX;

const OFFLINE: Network<'static> = Network { listener: None };

/// Runs the program with these arguments, separated by spaces. Compares its status and what it
/// wrote to `faults`, which accepts one octet at a time.
pub fn expect_status(
    rt: &(impl Abort + AllocGlobal),
    net: &impl Net<Listener = TcpListener, Stream = TcpStream>,
    words: &str,
    reader: &mut Drip<'_>,
    writer: &mut Fuse,
    wanted: (u8, &str),
) -> Result<(), Fail> {
    let words: Vec<&str> = words.split_whitespace().collect(rt.alloc())?;
    let mut faults = Fuse::new(1, FAR, Burn::Error);
    let status = run_program(net, rt.alloc(), &words, reader, writer, &mut faults);
    assert_eq!(rt; status, wanted.0);
    assert_eq!(rt; faults.taken(), wanted.1.as_bytes());
    Ok(())
}

/// Checks that what was written is flushed once, however the run ended.
#[test]
fn streams_that_fail(rt: HostRuntime) -> Result<(), Fail> {
    let words = "lldpa --receive-only eth0";
    let before_end = OUTPUT.len() - NONE.len();
    let rows: &[(Option<usize>, usize, Burn, usize, &str)] = &[
        (Some(2), FAR, Burn::Error, before_end, READ_FAILED),
        (None, 10, Burn::Error, 10, WRITE_FAILED),
        (None, 10, Burn::Interrupted, 10, WRITE_FAILED),
        (None, 10, Burn::TakesNone, 10, WRITE_FAILED),
        (None, 100, Burn::TakesNone, 100, WRITE_FAILED),
        (None, FAR, Burn::AtFlush, OUTPUT.len(), WRITE_FAILED),
        (Some(1), FAR, Burn::AtFlush, 0, READ_FAILED),
    ];
    for &(fails_at, burns_at, burn, taken, told) in rows {
        let mut reader = Drip::new(INPUT, FAR, FAR, fails_at);
        let mut writer = Fuse::new(1, burns_at, burn);
        expect_status(&rt, &OFFLINE, words, &mut reader, &mut writer, (1, told))?;
        assert_eq!(rt; writer.taken(), &OUTPUT[..taken]);
        assert_eq!(rt; writer.flushes, 1);
    }
    Ok(())
}

/// Checks the status if help or the version cannot be written, or if the flush after it fails.
#[test]
fn help_that_cannot_be_written(rt: HostRuntime) -> Result<(), Fail> {
    let wanted = (1, WRITE_FAILED);
    for words in ["lldpa --help", "lldpa --version"] {
        for (burns_at, burn) in [
            (0, Burn::Error),
            (5, Burn::Error),
            (5, Burn::TakesNone),
            (FAR, Burn::AtFlush),
        ] {
            let mut reader = Drip::whole(b"");
            let mut writer = Fuse::new(FAR, burns_at, burn);
            expect_status(&rt, &OFFLINE, words, &mut reader, &mut writer, wanted)?;
        }
    }
    Ok(())
}

/// Checks that the messages of faults are the lines that the program writes. No test can make
/// enough reads for `input too long`.
#[test]
fn texts_of_faults(rt: HostRuntime) -> Result<(), Fail> {
    let accept = format!(in rt.alloc(); "{}", ServeFault::Accept)?;
    assert_eq!(rt; accept.as_str(), "lldpa: socket failed");
    for (fault, text) in [
        (RunFault::Read, "lldpa: read failed"),
        (RunFault::Write, "lldpa: write failed"),
        (RunFault::InputTooLong, "lldpa: input too long"),
    ] {
        let told = format!(in rt.alloc(); "{fault}")?;
        assert_eq!(rt; told.as_str(), text);
    }
    Ok(())
}

/// Checks the numbers of faults, which neither the program nor the library tells.
#[test]
fn numbers_of_faults(rt: HostRuntime) -> Result<(), Fail> {
    for (fault, number) in [
        (RunFault::Read, 1),
        (RunFault::Write, 2),
        (RunFault::InputTooLong, 3),
    ] {
        assert_eq!(rt; fault.number(), number);
    }
    for (fault, number) in [
        (LineFault::TooLong, 1),
        (LineFault::Hex, 2),
        (LineFault::Command(CommandFault::Range), 3),
    ] {
        assert_eq!(rt; fault.number(), number);
    }
    assert_eq!(rt; ServeFault::Accept.number(), 1);
    Ok(())
}
