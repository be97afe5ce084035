//! Devices that a trace is read from and written to, and adapters for std's readers and writers.
ghost use Rattle.std.specs.Prelude.{◌≡◌, ◌<◌, ◌≤◌, ℕ, Bool, true, List, Option, length, IfOk};
ghost use Rattle.std.specs.Io.KnownBytes.{ReadConsumes, WriteAppends, Keeps};
ghost use Rattle.std.specs.Borrow.{GName};
ghost use Rattle.lldp_program.specs.Devices.Counts.{one_more, failures_after, ends_after};

use std::io::{Read, Write};

/// A read or a write failed.
#[derive(Clone, Copy, Debug, PartialEq, Eq)]
pub enum DeviceFault {
    Failed,
}

/// A source of octets. Its counts stop at 2^64 - 1. If a device does not report its octets, the
/// clauses say nothing about them.
pub trait Source {
    /// The octets still to come, or None if the device does not report them.
    ghost to_come: { Self → Option (List ℕ) };
    /// How many reads were made.
    ghost calls: { Self → ℕ };
    /// How many reads failed.
    ghost failures: { Self → ℕ };
    /// How many reads returned the end, that is, 0 octets.
    ghost ends: { Self → ℕ };
    /// The place that the source reads from. No call changes it. For an adapter it is the reference
    /// to its reader.
    ghost place: { Self → GName };

    /// Reads octets into the front of `room`, and returns how many; 0 means the end. A failed read
    /// reads none.
    fn read(&mut self, room: &mut [u8]) -> Result<usize, DeviceFault>
        requires { 0 < length room.old }
        ensures fits { IfOk result (λ n. n ≤ length room.new) }
        ensures octets { ReadConsumes (to_come self.old) (to_come self.new) result room.new }
        ensures calls { calls self.new ≡ one_more (calls self.old) }
        ensures failures { failures self.new ≡ failures_after (failures self.old) result }
        ensures ends { ends self.new ≡ ends_after (ends self.old) result }
        ensures place { place self.new ≡ place self.old };
}

/// A sink for octets. Its count stops at 2^64 - 1. If a device does not report its octets, the
/// clauses say nothing about them.
pub trait Sink {
    /// The octets that were written, or None if the device does not report them.
    ghost taken: { Self → Option (List ℕ) };
    /// How many writes failed.
    ghost failures: { Self → ℕ };
    /// The place that the sink writes to. No call changes it. For an adapter it is the reference to
    /// its writer.
    ghost place: { Self → GName };

    /// Writes at least one octet from the front of `octets`, and returns how many. A failed write
    /// writes none.
    fn write(&mut self, octets: &[u8]) -> Result<usize, DeviceFault>
        requires { 0 < length octets.now }
        ensures some { IfOk result (λ n. 0 < n) }
        ensures fits { IfOk result (λ n. n ≤ length octets.now) }
        ensures octets { WriteAppends (taken self.old) (taken self.new) result octets.now }
        ensures failures { failures self.new ≡ failures_after (failures self.old) result }
        ensures place { place self.new ≡ place self.old };
}

/// A sink that can be flushed.
pub trait Flush: Sink {
    /// True if `flush` was called after the last write.
    ghost is_flushed: { Self → Bool };

    /// Flushes all octets that were written. A failed flush counts as a failed write.
    fn flush(&mut self) -> Result<(), DeviceFault>
        ensures flushed { is_flushed self.new ≡ true }
        ensures octets { Keeps (Self.taken self.old) (Self.taken self.new) }
        ensures failures { Self.failures self.new ≡ failures_after (Self.failures self.old) result }
        ensures place { Self.place self.new ≡ Self.place self.old };
}

/// A source that reads from a borrowed reader.
#[derive(Drop)]
pub struct FromReader<'a, R> {
    reader: &'a mut R,
    calls: u64,
    failures: u64,
    ends: u64,
}

impl<'a, R: Read> FromReader<'a, R> {
    ghost use Rattle.std.specs.Prelude.{◌≡◌};
    ghost use Rattle.lldp_program.specs.Devices.Adapters.{source_to_come, source_calls, source_failures, source_ends, source_place};

    /// Returns a source with the octets that the reader reports, and with all counts at 0.
    pub fn new(reader: &'a mut R) -> Self
        ensures octets { source_to_come R.remaining result ≡ R.remaining reader.old }
        ensures calls { source_calls result ≡ 0 }
        ensures failures { source_failures result ≡ 0 }
        ensures ends { source_ends result ≡ 0 }
        ensures place { source_place result ≡ reader.entry.ghost_name }
    {
        FromReader {
            reader,
            calls: 0,
            failures: 0,
            ends: 0,
        }
    }
}

impl<R: Read> Source for FromReader<'_, R> {
    ghost to_come = { λ s. R.remaining s.reader.now };

    ghost calls = { λ s. s.calls };

    ghost failures = { λ s. s.failures };

    ghost ends = { λ s. s.ends };

    ghost place = { λ s. s.reader.ghost_name };

    fn read(&mut self, room: &mut [u8]) -> Result<usize, DeviceFault> {
        self.calls = self.calls.saturating_add(1);
        match self.reader.read(room) {
            Ok(0) => {
                self.ends = self.ends.saturating_add(1);
                Ok(0)
            }
            Ok(n) => Ok(n),
            Err(_) => {
                self.failures = self.failures.saturating_add(1);
                Err(DeviceFault::Failed)
            }
        }
    }
}

/// A sink that writes to a borrowed writer. If the writer accepts no octet, the write has failed.
#[derive(Drop)]
pub struct ToWriter<'a, W> {
    writer: &'a mut W,
    failures: u64,
    is_flushed: bool,
}

impl<'a, W: Write> ToWriter<'a, W> {
    ghost use Rattle.std.specs.Prelude.{◌≡◌};
    ghost use Rattle.lldp_program.specs.Devices.Adapters.{sink_taken, sink_failures, sink_place};

    /// Returns a sink with the octets that the writer reports, and with its count at 0.
    pub fn new(writer: &'a mut W) -> Self
        ensures octets { sink_taken W.contents result ≡ W.contents writer.old }
        ensures failures { sink_failures result ≡ 0 }
        ensures place { sink_place result ≡ writer.entry.ghost_name }
    {
        ToWriter {
            writer,
            failures: 0,
            is_flushed: false,
        }
    }
}

impl<W: Write> Sink for ToWriter<'_, W> {
    ghost taken = { λ s. W.contents s.writer.now };

    ghost failures = { λ s. s.failures };

    ghost place = { λ s. s.writer.ghost_name };

    fn write(&mut self, octets: &[u8]) -> Result<usize, DeviceFault> {
        self.is_flushed = false;
        match self.writer.write(octets) {
            Ok(n) if n > 0 => Ok(n),
            _ => {
                self.failures = self.failures.saturating_add(1);
                Err(DeviceFault::Failed)
            }
        }
    }
}

impl<W: Write> Flush for ToWriter<'_, W> {
    ghost is_flushed = { λ s. s.is_flushed };

    fn flush(&mut self) -> Result<(), DeviceFault> {
        self.is_flushed = true;
        match self.writer.flush() {
            Ok(()) => Ok(()),
            Err(_) => {
                self.failures = self.failures.saturating_add(1);
                Err(DeviceFault::Failed)
            }
        }
    }
}
