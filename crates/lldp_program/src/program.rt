//! Runs the program with arguments and streams that its caller passes.
ghost use Rattle.std.specs.Prelude.{◌≡◌, ◌≢◌, ◌≤◌, ◌⊎◌, ℕ, true, false, None, Ok, Err, codes, map, if◌then◌else◌};
ghost use Rattle.std.specs.Io.KnownBytes.{Keeps};
ghost use Rattle.clap.specs.Values.{kind_of};
ghost use Rattle.clap.specs.Words.{found_of, rows_of};
ghost use Rattle.clap.specs.Walk.{one_of};
ghost use Rattle.lldp_engine.specs.Options.{Options, fault_of};
ghost use Rattle.lldp_program.specs.CommandLine.Arguments.{IsProgramParse};
ghost use Rattle.lldp_program.specs.Faults.ProgramFault.{status_of};
ghost use Rattle.lldp_program.specs.Faults.Told.{EndsBy, EndsWellOr, IsTold, stream};
ghost use Rattle.lldp_program.specs.Program.{AreWrong, FailedBy, HasAnswered, HasRefused, AreRefused, RanBut, RanStreams, TellsRefusal};
ghost use Rattle.lldp_program.specs.CommandLine.Usage.{Asks};

use crate::acceptor::AtPort;
use crate::arguments::{Listening, listening_of, parse, read_options};
use crate::device::{Flush, FromReader, Sink, Source, ToWriter};
use crate::fault::ProgramFault;
use crate::output::{SinkText, send};
use crate::serve::listen;
use crate::trace::{RunFault, run_trace};
use clap::error::ErrorKind;
use clap::{ArgMatches, Error};
use lldp_engine::{Agent, OpenFault};
use std::alloc::Global;
use std::convert::AsStr;
use std::fmt::Write as _;
use std::io::{Read, Write};
use std::net::{Net, TcpListener, TcpStream};

/// The status if no fault occurred.
const DONE: u8 = 0;

/// The status if the arguments are wrong, opening was refused, or there was no memory.
const REFUSED: u8 = 2;

/// Runs the program on its arguments, the first of which is its name, and returns its status: 0, 1
/// or 2. In this crate only this call and `arguments::parse`, which it calls, allocate memory: for
/// the arguments and for opening the agent.
///
/// Status 2: nothing was read, and nothing was written to `writer`. Either the arguments are wrong
/// by `clap`'s own specification of the command line; or there was no memory for them; or an
/// address cannot be read; or opening refused the options, by the first check that failed or for
/// lack of memory. The line of that fault was written to `faults`; for wrong arguments the text is
/// `clap`'s.
///
/// Status 0 or 1: either the arguments ask for help or the version, and nothing was read; or they
/// have no fault. Then each option (also the MAC and the management address) has the value of its
/// argument or its default and is in its range, and opening accepted the options. Without
/// `--listen` the trace from the reader was run over an agent with these options, as `run_trace`
/// says; with status 0 all of it was run. With `--listen` nothing was read or written, and the
/// program listened at the given port for the number of connections of `--connections`, 1 by
/// default.
///
/// With status 0 nothing was written to `faults`. With status 1 one fault was reported there: that
/// of the run or, if the run had none, of the flush after it; that of the socket with `--listen`;
/// or that of writing help or the version. The line of a fault is written whole, or up to a write
/// that failed.
///
/// Tests show what no clause says: that a reported fault of a write, a flush, a socket or memory
/// did occur; the texts of help, of the version and of wrong arguments; and that with `--listen`
/// the traces arrive over connections to 127.0.0.1.
pub fn run_words<S: AsStr, R: Read, W: Write, E: Sink>(
    rt: &impl Net<Listener = TcpListener, Stream = TcpStream>,
    alloc: Global,
    words: &[S],
    reader: &mut R,
    writer: &mut W,
    faults: &mut E,
) -> u8
    ensures status { result ≤ 2 }
    // The arguments ask for help or the version; or they have no fault, and the program ran with
    // their options.
    ensures answered { result ≢ 2 → HasAnswered (map S.text words.now)
        (R.remaining reader.old) (R.remaining reader.new)
        (W.contents writer.old) (W.contents writer.new)
        (stream (E.taken faults.old) (E.failures faults.old))
        (stream (E.taken faults.new) (E.failures faults.new)) result }
    // Status 2: the arguments are wrong by `clap`'s specification, or the fault of the arguments or
    // of the opening was reported. `TellsRefusal` has the reasons.
    ensures refused { result ≡ 2 → AreWrong (map S.text words.now)
        ⊎ ((E.place faults.new ≡ E.place faults.old) × TellsRefusal (map S.text words.now)
        (stream (E.taken faults.old) (E.failures faults.old))
        (stream (E.taken faults.new) (E.failures faults.new))) }
    ensures silent { result ≡ 2 →
        Keeps (R.remaining reader.old) (R.remaining reader.new)
        × Keeps (W.contents writer.old) (W.contents writer.new) }
    ensures place { result ≢ 2 → E.place faults.new ≡ E.place faults.old }
{
    match parse(alloc, words) {
        Ok(matches) => run_matches(rt, alloc, &matches, reader, writer, faults),
        Err(error) => answer_words(&error, writer, faults),
    }
}

/// Runs the program as `run_words` does, and writes faults to a writer of std. Such a writer does
/// not report failures, so two clauses hold for some number of them.
pub fn run_program<S: AsStr, R: Read, W: Write, E: Write>(
    rt: &impl Net<Listener = TcpListener, Stream = TcpStream>,
    alloc: Global,
    words: &[S],
    reader: &mut R,
    writer: &mut W,
    faults: &mut E,
) -> u8
    ensures status { result ≤ 2 }
    // The arguments ask for help or the version; or they have no fault, and the program ran with
    // their options.
    ensures answered { result ≢ 2 → (failed : ℕ) × HasAnswered (map S.text words.now)
        (R.remaining reader.old) (R.remaining reader.new)
        (W.contents writer.old) (W.contents writer.new)
        (stream (E.contents faults.old) 0) (stream (E.contents faults.new) failed) result }
    // Status 2: the arguments or the opening were refused. `HasRefused` has the reasons.
    ensures refused { result ≡ 2 → (failed : ℕ) × HasRefused (map S.text words.now)
        (stream (E.contents faults.old) 0) (stream (E.contents faults.new) failed) }
    ensures silent { result ≡ 2 →
        Keeps (R.remaining reader.old) (R.remaining reader.new)
        × Keeps (W.contents writer.old) (W.contents writer.new) }
{
    run_words(rt, alloc, words, reader, writer, &mut ToWriter::new(faults))
}

/// Runs the program with the options that the parsed arguments ask for.
fn run_matches<R: Read, W: Write, E: Sink>(
    rt: &impl Net<Listener = TcpListener, Stream = TcpStream>,
    alloc: Global,
    matches: &ArgMatches<'_>,
    reader: &mut R,
    writer: &mut W,
    faults: &mut E,
) -> u8
    requires parse { IsProgramParse matches.now }
    ensures status { result ≤ 2 }
    ensures ran { result ≢ 2 →
        (options : Options) × Asks (rows_of (found_of matches.now)) options
        × (fault_of options ≡ None)
        × RanBut (one_of (codes "listen") (rows_of (found_of matches.now))) options
        (R.remaining reader.old) (R.remaining reader.new)
        (W.contents writer.old) (W.contents writer.new)
        (stream (E.taken faults.old) (E.failures faults.old))
        (stream (E.taken faults.new) (E.failures faults.new)) result }
    ensures refused { result ≡ 2 → (fault : ProgramFault)
        × AreRefused (rows_of (found_of matches.now)) fault
        × IsTold fault
        (stream (E.taken faults.old) (E.failures faults.old))
        (stream (E.taken faults.new) (E.failures faults.new)) }
    ensures silent { result ≡ 2 →
        Keeps (R.remaining reader.old) (R.remaining reader.new)
        × Keeps (W.contents writer.old) (W.contents writer.new) }
    ensures place { E.place faults.new ≡ E.place faults.old }
{
    let options = match read_options(matches) {
        Ok(options) => options,
        Err(fault) => return tell(ProgramFault::Address(fault), faults),
    };
    match Agent::open(alloc, &options) {
        Ok(mut agent) => match listening_of(matches) {
            None => run_streams(&mut agent, reader, writer, faults),
            Some(listening) => run_sockets(rt, &mut agent, listening, faults),
        },
        Err(fault) => tell(ProgramFault::Opening(fault), faults),
    }
}

/// Reports a fault of the arguments, or writes the help or version that was asked for.
fn answer_words<W: Write, E: Sink>(error: &Error, writer: &mut W, faults: &mut E) -> u8
    ensures refused { (kind_of error.now ≢ ErrorKind.DisplayHelp) →
        (kind_of error.now ≢ ErrorKind.DisplayVersion) →
        (result ≡ 2) × Keeps (W.contents writer.old) (W.contents writer.new) }
    ensures memory { (kind_of error.now ≡ ErrorKind.OutOfMemory) →
        (E.place faults.new ≡ E.place faults.old) × IsTold (ProgramFault.Opening OpenFault.Memory)
        (stream (E.taken faults.old) (E.failures faults.old))
        (stream (E.taken faults.new) (E.failures faults.new)) }
    ensures answered { ((kind_of error.now ≡ ErrorKind.DisplayHelp)
        ⊎ (kind_of error.now ≡ ErrorKind.DisplayVersion)) →
        (E.place faults.new ≡ E.place faults.old) × EndsWellOr (ProgramFault.Run RunFault.Write)
        (stream (E.taken faults.old) (E.failures faults.old))
        (stream (E.taken faults.new) (E.failures faults.new)) result }
    ensures status { result ≤ 2 }
    ensures silent { result ≡ 2 → Keeps (W.contents writer.old) (W.contents writer.new) }
{
    if error.kind() == ErrorKind::OutOfMemory {
        return no_memory(faults);
    }
    if error.use_stderr() {
        let _ = write!(SinkText { sink: faults }, "{error}");
        return REFUSED;
    }
    write_help(error, writer, faults)
}

/// Writes and flushes the help or version that was asked for.
fn write_help<W: Write, E: Sink>(error: &Error, writer: &mut W, faults: &mut E) -> u8
    ensures status { result ≤ 1 }
    ensures ended { EndsWellOr (ProgramFault.Run RunFault.Write)
        (stream (E.taken faults.old) (E.failures faults.old))
        (stream (E.taken faults.new) (E.failures faults.new)) result }
    ensures place { E.place faults.new ≡ E.place faults.old }
{
    if write!(writer, "{error}").is_err() {
        return tell(ProgramFault::Run(RunFault::Write), faults);
    }
    finish(writer.flush().is_ok(), faults)
}

/// Runs the trace from the reader, and flushes the writer even if the run failed.
fn run_streams<R: Read, W: Write, E: Sink>(
    agent: &mut Agent,
    reader: &mut R,
    writer: &mut W,
    faults: &mut E,
) -> u8
    ensures status { result ≤ 1 }
    ensures ran { RanStreams (R.remaining reader.old) (R.remaining reader.new)
        (W.contents writer.old) (W.contents writer.new)
        (stream (E.taken faults.old) (E.failures faults.old))
        (stream (E.taken faults.new) (E.failures faults.new)) agent.old agent.new result }
    ensures place { E.place faults.new ≡ E.place faults.old }
{
    let mut source = FromReader::new(reader);
    let mut sink = ToWriter::new(writer);
    run_devices(agent, &mut source, &mut sink, faults)
}

/// Runs the trace from a source, and flushes the sink after the last write, even if the run failed.
/// Status 0 means that no read, write or flush failed. Status 1 means that one of them failed, or
/// that the trace was too long.
fn run_devices<S: Source, W: Flush, E: Sink>(
    agent: &mut Agent,
    source: &mut S,
    sink: &mut W,
    faults: &mut E,
) -> u8
    ensures status { result ≤ 1 }
    ensures ran { RanStreams (S.to_come source.old) (S.to_come source.new)
        (W.taken sink.old) (W.taken sink.new)
        (stream (E.taken faults.old) (E.failures faults.old))
        (stream (E.taken faults.new) (E.failures faults.new)) agent.old agent.new result }
    // Status 0: no read, write or flush failed. Status 1: one of them failed, or the trace was too
    // long.
    ensures done { result ≡ 0 → (S.failures source.new ≡ S.failures source.old)
        × (W.failures sink.new ≡ W.failures sink.old) }
    ensures failed { result ≡ 1 → S.failures source.old ≡ 0 → W.failures sink.old ≡ 0 →
        S.calls source.old ≡ 0 →
        FailedBy (S.failures source.new) (W.failures sink.new) (S.calls source.new) }
    ensures places { (S.place source.new ≡ S.place source.old)
        × (W.place sink.new ≡ W.place sink.old) }
    // The sink was flushed after the last write, even if the run failed.
    ensures flushed { W.is_flushed sink.new ≡ true }
    ensures place { E.place faults.new ≡ E.place faults.old }
{
    let ran = run_trace(agent, source, sink);
    let flushed = sink.flush();
    match ran {
        Ok(()) => finish(flushed.is_ok(), faults),
        Err(fault) => tell(ProgramFault::Run(fault), faults),
    }
}

/// Runs the traces that arrive over connections to a port of 127.0.0.1.
fn run_sockets<E: Sink>(
    rt: &impl Net<Listener = TcpListener, Stream = TcpStream>,
    agent: &mut Agent,
    listening: Listening,
    faults: &mut E,
) -> u8
    ensures status { result ≤ 1 }
    ensures ended { EndsWellOr ProgramFault.Socket
        (stream (E.taken faults.old) (E.failures faults.old))
        (stream (E.taken faults.new) (E.failures faults.new)) result }
    ensures place { E.place faults.new ≡ E.place faults.old }
{
    let mut acceptor = AtPort {
        network: rt,
        listener: None,
    };
    match listen(agent, &mut acceptor, listening) {
        Ok(()) => DONE,
        Err(_) => tell(ProgramFault::Socket, faults),
    }
}

/// Returns 0 if the flush at the end succeeded. Otherwise reports a failed write and returns 1.
fn finish<E: Sink>(flushed: bool, faults: &mut E) -> u8
    ensures status { result ≡ (if flushed then 0 else 1) }
    ensures well { flushed ≡ true → EndsBy (Ok tt)
        (stream (E.taken faults.old) (E.failures faults.old))
        (stream (E.taken faults.new) (E.failures faults.new)) result }
    ensures failed { flushed ≡ false → EndsBy (Err (ProgramFault.Run RunFault.Write))
        (stream (E.taken faults.old) (E.failures faults.old))
        (stream (E.taken faults.new) (E.failures faults.new)) result }
    ensures place { E.place faults.new ≡ E.place faults.old }
{
    if flushed {
        return DONE;
    }
    tell(ProgramFault::Run(RunFault::Write), faults)
}

/// Reports that there was no memory, and returns the status 2.
pub fn no_memory<E: Sink>(faults: &mut E) -> u8
    ensures status { result ≡ 2 }
    ensures told { IsTold (ProgramFault.Opening OpenFault.Memory)
        (stream (E.taken faults.old) (E.failures faults.old))
        (stream (E.taken faults.new) (E.failures faults.new)) }
    ensures place { E.place faults.new ≡ E.place faults.old }
{
    tell(ProgramFault::Opening(OpenFault::Memory), faults)
}

/// Writes the line of a fault, or a part of it if a write fails. Returns the status of the fault,
/// which does not depend on whether the line was written.
fn tell<E: Sink>(fault: ProgramFault, faults: &mut E) -> u8
    ensures status { result ≡ status_of fault }
    ensures told { IsTold fault
        (stream (E.taken faults.old) (E.failures faults.old))
        (stream (E.taken faults.new) (E.failures faults.new)) }
    ensures place { E.place faults.new ≡ E.place faults.old }
{
    let _ = send(faults, fault.line());
    fault.status()
}
