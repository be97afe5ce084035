//! Runs an LLDP agent over a trace, from standard input to standard output or over connections.
#![tactic(auto)]

ghost use Rattle.std.specs.Prelude.{◌≡◌, ◌⊎◌, map, string_bytes};
ghost use Rattle.lldp_program.specs.Faults.Told.{stream};
ghost use Rattle.lldp_program.specs.Program.{HasRefused};

use lldp_program::device::{Sink, ToWriter};
use lldp_program::program;
use std::process::ExitCode;
use std::{env, io};

fn main(rt: HostRuntime) -> ExitCode {
    let mut stderr = rt.stderr();
    let mut faults = ToWriter::new(&mut stderr);
    let status = match words(&rt) {
        Ok(words) => run(&rt, &words, &mut faults),
        Err(_) => program::no_memory(&mut faults),
    };
    ExitCode::from(status)
}

/// Returns the program's arguments. Fails if they cannot be read.
fn words(rt: &HostRuntime) -> io::Result<Vec<String>> {
    Ok(env::args(rt)?.collect(rt.alloc())?)
}

/// Runs the program on its arguments and standard streams. It refuses no arguments in silence.
fn run<E: Sink>(rt: &HostRuntime, words: &[String], faults: &mut E) -> u8
    ensures { result ≡ 2 → HasRefused (map string_bytes words.now)
        (stream (E.taken faults.old) (E.failures faults.old))
        (stream (E.taken faults.new) (E.failures faults.new)) }
{
    program::run_words(
        rt,
        rt.alloc(),
        words,
        &mut rt.stdin(),
        &mut rt.stdout(),
        faults,
    )
}
