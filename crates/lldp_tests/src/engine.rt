//! Tests what no clause of `lldp_engine` states: that opening succeeds if there is memory, and the
//! answers to calls that the program does not make.
mod embedded;
mod memory;
mod opening;

use lldp_engine::{Agent, OpenFault, Options, Role};
use std::alloc::Allocator;
use std::process::Abort;

/// The names of 64 ports, as many as an agent can have.
const NAMES: [&str; 64] = [
    "p00", "p01", "p02", "p03", "p04", "p05", "p06", "p07", "p08", "p09", "p10", "p11", "p12",
    "p13", "p14", "p15", "p16", "p17", "p18", "p19", "p20", "p21", "p22", "p23", "p24", "p25",
    "p26", "p27", "p28", "p29", "p30", "p31", "p32", "p33", "p34", "p35", "p36", "p37", "p38",
    "p39", "p40", "p41", "p42", "p43", "p44", "p45", "p46", "p47", "p48", "p49", "p50", "p51",
    "p52", "p53", "p54", "p55", "p56", "p57", "p58", "p59", "p60", "p61", "p62", "p63",
];

/// Returns the program's default options, but with these ports, this limit and `receive_only`.
pub fn only_receiving<'a>(ports: &'a [&'a str], max_neighbors: u8) -> Options<'a> {
    Options {
        ports,
        mac: [2, 0, 0, 0, 0, 1],
        hostname: "localhost",
        management: None,
        role: Role::Station,
        max_neighbors,
        credit_max: 5,
        fast_init: 4,
        reinit: 2,
        receive_only: true,
    }
}

pub fn open<A: Allocator + Clone>(
    rt: &impl Abort,
    alloc: A,
    options: &Options<'_>,
) -> Result<Agent<A>, OpenFault> {
    assert!(rt; options.in_range());
    Agent::open(alloc, options)
}
