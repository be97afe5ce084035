//! Opens an agent.
ghost use Rattle.std.specs.Prelude.{◌≡◌, ◌<◌, ◌↔◌, IsTrue, length, map, min, take, Some, None, IfSome, IfNone, IfOk, IfErr};
ghost use Rattle.std.specs.List.{All};
ghost use Rattle.std.specs.Str.{IsUtf8};
ghost use Rattle.lldp_engine.specs.declared.agent.open_fault.OpenFault.{OpenFault as Fault};
ghost use Rattle.lldp_engine.specs.Options.{InRange, fault_of};
ghost use Rattle.lldpa_c.specs.Faults.{refusal_number};
ghost use Rattle.lldpa_c.specs.Opening.{role_numbered, asked, IsRead, Opens, OpensOnce};

use crate::answer::{IS_OPEN, OK, OUT_OF_RANGE};
use crate::faults::refusal_number;
use crate::holder::LldpaAgent;
use crate::options::{LldpaOptions, LldpaText};
use arrayvec::ArrayVec;
use lldp_engine::{
    Agent, MOST_CREDIT, MOST_FAST, MOST_NEIGHBORS, MOST_PORTS, MOST_REINIT, OpenFault, Options,
    Role,
};
use std::alloc::Global;

/// Returns the role with this number, if there is one.
fn role_numbered(number: u32) -> Option<Role>
    ensures { result ≡ role_numbered number }
{
    match number {
        0 => Some(Role::Station),
        1 => Some(Role::Bridge),
        2 => Some(Role::Router),
        _ => None,
    }
}

/// The most names that are read: one more than an agent may have ports.
const MOST_READ: usize = MOST_PORTS + 1;

/// Returns the first `MOST_READ` names, or None if one of them is not UTF-8.
fn names_of<'a>(ports: &'a [LldpaText<'a>]) -> Option<ArrayVec<&'a str, MOST_READ>>
    ensures names { IfSome result (λ names. map (λ name. name.now) names.items
        ≡ map (λ text. text.octets.now) (take (min (length ports.now) MOST_READ) ports.now)) }
    ensures read { IfSome result (λ _. All (λ text. IsUtf8 text.octets.now) (take MOST_READ ports.now)) }
    ensures none { IfNone result (¬ (All (λ text. IsUtf8 text.octets.now) (take MOST_READ ports.now))) }
{
    let first = &ports[..ports.len().min(MOST_READ)];
    let mut names = ArrayVec::new();
    for text in first {
        match std::str::from_utf8(text.octets) {
            Ok(name) => names.push(name),
            Err(_) => return None,
        }
    }
    Some(names)
}

/// True if the four numbers of the options are in their ranges.
fn are_in_range(options: &LldpaOptions<'_>) -> bool
    ensures { IsTrue result ↔ InRange (asked options.now) }
{
    (1..=u32::from(MOST_NEIGHBORS)).contains(&options.max_neighbors)
        && (1..=u32::from(MOST_CREDIT)).contains(&options.credit_max)
        && (1..=u32::from(MOST_FAST)).contains(&options.fast_init)
        && (1..=u32::from(MOST_REINIT)).contains(&options.reinit)
}

/// Opens an agent with these options. Returns it in a box, or the number of the error.
fn opened(alloc: Global, options: &LldpaOptions<'_>) -> Result<Box<Agent>, u8>
    ensures ok { IfOk result (λ agent. Opens options.now agent.value) }
    ensures range { ¬ (IsRead options.now) → IfErr result (λ number. number ≡ 100) }
    ensures fault { IsRead options.now → (fault : Fault) → fault_of (asked options.now) ≡ Some fault →
        IfErr result (λ number. number ≡ refusal_number fault) }
    ensures some { IfErr result (λ number. 0 < number) }
    ensures memory { IsRead options.now → fault_of (asked options.now) ≡ None →
        IfErr result (λ number. number ≡ 21) }
{
    let Some(role) = role_numbered(options.role) else {
        return Err(OUT_OF_RANGE);
    };
    let Some(names) = names_of(options.ports) else {
        return Err(OUT_OF_RANGE);
    };
    let Ok(hostname) = std::str::from_utf8(options.hostname.octets) else {
        return Err(OUT_OF_RANGE);
    };
    if !are_in_range(options) {
        return Err(OUT_OF_RANGE);
    }
    let given = Options {
        ports: names.as_slice(),
        mac: options.mac,
        hostname,
        management: if options.managed {
            Some(options.management)
        } else {
            None
        },
        role,
        max_neighbors: options.max_neighbors as u8,
        credit_max: options.credit_max as u8,
        fast_init: options.fast_init as u8,
        reinit: options.reinit as u8,
        receive_only: options.receive_only,
    };
    match Agent::open(alloc, &given) {
        Ok(agent) => match Box::new(alloc, agent) {
            Ok(held) => Ok(held),
            Err(_) => Err(refusal_number(OpenFault::Memory)),
        },
        Err(fault) => Err(refusal_number(fault)),
    }
}

/// Opens an agent with these options, unless the handle is open already.
#[unsafe(no_mangle)]
pub extern "C" fn lldpa_open(
    alloc: Global,
    options: &LldpaOptions<'_>,
    agent: &mut LldpaAgent,
) -> u8
    ensures opened { OpensOnce options.now agent.old result agent.new }
{
    if agent.is_open {
        return IS_OPEN;
    }
    match opened(alloc, options) {
        Ok(held) => {
            agent.put(held);
            OK
        }
        Err(number) => number,
    }
}
