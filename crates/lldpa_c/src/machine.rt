//! The transmit machine of one port, for C.
ghost use Rattle.std.specs.Prelude.{◌≡◌, ◌≤◌, ◌↔◌, ℕ, [], ◌∷◌, Some, None, IsSome, IsTrue};
ghost use Rattle.lldp_transmit.specs.declared.event.Cause.{Cause};
ghost use Rattle.lldp_transmit.specs.declared.event.Mark.{Mark};
ghost use Rattle.lldp_transmit.specs.History.{settings};
ghost use Rattle.lldp_transmit.specs.Standing.{AreSettings, Stands};
ghost use Rattle.lldp_transmit.specs.Code.Machine.{opened};
ghost use Rattle.lldp_engine.specs.Ranges.{most_interval};
ghost use Rattle.lldpa_c.specs.Machine.{cause_numbered, mark_number, CanTake, Takes};

use crate::answer::{OK, OUT_OF_RANGE};
use lldp_engine::MOST_INTERVAL;
use lldp_transmit::{Cause, MOST_CREDIT, MOST_FAST, MOST_REINIT, Mark, Parts, Transmit};

/// Returns the cause with this number, if there is one.
fn cause_numbered(number: u32) -> Option<Cause>
    ensures { result ≡ cause_numbered number }
{
    match number {
        0 => Some(Cause::Tick),
        1 => Some(Cause::Change),
        2 => Some(Cause::Neighbor),
        3 => Some(Cause::Stop),
        4 => Some(Cause::Allow),
        5 => Some(Cause::Down),
        6 => Some(Cause::Up),
        7 => Some(Cause::Nothing),
        _ => None,
    }
}

/// Returns the number of a mark.
pub(crate) fn mark_number(mark: Mark) -> u8
    ensures { result ≡ mark_number mark }
{
    match mark {
        Mark::Quiet => 0,
        Mark::Ordinary => 1,
        Mark::Shutdown => 2,
    }
}

/// True if these settings are in their ranges.
fn are_settings(credit_max: u32, fast_init: u32, reinit: u32, allowed: bool) -> bool
    ensures { IsTrue result ↔ AreSettings (settings credit_max fast_init reinit allowed) }
{
    (1..=u32::from(MOST_CREDIT)).contains(&credit_max)
        && (1..=u32::from(MOST_FAST)).contains(&fast_init)
        && (1..=u32::from(MOST_REINIT)).contains(&reinit)
}

/// Makes a machine with full credit, for a port that is not active and has its link up. If a number
/// is out of its range, the machine is unchanged.
#[unsafe(no_mangle)]
pub extern "C" fn lldpa_transmit_new(
    machine: &mut Parts,
    credit_max: u32,
    fast_init: u32,
    reinit: u32,
    allowed: bool,
) -> u8
    ensures made { AreSettings (settings credit_max fast_init reinit allowed) → result ≡ 0 }
    ensures opened { result ≡ 0 →
        machine.new ≡ opened (settings credit_max fast_init reinit allowed) }
    ensures stands { result ≡ 0 →
        Stands (settings credit_max fast_init reinit allowed) [] machine.new }
    ensures refused { ¬ (AreSettings (settings credit_max fast_init reinit allowed)) →
        (result ≡ 100) × (machine.new ≡ machine.old) }
{
    if !are_settings(credit_max, fast_init, reinit, allowed) {
        return OUT_OF_RANGE;
    }
    *machine = Transmit::new(credit_max as u8, fast_init as u8, reinit as u8, allowed).parts();
    OK
}

/// Applies one event, with the tx-interval in force after it, and writes which frame to send. If a
/// number is out of its range, nothing changes.
#[unsafe(no_mangle)]
pub extern "C" fn lldpa_transmit_event(
    machine: &mut Parts,
    cause: u32,
    interval: u32,
    mark: &mut u8,
) -> u8
    ensures taken { machine.old.credit ≤ machine.old.credit_max → 1 ≤ interval → interval ≤ most_interval →
        IsSome (cause_numbered cause) → result ≡ 0 }
    ensures step { result ≡ 0 → (c : Cause) × (m : Mark) × (cause_numbered cause ≡ Some c)
        × (mark.new ≡ mark_number m)
        × Takes machine.old c interval machine.new m }
    ensures refused { ¬ (result ≡ 0) →
        (result ≡ 100) × (machine.new ≡ machine.old) × (mark.new ≡ mark.old) }
    ensures range { result ≡ 0 → CanTake machine.old interval }
{
    let Some(cause) = cause_numbered(cause) else {
        return OUT_OF_RANGE;
    };
    if interval < 1 || interval > u32::from(MOST_INTERVAL) {
        return OUT_OF_RANGE;
    }
    let Some(mut transmit) = Transmit::of_parts(machine) else {
        return OUT_OF_RANGE;
    };
    let answer = transmit.event(cause, interval as u16);
    *machine = transmit.parts();
    *mark = mark_number(answer);
    OK
}
