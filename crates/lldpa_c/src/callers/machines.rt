//! Makes a transmit machine and passes it events through the exported functions.
ghost use Rattle.std.specs.Prelude.{◌≡◌, ◌≤◌, ◌<◌, ◌∷◌, ◌⊎◌, []};
ghost use Rattle.lldp_transmit.specs.Code.Machine.{opened};
ghost use Rattle.lldp_transmit.specs.Code.Machine.{stepped};
ghost use Rattle.lldp_transmit.specs.History.{settings, event};
ghost use Rattle.lldp_transmit.specs.Moments.{mark_at};
ghost use Rattle.lldp_transmit.specs.Standing.{AreSettings, Stands as MachineStands, ForEachHistory};
ghost use Rattle.lldp_transmit.specs.Windows.{IsBoundedWith, StopsRarelyWith, IsEarliestWith};
ghost use Rattle.lldp_transmit.specs.declared.event.Mark.{Mark};
ghost use Rattle.lldp_engine.specs.Ranges.{most_interval};

use crate::machine::{lldpa_transmit_event, lldpa_transmit_new};
use lldp_transmit::{Cause, Mark, Parts};

/// Makes a machine.
fn machine(made: &mut Parts, credit_max: u32, fast_init: u32, reinit: u32, allowed: bool) -> u8
    ensures made { AreSettings (settings credit_max fast_init reinit allowed) → (result ≡ 0)
        × (made.new ≡ opened (settings credit_max fast_init reinit allowed))
        × MachineStands (settings credit_max fast_init reinit allowed) [] made.new }
    ensures refused { ¬ (AreSettings (settings credit_max fast_init reinit allowed)) → (result ≡ 100) × (made.new ≡ made.old) }
{
    lldpa_transmit_new(made, credit_max, fast_init, reinit, allowed)
}

/// Applies an event to a machine, as `event` of lldp_transmit does.
fn happens(machine: &mut Parts, cause: Cause, interval: u16) -> Mark
    requires credit { machine.old.credit ≤ machine.old.credit_max }
    requires interval { (1 ≤ interval) × (interval ≤ most_interval) }
    ensures next { machine.new ≡ (stepped machine.old cause interval).0 }
    ensures answer { result ≡ (stepped machine.old cause interval).1 }
    ensures stands { ForEachHistory machine.old (λ s past. MachineStands s (event cause interval ∷ past) machine.new) }
    ensures mark { ForEachHistory machine.old (λ s past. result ≡ mark_at s (event cause interval ∷ past)) }
    ensures bounded { ForEachHistory machine.old (λ s past. IsBoundedWith s past (event cause interval) (stepped machine.old cause interval).1) }
    ensures few_stops { ForEachHistory machine.old (λ s past. StopsRarelyWith s past (event cause interval) (stepped machine.old cause interval).1) }
    ensures earliest { ForEachHistory machine.old (λ s past. IsEarliestWith s past (event cause interval) (stepped machine.old cause interval).1) }
{
    let number = match cause {
        Cause::Tick => 0,
        Cause::Change => 1,
        Cause::Neighbor => 2,
        Cause::Stop => 3,
        Cause::Allow => 4,
        Cause::Down => 5,
        Cause::Up => 6,
        Cause::Nothing => 7,
    };
    let mut mark = 9;
    let answer = lldpa_transmit_event(machine, number, u32::from(interval), &mut mark);
    prove!(answer == 0);
    match mark {
        0 => Mark::Quiet,
        1 => Mark::Ordinary,
        2 => Mark::Shutdown,
        _ => unreachable!(),
    }
}

/// Passes an event with any numbers to a machine.
fn event(machine: &mut Parts, cause: u32, interval: u32, mark: &mut u8) -> u8
    ensures cause { 8 ≤ cause → (result ≡ 100) × (machine.new ≡ machine.old) × (mark.new ≡ mark.old) }
    ensures interval { (interval ≡ 0) ⊎ (most_interval < interval) → (result ≡ 100) × (machine.new ≡ machine.old) × (mark.new ≡ mark.old) }
    ensures credit { machine.old.credit_max < machine.old.credit → (result ≡ 100) × (machine.new ≡ machine.old) × (mark.new ≡ mark.old) }
{
    lldpa_transmit_event(machine, cause, interval, mark)
}
