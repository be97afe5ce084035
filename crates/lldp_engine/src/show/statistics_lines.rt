//! The lines of `show statistics`.
ghost use Rattle.std.specs.Prelude.{◌≡◌, ◌≤◌, length, map};
ghost use Rattle.std.specs.List.{AllByRecursion};
ghost use Rattle.lldp_engine.specs.Code.ShownValue.{plain_number};
ghost use Rattle.lldp_engine.specs.StatisticsLines.{counters_shown, counter_lines, statistics_lines};
ghost use Rattle.lldp_engine.specs.Takes.{Takes};

use crate::port::Port;
use crate::port::counters::Counters;
use crate::show::line::{LineSink, Number, port_front, put_numbers};
use std::alloc::Allocator;

/// Returns the counters in the order in which they are shown.
fn in_order(counters: &Counters) -> [Number; 9]
    ensures shown { map plain_number result ≡ counters_shown counters.now }
    ensures short { AllByRecursion (λ number. length number.0.now ≤ 32) result }
{
    [
        (b"sent=", counters.sent),
        (b"shutdowns=", counters.shutdowns),
        (b"received=", counters.received),
        (b"discarded=", counters.discarded),
        (b"errors=", counters.errors),
        (b"tlvs-discarded=", counters.tlvs_discarded),
        (b"unrecognized=", counters.unrecognized),
        (b"ageouts=", counters.ageouts),
        (b"drops=", counters.drops),
    ]
}

/// Writes the lines of a port's counters.
fn put_counters<A: Allocator, S: LineSink>(sink: &mut S, port: &Port<A>)
    ensures { Takes S.takes sink.old sink.new (counter_lines port.now) }
{
    let front = port_front(port.name());
    put_numbers(sink, front.as_slice(), &in_order(port.counters()));
}

/// Writes the lines of `show statistics`.
pub(crate) fn put_statistics<A: Allocator, S: LineSink>(sink: &mut S, ports: &[Port<A>])
    ensures { Takes S.takes sink.old sink.new (statistics_lines ports.now) }
{
    for port in ports {
        if sink.is_done() {
            return;
        }
        put_counters(sink, port);
    }
}
