//! The lines of `show configuration`.
ghost use Rattle.std.specs.Prelude.{◌≡◌, ◌≤◌, length, map};
ghost use Rattle.std.specs.List.{AllByRecursion};
ghost use Rattle.lldp_engine.specs.Code.ShownValue.{plain_number};
ghost use Rattle.lldp_engine.specs.ConfigurationLines.{status_text, status_line, numbers_shown, configuration_lines};
ghost use Rattle.lldp_engine.specs.Takes.{Takes};
ghost use Rattle.lldp_engine.specs.Ranges.{most_ports};

use crate::agent::configuration::Configuration;
use crate::port::Port;
use crate::port::status::Status;
use crate::show::line::{LineSink, Number, Value, front, put_line, put_numbers};
use std::alloc::Allocator;

const FRONT: &[u8] = b"configuration.";

fn text_of_status(status: Status) -> &'static [u8]
    ensures value { result.now ≡ status_text status }
    ensures short { length result.now ≤ 9 }
{
    match status {
        Status::RxAndTx => b"rx-and-tx",
        Status::RxOnly => b"rx-only",
        Status::TxOnly => b"tx-only",
        Status::Disabled => b"disabled",
    }
}

/// Writes the line of a port's status.
fn put_status<A: Allocator, S: LineSink>(sink: &mut S, port: &Port<A>)
    ensures { S.takes sink.old sink.new (status_line port.now) }
{
    let front = front(FRONT, port.name());
    let status = text_of_status(port.status());
    put_line(sink, front.as_slice(), b"status=", Value::Word(status));
}

/// Writes a line for the status of each port.
fn put_statuses<A: Allocator, S: LineSink>(sink: &mut S, ports: &[Port<A>])
    ensures { Takes S.takes sink.old sink.new (map status_line ports.now) }
{
    for port in ports {
        if sink.is_done() {
            return;
        }
        put_status(sink, port);
    }
}

/// Returns the numbers of the configuration, in the order in which they are shown.
fn in_order<A: Allocator>(c: &Configuration, ports: &[Port<A>]) -> [Number; 8]
    requires { length ports.now ≤ most_ports }
    ensures shown { map plain_number result
        ≡ numbers_shown (record { configuration = c.now; ports = ports.now }) }
    ensures short { AllByRecursion (λ number. length number.0.now ≤ 32) result }
{
    [
        (b"tx-interval=", u32::from(c.interval)),
        (b"tx-hold=", u32::from(c.hold)),
        (b"ttl=", u32::from(c.ttl())),
        (b"reinit-delay=", u32::from(c.reinit)),
        (b"tx-fast-init=", u32::from(c.fast_init)),
        (b"tx-credit-max=", u32::from(c.credit_max)),
        (b"max-neighbors=", u32::from(c.limit)),
        (b"ports=", ports.len() as u32),
    ]
}

/// Writes the lines of `show configuration` for at most 64 ports.
pub(crate) fn put_configuration<A: Allocator, S: LineSink>(
    sink: &mut S,
    c: &Configuration,
    ports: &[Port<A>],
)
    requires { length ports.now ≤ most_ports }
    ensures { Takes S.takes sink.old sink.new
        (configuration_lines (record { configuration = c.now; ports = ports.now })) }
{
    put_numbers(sink, FRONT, &in_order(c, ports));
    put_statuses(sink, ports);
}
