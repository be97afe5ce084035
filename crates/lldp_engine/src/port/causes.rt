//! What a link event and a status mean to a port's transmit machine.
ghost use Rattle.std.specs.Prelude.{◌≡◌};
ghost use Rattle.lldp_engine.specs.Port.Effects.{cause_of_link, cause_of_right};

use lldp_transmit::Cause;

/// Returns what a link event means to the transmit machine, by the link before and after it.
pub(crate) fn cause_of_link_event(before: bool, up: bool) -> Cause
    ensures { result ≡ cause_of_link before up }
{
    match (before, up) {
        (true, false) => Cause::Down,
        (false, true) => Cause::Up,
        (true, true) | (false, false) => Cause::Nothing,
    }
}

/// Returns what gaining or losing the right to transmit means to the transmit machine.
pub(crate) fn cause_of_status(before: bool, after: bool) -> Cause
    ensures { result ≡ cause_of_right before after }
{
    match (before, after) {
        (true, false) => Cause::Stop,
        (false, true) => Cause::Allow,
        (true, true) | (false, false) => Cause::Nothing,
    }
}
