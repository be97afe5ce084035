//! The descriptions of error numbers.
ghost use Rattle.std.specs.Prelude.{◌≡◌, Some, length, take};
ghost use Rattle.std.specs.Option.{option_map};
ghost use Rattle.lldpa_c.specs.Place.{KeepsRest};
ghost use Rattle.lldpa_c.specs.Answer.{answer_of};
ghost use Rattle.lldpa_c.specs.Texts.{words_of, words_checks};

use crate::answer::OUT_OF_RANGE;
use crate::giving::give;

/// Returns the description of an error number, if there is such an error.
fn words_of(number: u32) -> Option<&'static [u8]>
    ensures words { option_map (λ words. words.now) result ≡ words_of number }
{
    match number {
        1 => Some(b"no complete TLV where a mandatory one belongs"),
        2 => Some(b"the first TLV is not a Chassis ID"),
        3 => Some(b"the Chassis ID does not have 2 to 256 octets"),
        4 => Some(b"the second TLV is not a Port ID"),
        5 => Some(b"the Port ID does not have 2 to 256 octets"),
        6 => Some(b"the third TLV is not a Time To Live"),
        7 => Some(b"the Time To Live has fewer than 2 octets"),
        8 => Some(b"a mandatory TLV is repeated after the third"),
        11 => Some(b"it does not fit in 1500 octets"),
        12 => Some(b"a TLV of its type may not be put"),
        13 => Some(b"its body is not well formed for its type"),
        21 => Some(b"there was no memory"),
        22 => Some(b"no port was named"),
        23 => Some(b"more than 64 ports were named"),
        24 => Some(b"the name of a port is not valid"),
        25 => Some(b"two ports have the same name"),
        26 => Some(b"the hostname is over 255 octets, or has one that is not printable"),
        31 => Some(b"unknown command"),
        32 => Some(b"no such port"),
        33 => Some(b"not a number"),
        34 => Some(b"out of range"),
        35 => Some(b"bad text"),
        36 => Some(b"extra word"),
        37 => Some(b"bad quote"),
        38 => Some(b"too many held"),
        100 => Some(b"a number or a length is not in its range"),
        101 => Some(b"the room is too small"),
        102 => Some(b"the agent is not open"),
        103 => Some(b"the agent has no port of that number"),
        104 => Some(b"the agent is open already"),
        105 => Some(b"a pointer is NULL"),
        _ => None,
    }
}

/// Writes the description of an error number.
#[unsafe(no_mangle)]
pub extern "C" fn lldpa_fault_text(fault: u32, room: &mut [u8], written: &mut usize) -> u8
    ensures words { result ≡ 0 → words_of fault ≡ Some (take written.new room.new) }
    ensures rest { result ≡ 0 → KeepsRest written.new room.old room.new }
    ensures answer { result ≡ answer_of (words_checks fault (length room.old)) }
    ensures refused { ¬ (result ≡ 0) → (room.new ≡ room.old) × (written.new ≡ written.old) }
{
    let Some(words) = words_of(fault) else {
        return OUT_OF_RANGE;
    };
    give(words, room, written)
}
