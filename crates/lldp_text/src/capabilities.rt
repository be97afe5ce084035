//! Writes System Capabilities.
ghost use Rattle.std.specs.Prelude.{◌≡◌, ◌+◌, ◌*◌, ◌<◌, ◌≤◌, ◌++◌, length, []};
ghost use Rattle.lldp_text.specs.Capabilities.{capability_names, is_set, on_or_off, capability_text, capabilities_text};
ghost use Rattle.std.specs.List.{slice_index_or};

use crate::appending::{Append, write_separator};
use lldp_pdu::Caps;

/// The number of capability bits.
const BITS: u8 = 16;

/// Returns the name of a capability bit.
fn name_of_bit(bit: u8) -> &'static [u8]
    requires { bit < 16 }
    ensures value { result.now ≡ slice_index_or capability_names bit [] }
    ensures short { length result.now ≤ 8 }
{
    match bit {
        0 => b"Other",
        1 => b"Repeater",
        2 => b"Bridge",
        3 => b"Wlan",
        4 => b"Router",
        5 => b"Tel",
        6 => b"Docsis",
        7 => b"Station",
        8 => b"Cvlan",
        9 => b"Svlan",
        10 => b"Tpmr",
        11 => b"bit11",
        12 => b"bit12",
        13 => b"bit13",
        14 => b"bit14",
        _ => b"bit15",
    }
}

fn has_bit(bits: u16, bit: u8) -> bool
    requires { bit < 16 }
    ensures { result ≡ is_set bits bit }
{
    (bits >> bit) & 1 == 1
}

fn word_of_switch(on: bool) -> &'static [u8]
    ensures value { result.now ≡ on_or_off on }
    ensures short { length result.now ≤ 3 }
{
    if on { b"on" } else { b"off" }
}

/// Writes the name of a capability, and whether the capability is enabled.
fn write_capability<L: Append>(line: &mut L, caps: Caps, bit: u8)
    requires room { length (L.held line.old) + 12 ≤ L.most }
    requires known { bit < 16 }
    ensures value { L.held line.new ≡ L.held line.old ++ capability_text caps bit }
    ensures len { length (L.held line.new) ≤ length (L.held line.old) + 12 }
{
    line.text(name_of_bit(bit));
    line.text(b":");
    line.text(word_of_switch(has_bit(caps.enabled, bit)));
}

/// Writes the available capabilities, separated by commas.
pub(crate) fn write_capabilities<L: Append>(line: &mut L, caps: Caps)
    requires room { length (L.held line.old) + 208 ≤ L.most }
    ensures value { L.held line.new ≡ L.held line.old ++ capabilities_text caps }
    ensures len { length (L.held line.new) ≤ length (L.held line.old) + 208 }
{
    let mut written = 0;
    for bit in 0..BITS {
        if has_bit(caps.available, bit) {
            write_separator(line, b',', written);
            write_capability(line, caps, bit);
            written += 1;
        }
    }
}
