//! Copies octets into the caller's buffer.
ghost use Rattle.std.specs.Prelude.{◌≡◌, ◌<◌, ◌≤◌, length, take, drop};

use crate::answer::{NO_ROOM, OK};

/// Copies octets to the start of the buffer if they fit, and writes their number to `written`.
pub(crate) fn give(octets: &[u8], room: &mut [u8], written: &mut usize) -> u8
    ensures fits { length octets.now ≤ length room.old → result ≡ 0 }
    ensures within { result ≡ 0 → written.new ≤ length room.new }
    ensures octets { result ≡ 0 → take written.new room.new ≡ octets.now }
    ensures rest { result ≡ 0 → drop written.new room.new ≡ drop written.new room.old }
    ensures over { length room.old < length octets.now → result ≡ 101 }
    ensures refused { ¬ (result ≡ 0) → (room.new ≡ room.old) × (written.new ≡ written.old) }
{
    if octets.len() > room.len() {
        return NO_ROOM;
    }
    room[..octets.len()].copy_from_slice(octets);
    *written = octets.len();
    OK
}
