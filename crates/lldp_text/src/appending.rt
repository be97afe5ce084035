//! Buffers to which octets are appended, and the small one for the head of a value.
ghost use Rattle.std.specs.Prelude.{◌≡◌, ℕ, ◌+◌, ◌*◌, ◌≤◌, ◌++◌, [], List, length, decimal};
ghost use Rattle.hex.specs.Hex.{encode_lower};
ghost use Rattle.lldp_text.specs.Text.{separator};

use crate::digits::encode_digits;
use std::marker::Model;

/// The greatest number of octets that a head holds.
pub const HEAD_ROOM: usize = 256;

/// A buffer to which octets are appended. Each method requires the room that it needs, so no octet
/// is cut off.
pub trait Append {
    /// The octets so far.
    ghost held: { Self → List ℕ };
    /// The greatest number of octets.
    ghost most: { ℕ };

    /// Appends octets unchanged.
    fn text(&mut self, octets: &[u8])
        requires { length (held self.old) + length octets.now ≤ most }
        ensures { held self.new ≡ held self.old ++ octets.now };

    /// Appends octets as lower-case hexadecimal digits.
    fn hex(&mut self, octets: &[u8])
        requires { length (held self.old) + 2 * length octets.now ≤ most }
        ensures value { held self.new ≡ held self.old ++ encode_lower octets.now }
        ensures len { length (held self.new) ≡ length (held self.old) + 2 * length octets.now };
}

/// Appends a separator if `before`, the number of items already written, is not 0.
pub(crate) fn write_separator<L: Append>(line: &mut L, between: u8, before: usize)
    requires { length (L.held line.old) + 1 ≤ L.most }
    ensures value { L.held line.new ≡ L.held line.old ++ separator between before }
    ensures len { length (L.held line.new) ≤ length (L.held line.old) + 1 }
{
    if before > 0 {
        line.text(&[between]);
    }
}

/// Appends a number in decimal.
pub(crate) fn write_decimal<L: Append>(line: &mut L, n: u32)
    requires { length (L.held line.old) + 10 ≤ L.most }
    ensures value { L.held line.new ≡ L.held line.old ++ decimal n }
    ensures len { length (L.held line.new) ≤ length (L.held line.old) + 10 }
{
    let mut digits = itoa::Buffer::new();
    line.text(digits.format(n).as_bytes());
}

/// The first part of a value: its key, and what is written neither escaped nor as digits.
#[derive(Drop)]
pub struct Head {
    room: [u8; HEAD_ROOM],
    len: usize,
}

impl Model for Head {
    ghost use Rattle.std.specs.Prelude.{ℕ, List, ◌≤◌, take};
    ghost use Rattle.lldp_text.specs.declared.appending.TheConstants.{HEAD_ROOM};

    ghost Value = { List ℕ };

    ghost view = { λ h. take h.len h.room };

    ghost invariant = { λ h. h.len ≤ HEAD_ROOM };
}

impl Head {
    /// Returns an empty head.
    pub fn new() -> Self
        ensures { result ≡ [] }
    {
        Head {
            room: [0; HEAD_ROOM],
            len: 0,
        }
    }

    /// Returns all octets written so far.
    pub fn as_slice(&self) -> &[u8]
        ensures value { result.now ≡ self.now }
        ensures fits { length result.now ≤ HEAD_ROOM }
    {
        &self.room[..self.len]
    }
}

impl Append for Head {
    ghost use Rattle.lldp_text.specs.declared.appending.TheConstants.{HEAD_ROOM};

    ghost held = { λ head. head };

    ghost most = { HEAD_ROOM };

    fn text(&mut self, octets: &[u8]) {
        let end = self.len + octets.len();
        self.room[self.len..end].copy_from_slice(octets);
        self.len = end;
    }

    fn hex(&mut self, octets: &[u8]) {
        let end = self.len + 2 * octets.len();
        encode_digits(octets, &mut self.room[self.len..end]);
        self.len = end;
    }
}
