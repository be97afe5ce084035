//! Writes lines piece by piece into one buffer.
ghost use Rattle.std.specs.Prelude.{◌≡◌, ◌+◌, ◌*◌, ◌≤◌, ◌∷◌, ◌++◌, [], length, decimal};
ghost use Rattle.hex.specs.Hex.{encode_lower};
ghost use Rattle.std.specs.List.{list_all};
ghost use Rattle.lldp_text.specs.Tail.{tail_text, tail_room};
ghost use Rattle.lldp_text.specs.Text.{is_plain, escape, escaped};

use crate::appending::{Append, write_decimal};
use crate::digits::encode_digits;
use crate::tail::Tail;
use arrayvec::ArrayVec;
use std::marker::Model;

/// The greatest length of a line without its line feed, in octets.
pub const MOST_LINE: usize = 2048;

/// The greatest length of a line with its line feed, in octets.
pub const LINE_ROOM: usize = MOST_LINE + 1;

/// A line without its line feed.
pub type Line = ArrayVec<u8, MOST_LINE>;

/// The greatest length of a value, in octets. A line has room for at least 64 octets before it.
pub const VALUE_ROOM: usize = 1050;

/// The greatest number of octets that a writer holds.
pub const ROOM: usize = 8192;

/// A buffer to which octets are appended. Each method requires the room that it needs, so no octet
/// is cut off. Unlike clearing an `ArrayVec`, clearing a writer does not overwrite its octets.
#[derive(Drop)]
pub struct Writer {
    room: [u8; ROOM],
    len: usize,
}

impl Model for Writer {
    ghost use Rattle.std.specs.Prelude.{ℕ, List, ◌≤◌, take};
    ghost use Rattle.lldp_text.specs.declared.writing.TheConstants.{ROOM};

    ghost Value = { List ℕ };

    ghost view = { λ w. take w.len w.room };

    ghost invariant = { λ w. w.len ≤ ROOM };
}

/// Returns whether escaping leaves each of these octets unchanged. The loop does not end early:
/// without branches it can check many octets at a time.
pub(crate) fn are_plain(octets: &[u8]) -> bool
    ensures { result ≡ list_all is_plain octets.now }
{
    let mut all = true;
    for octet in octets {
        all &= *octet >= b' ' && *octet <= b'~' && *octet != b'\\';
    }
    all
}

impl Writer {
    /// Returns an empty writer.
    pub fn new() -> Self
        ensures { result ≡ [] }
    {
        Writer {
            room: [0; ROOM],
            len: 0,
        }
    }

    /// Returns how many more octets fit.
    pub fn room_left(&self) -> usize
        ensures { length self.now + result ≡ ROOM }
    {
        ROOM - self.len
    }

    /// Discards all octets written so far.
    pub fn clear(&mut self)
        ensures { self.new ≡ [] }
    {
        self.len = 0;
    }

    /// Writes the line feed that ends a line.
    pub fn end_line(&mut self)
        requires { length self.old + 1 ≤ ROOM }
        ensures value { self.new ≡ self.old ++ 10 ∷ [] }
        ensures len { length self.new ≡ length self.old + 1 }
    {
        self.text(b"\n");
    }

    /// Writes octets unchanged.
    pub fn text(&mut self, octets: &[u8])
        requires { length self.old + length octets.now ≤ ROOM }
        ensures value { self.new ≡ self.old ++ octets.now }
        ensures len { length self.new ≡ length self.old + length octets.now }
    {
        let end = self.len + octets.len();
        self.room[self.len..end].copy_from_slice(octets);
        self.len = end;
    }

    /// Writes octets as lower-case hexadecimal digits.
    pub fn hex(&mut self, octets: &[u8])
        requires { length self.old + 2 * length octets.now ≤ ROOM }
        ensures value { self.new ≡ self.old ++ encode_lower octets.now }
        ensures len { length self.new ≡ length self.old + 2 * length octets.now }
    {
        let end = self.len + 2 * octets.len();
        encode_digits(octets, &mut self.room[self.len..end]);
        self.len = end;
    }

    fn escape(&mut self, octet: u8)
        requires { length self.old + 4 ≤ ROOM }
        ensures value { self.new ≡ self.old ++ escape octet }
        ensures len { length self.new ≤ length self.old + 4 }
    {
        if octet == b'\\' {
            self.text(b"\\\\");
        } else if octet >= b' ' && octet <= b'~' {
            self.text(&[octet]);
        } else {
            self.text(b"\\x");
            self.hex(&[octet]);
        }
    }

    /// Writes a text in escaped form. Most texts need no escapes and are copied in one piece.
    pub fn escaped(&mut self, octets: &[u8])
        requires { length self.old + 4 * length octets.now ≤ ROOM }
        ensures value { self.new ≡ self.old ++ escaped octets.now }
        ensures len { length self.new ≤ length self.old + 4 * length octets.now }
    {
        if are_plain(octets) {
            return self.text(octets);
        }
        for octet in octets {
            self.escape(*octet);
        }
    }

    /// Writes a number in decimal.
    pub fn decimal(&mut self, n: u32)
        requires { length self.old + 10 ≤ ROOM }
        ensures value { self.new ≡ self.old ++ decimal n }
        ensures len { length self.new ≤ length self.old + 10 }
    {
        write_decimal(self, n);
    }

    /// Writes the tail of a value.
    #[inline(always)]
    pub(crate) fn tail(&mut self, tail: Tail<'_>)
        requires { length self.old + tail_room tail ≤ ROOM }
        ensures value { self.new ≡ self.old ++ tail_text tail.entry }
        ensures len { length self.new ≤ length self.old + tail_room tail.entry }
    {
        match tail {
            Tail::Escaped(octets) => self.escaped(octets),
            Tail::Hex(octets) => self.hex(octets),
        }
    }

    /// Returns all octets written so far.
    pub fn as_slice(&self) -> &[u8]
        ensures { result.now ≡ self.now }
    {
        &self.room[..self.len]
    }
}

impl Append for Writer {
    ghost use Rattle.lldp_text.specs.declared.writing.TheConstants.{ROOM};

    ghost held = { λ line. line };

    ghost most = { ROOM };

    fn text(&mut self, octets: &[u8]) {
        Writer::text(self, octets);
    }

    fn hex(&mut self, octets: &[u8]) {
        Writer::hex(self, octets);
    }
}
