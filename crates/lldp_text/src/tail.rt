//! What follows the head of a value.
ghost use Rattle.std.specs.Prelude.{◌≡◌, ◌+◌, ◌*◌, ◌≤◌, ◌++◌, length, take};
ghost use Rattle.lldp_pdu.specs.Range.{most_body};
ghost use Rattle.lldp_text.specs.Text.{escape, escaped};
ghost use Rattle.lldp_text.specs.Tail.{tail_text, tail_room};

use crate::appending::Append;
use crate::digits::encode_digits;
use crate::writing::are_plain;

/// The octets that follow the head of a value, and how they are written.
#[derive(Clone, Copy, Debug, PartialEq, Eq)]
pub enum Tail<'a> {
    /// Escaped.
    Escaped(&'a [u8]),
    /// As lower-case hexadecimal digits.
    Hex(&'a [u8]),
}

impl Tail<'_> {
    /// Returns the length of the text.
    pub fn len(self) -> usize
        requires { tail_room self ≤ 2044 }
        ensures value { result ≡ length (tail_text self.entry) }
        ensures most { result ≤ tail_room self.entry }
    {
        match self {
            Tail::Escaped(octets) => escaped_len(octets),
            Tail::Hex(octets) => 2 * octets.len(),
        }
    }

    /// Writes the text, which fills `room`.
    pub fn write(self, room: &mut [u8])
        requires { length room.old ≡ length (tail_text self) }
        ensures { room.new ≡ tail_text self.entry }
    {
        match self {
            Tail::Escaped(octets) => escape_to(octets, room),
            Tail::Hex(octets) => encode_digits(octets, room),
        }
    }
}

/// Begins an escaped text with its key.
#[inline(always)]
pub(crate) fn begin_text<'a, L: Append>(line: &mut L, key: &[u8], text: &'a [u8]) -> Tail<'a>
    requires room { length (L.held line.old) + length key.now ≤ L.most }
    ensures value { L.held line.new ++ tail_text result
        ≡ L.held line.old ++ (key.now ++ escaped text.now) }
    ensures len { length (L.held line.new) ≡ length (L.held line.old) + length key.now }
    ensures tail { tail_room result ≡ 4 * length text.now }
{
    line.text(key);
    Tail::Escaped(text)
}

/// Returns the length of a text in escaped form.
fn escaped_len(octets: &[u8]) -> usize
    requires { length octets.now ≤ most_body }
    ensures value { result ≡ length (escaped octets.now) }
    ensures most { result ≤ 4 * length octets.now }
{
    if are_plain(octets) {
        return octets.len();
    }
    let mut len = 0;
    for octet in octets {
        len += escape_len(*octet);
    }
    len
}

fn escape_len(octet: u8) -> usize
    ensures value { result ≡ length (escape octet) }
    ensures most { result ≤ 4 }
{
    if octet == b'\\' {
        2
    } else if octet >= b' ' && octet <= b'~' {
        1
    } else {
        4
    }
}

/// Writes octets from `at` on. Returns where they end.
fn put(room: &mut [u8], at: usize, octets: &[u8]) -> usize
    requires { at + length octets.now ≤ length room.old }
    ensures end { result ≡ at + length octets.now }
    ensures value { take result room.new ≡ take at room.old ++ octets.now }
    ensures len { length room.new ≡ length room.old }
{
    let end = at + octets.len();
    room[at..end].copy_from_slice(octets);
    end
}

/// Writes an octet in escaped form, from `at` on. Returns where it ends.
fn put_escaped(room: &mut [u8], at: usize, octet: u8) -> usize
    requires { at + length (escape octet) ≤ length room.old }
    ensures end { result ≡ at + length (escape octet) }
    ensures value { take result room.new ≡ take at room.old ++ escape octet }
    ensures len { length room.new ≡ length room.old }
{
    if octet == b'\\' {
        put(room, at, b"\\\\")
    } else if octet >= b' ' && octet <= b'~' {
        put(room, at, &[octet])
    } else {
        let mut digits = [0; 2];
        encode_digits(&[octet], &mut digits);
        let end = put(room, at, b"\\x");
        put(room, end, &digits)
    }
}

/// Writes a text in escaped form, which fills `room`.
fn escape_to(octets: &[u8], room: &mut [u8])
    requires { length room.old ≡ length (escaped octets.now) }
    ensures { room.new ≡ escaped octets.now }
{
    if are_plain(octets) {
        room.copy_from_slice(octets);
        return;
    }
    let mut end = 0;
    for octet in octets {
        end = put_escaped(room, end, *octet);
    }
}
