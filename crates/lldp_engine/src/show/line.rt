//! Writes a line of a show to a sink: its start, its key and its value.
ghost use Rattle.std.specs.Prelude.{◌≡◌, ℕ, ◌+◌, ◌≤◌, ◌++◌, List, length, map, true, IfSome};
ghost use Rattle.std.specs.Borrow.{sem, Bor};
ghost use Rattle.std.specs.List.{AllByRecursion};
ghost use Rattle.lldp_engine.specs.LineRoom.{LendsRoom};
ghost use Rattle.lldp_engine.specs.Code.ShownValue.{value_text, FitsLine, plain_number};
ghost use Rattle.lldp_text.specs.declared.writing.TheConstants.{LINE_ROOM, ROOM, VALUE_ROOM};
ghost use Rattle.lldp_engine.specs.Keys.{front_of, port_key, neighbor_key, number_lines};
ghost use Rattle.lldp_engine.specs.Takes.{Takes};
ghost use Rattle.lldp_engine.specs.Ranges.{most_name};

use arrayvec::ArrayVec;
use lldp_pdu::Tlv;
use lldp_text::{Writer, write_chassis, write_ipv4, write_kept_tlv, write_mac, write_port};

/// Receives the lines of a show, one after another. A sink lends a writer for each line and takes
/// what is written there. A sink that can fail may store its error and report that it is done.
pub trait LineSink {
    /// Relates the sink before a line to the sink after it took that line.
    ghost takes: { Self → Self → List ℕ → Type 0 };

    /// Lends a writer for the next line. What is then appended to the writer is the line: at most
    /// 2,048 octets and a line feed. Returns None if the sink does not keep this line, which then
    /// need not be written.
    fn begin_line(&mut self) -> Option<&mut Writer>
        ensures* takes_line { sem 𝓛 (LendsRoom Self.row takes self.entry result) }
        ensures room { IfSome result (λ writer. length writer.now + LINE_ROOM ≤ ROOM) };

    /// Returns whether no further line changes the sink, so that the other lines can be left out.
    /// Each show checks this before each port and each neighbor, although no clause states it.
    fn is_done(&self) -> bool
        ensures { result ≡ true → (line : List ℕ) → takes self.now self.now line };
}

/// The value after the key of a shown line.
#[derive(Clone, Copy)]
pub(crate) enum Value<'a> {
    /// A number, in decimal.
    Number(u32),
    /// A text, written as it is.
    Word(&'a [u8]),
    /// A text, escaped.
    Text(&'a [u8]),
    /// A MAC address.
    Mac(&'a [u8; 6]),
    /// The agent's management address.
    OwnAddress(&'a [u8; 4]),
    /// The body of a Chassis ID.
    Chassis(&'a [u8]),
    /// The body of a Port ID.
    Port(&'a [u8]),
    /// A kept TLV, which has a key of its own.
    Kept(Tlv<'a>),
}

pub(crate) fn write_value(line: &mut Writer, value: Value<'_>)
    requires room { length line.old + VALUE_ROOM ≤ ROOM }
    requires fits { FitsLine value }
    ensures value { line.new ≡ line.old ++ value_text value.entry }
    ensures len { length line.new ≤ length line.old + VALUE_ROOM }
{
    match value {
        Value::Number(n) => line.decimal(n),
        Value::Word(text) => line.text(text),
        Value::Text(text) => line.escaped(text),
        Value::Mac(octets) => write_mac(line, octets),
        // The interface numbering is unknown (1), the interface number is 0, and there is no OID.
        Value::OwnAddress(octets) => {
            write_ipv4(line, octets);
            line.text(b",1,0,");
        }
        Value::Chassis(id) => write_chassis(line, id),
        Value::Port(id) => write_port(line, id),
        Value::Kept(tlv) => write_kept_tlv(line, tlv),
    }
}

/// The start of a line, which is the same for all lines of a port or of a neighbor.
pub(crate) type Front = ArrayVec<u8, 32>;

fn extend(front: &mut Front, octets: &[u8])
    requires { length front.old.items + length octets.now ≤ 32 }
    ensures { front.new.items ≡ front.old.items ++ octets.now }
{
    let _ = front.try_extend_from_slice(octets);
}

/// Returns a word, the name of a port and a `.`, joined.
pub(crate) fn front(word: &[u8], name: &[u8]) -> Front
    requires word { length word.now ≤ 14 }
    requires name { length name.now ≤ most_name }
    ensures value { result.items ≡ front_of word.now name.now }
    ensures len { length result.items ≤ length word.now + 16 }
{
    let mut front = Front::new();
    extend(&mut front, word);
    extend(&mut front, name);
    extend(&mut front, b".");
    front
}

/// Returns `lldp.PORT.`
pub(crate) fn port_front(name: &[u8]) -> Front
    requires { length name.now ≤ most_name }
    ensures value { result.items ≡ port_key name.now }
    ensures len { length result.items ≤ 21 }
{
    front(b"lldp.", name)
}

/// Returns `lldp.PORT.N.`
pub(crate) fn neighbor_front(name: &[u8], number: u8) -> Front
    requires { length name.now ≤ most_name }
    ensures { result.items ≡ neighbor_key name.now number }
{
    let mut front = port_front(name);
    let mut digits = itoa::Buffer::new();
    extend(&mut front, digits.format(number).as_bytes());
    extend(&mut front, b".");
    front
}

/// Writes a line: its start, its key and its value.
pub(crate) fn put_line<S: LineSink>(sink: &mut S, front: &[u8], key: &[u8], value: Value<'_>)
    requires front { length front.now ≤ 32 }
    requires key { length key.now ≤ 32 }
    requires value { FitsLine value }
    ensures { S.takes sink.old sink.new (front.now ++ (key.now ++ value_text value.entry)) }
{
    let Some(line) = sink.begin_line() else {
        return;
    };
    line.text(front);
    line.text(key);
    write_value(line, value);
    line.end_line();
}

/// A key, and the number after it.
pub(crate) type Number = (&'static [u8], u32);

/// Writes a line for each number.
pub(crate) fn put_numbers<S: LineSink>(sink: &mut S, front: &[u8], numbers: &[Number])
    requires front { length front.now ≤ 32 }
    requires keys { AllByRecursion (λ number. length number.0.now ≤ 32) numbers.now }
    ensures { Takes S.takes sink.old sink.new
        (number_lines front.now (map plain_number numbers.now)) }
{
    for number in numbers {
        put_line(sink, front, number.0, Value::Number(number.1));
    }
}
