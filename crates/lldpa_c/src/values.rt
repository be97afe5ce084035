//! Writes TLVs and texts as `show neighbors` does.
ghost use Rattle.std.specs.Prelude.{◌≡◌, ◌≤◌, ◌<◌, ◌+◌, ◌*◌, ◌++◌, [], Some, IsTrue, length, take, drop};
ghost use Rattle.lldp_text.specs.Tail.{tail_text, tail_room};
ghost use Rattle.lldp_text.specs.Text.{escaped};
ghost use Rattle.lldpa_c.specs.Place.{KeepsRest};
ghost use Rattle.lldpa_c.specs.Answer.{answer_of};
ghost use Rattle.lldpa_c.specs.Values.{may_write, value_of, tlv_value, value_checks, escape_checks};

use crate::answer::{NO_ROOM, OK, OUT_OF_RANGE};
use lldp_pdu::tlv_type::{CHASSIS_ID, ORGANIZATIONALLY_SPECIFIC, PORT_ID, TIME_TO_LIVE};
use lldp_pdu::{MOST_BODY, Seen, Tlv};
use lldp_text::{Append, Head, Tail, begin_chassis, begin_kept_tlv, begin_port};

/// True if `show neighbors` can write a TLV of this type with this body.
fn may_write(kind: u32, body: &[u8]) -> bool
    ensures { result ≡ may_write kind body.now }
{
    if kind < u32::from(CHASSIS_ID)
        || kind > u32::from(ORGANIZATIONALLY_SPECIFIC)
        || kind == u32::from(TIME_TO_LIVE)
        || body.len() > MOST_BODY
    {
        return false;
    }
    let kind = kind as u8;
    let mut none = Seen::NONE;
    none.keeps(&Tlv { kind, body })
}

/// Begins a TLV's text in an empty head. Returns what follows the head.
fn begin_value<'a>(head: &mut Head, tlv: Tlv<'a>) -> Tail<'a>
    requires empty { head.old ≡ [] }
    requires may { IsTrue (may_write tlv.kind tlv.body.now) }
    ensures value { head.new ++ tail_text result ≡ value_of tlv.entry.kind tlv.entry.body.now }
    ensures short { length head.new + tail_room result ≤ 1058 }
{
    match tlv.kind {
        CHASSIS_ID => {
            head.text(b"chassis.");
            begin_chassis(head, tlv.body)
        }
        PORT_ID => {
            head.text(b"port.");
            begin_port(head, tlv.body)
        }
        _ => begin_kept_tlv(head, tlv),
    }
}

/// Writes a head and what follows it to the start of the caller's buffer, if both fit.
fn give_text(head: &[u8], tail: Tail<'_>, room: &mut [u8], written: &mut usize) -> u8
    requires { length head.now + tail_room tail ≤ 2044 }
    ensures fits { length (head.now ++ tail_text tail.entry) ≤ length room.old → result ≡ 0 }
    ensures within { result ≡ 0 → written.new ≤ length room.new }
    ensures short { result ≡ 0 → written.new ≤ length head.now + tail_room tail.entry }
    ensures octets { result ≡ 0 → take written.new room.new ≡ head.now ++ tail_text tail.entry }
    ensures rest { result ≡ 0 → drop written.new room.new ≡ drop written.new room.old }
    ensures over { length room.old < length (head.now ++ tail_text tail.entry) → result ≡ 101 }
    ensures refused { ¬ (result ≡ 0) → (room.new ≡ room.old) × (written.new ≡ written.old) }
{
    let end = head.len() + tail.len();
    if end > room.len() {
        return NO_ROOM;
    }
    room[..head.len()].copy_from_slice(head);
    tail.write(&mut room[head.len()..end]);
    *written = end;
    OK
}

/// Writes a TLV to the caller's buffer, as `show neighbors` does.
#[unsafe(no_mangle)]
pub extern "C" fn lldpa_tlv_text(kind: u32, body: &[u8], room: &mut [u8], written: &mut usize) -> u8
    ensures text { result ≡ 0 → tlv_value kind body.now ≡ Some (take written.new room.new) }
    ensures short { result ≡ 0 → written.new ≤ 1058 }
    ensures rest { result ≡ 0 → KeepsRest written.new room.old room.new }
    ensures answer { result ≡ answer_of (value_checks kind body.now (length room.old)) }
    ensures refused { ¬ (result ≡ 0) → (room.new ≡ room.old) × (written.new ≡ written.old) }
{
    if !may_write(kind, body) {
        return OUT_OF_RANGE;
    }
    let kind = kind as u8;
    let mut head = Head::new();
    let tail = begin_value(&mut head, Tlv { kind, body });
    give_text(head.as_slice(), tail, room, written)
}

/// Escapes a text as the show commands do.
#[unsafe(no_mangle)]
pub extern "C" fn lldpa_escape(text: &[u8], room: &mut [u8], written: &mut usize) -> u8
    ensures text { result ≡ 0 → take written.new room.new ≡ escaped text.now }
    ensures short { result ≡ 0 → written.new ≤ 4 * length text.now }
    ensures rest { result ≡ 0 → KeepsRest written.new room.old room.new }
    ensures answer { result ≡ answer_of (escape_checks text.now (length room.old)) }
    ensures refused { ¬ (result ≡ 0) → (room.new ≡ room.old) × (written.new ≡ written.old) }
{
    if text.len() > MOST_BODY {
        return OUT_OF_RANGE;
    }
    give_text(&[], Tail::Escaped(text), room, written)
}
