//! Writes texts, values and LLDPDUs through the exported functions.
ghost use Rattle.std.specs.Prelude.{◌≡◌, ◌*◌, ◌≤◌, ◌<◌, IfSome, Some, None, length, take, drop, map, ℕ, List, slice_index_or};
ghost use Rattle.lldp_pdu.specs.Draft.{IsReadBack, lldpdu_octets};
ghost use Rattle.lldp_pdu.specs.Msap.{IsIdentifier};
ghost use Rattle.lldp_text.specs.Text.{escaped};
ghost use Rattle.lldpa_c.specs.Building.{begun, drafted, tlv_of, put_faults};
ghost use Rattle.lldpa_c.specs.Texts.{words_of};
ghost use Rattle.lldpa_c.specs.Values.{tlv_value};
ghost use Rattle.lldp_pdu.specs.Range.{most_body};

use crate::build::{LldpaTlv, lldpa_build};
use crate::texts::lldpa_fault_text;
use crate::values::{lldpa_escape, lldpa_tlv_text};

/// Returns the words for a number, written to the start of a room.
fn words(fault: u32, room: &mut [u8; 65]) -> Option<usize>
    ensures some { IfSome result (λ n. words_of fault ≡ Some (take n room.new)) }
    ensures none { result ≡ None → words_of fault ≡ None }
{
    let mut written = 99;
    let answer = lldpa_fault_text(fault, room, &mut written);
    if answer == 0 {
        Some(written)
    } else {
        prove!(answer == 100 && written == 99);
        None
    }
}

/// Writes a description into any room.
fn description(fault: u32, room: &mut [u8], written: &mut usize) -> u8
    ensures value { (words : List ℕ) → words_of fault ≡ Some words → length words ≤ length room.old → (result ≡ 0) × (take written.new room.new ≡ words) }
    ensures over { (words : List ℕ) → words_of fault ≡ Some words → length room.old < length words →
        (result ≡ 101) × (room.new ≡ room.old) × (written.new ≡ written.old) }
    ensures none { words_of fault ≡ None → (result ≡ 100) × (room.new ≡ room.old) × (written.new ≡ written.old) }
    ensures rest { result ≡ 0 → drop written.new room.new ≡ drop written.new room.old }
{
    let answer = lldpa_fault_text(fault, room, written);
    if answer != 0 {
        return answer;
    }
    prove!(*written <= room.len());
    prove!(*written <= 65);
    answer
}

/// Escapes a text into a room that always suffices.
fn escape_whole(text: &[u8], room: &mut [u8; 2044]) -> usize
    requires length { length text.now ≤ most_body }
    requires fits { length (escaped text.now) ≤ 2044 }
    ensures octets { take result room.new ≡ escaped text.now }
    ensures rest { drop result room.new ≡ drop result room.old }
{
    let mut written = 9999;
    let answer = lldpa_escape(text, room, &mut written);
    prove!(answer == 0);
    written
}

/// Escapes a text into any room.
fn escape(text: &[u8], room: &mut [u8], written: &mut usize) -> u8
    ensures value { length text.now ≤ most_body → length (escaped text.now) ≤ length room.old → (result ≡ 0) × (take written.new room.new ≡ escaped text.now) }
    ensures over { length text.now ≤ most_body → length room.old < length (escaped text.now) → (result ≡ 101) × (room.new ≡ room.old) × (written.new ≡ written.old) }
    ensures long { most_body < length text.now → (result ≡ 100) × (room.new ≡ room.old) × (written.new ≡ written.old) }
    ensures rest { result ≡ 0 → drop written.new room.new ≡ drop written.new room.old }
{
    let answer = lldpa_escape(text, room, written);
    if answer != 0 {
        return answer;
    }
    prove!(*written <= room.len());
    answer
}

/// Returns how many octets of a room an escaped text takes.
fn escaped_length(text: &[u8], room: &mut [u8]) -> Result<usize, u8> {
    let mut written = 0;
    let answer = lldpa_escape(text, room, &mut written);
    if answer != 0 {
        return Err(answer);
    }
    prove!(written <= 4 * text.len());
    Ok(written)
}

/// Writes a TLV.
fn tlv_whole(kind: u32, body: &[u8], room: &mut [u8; 1058]) -> Option<usize>
    ensures some { IfSome result (λ n. tlv_value kind body.now ≡ Some (take n room.new)) }
    ensures none { result ≡ None → room.new ≡ room.old }
{
    let mut written = 9999;
    let answer = lldpa_tlv_text(kind, body, room, &mut written);
    if answer == 0 {
        Some(written)
    } else {
        prove!(written == 9999);
        None
    }
}

/// Writes a TLV into any room.
fn tlv(kind: u32, body: &[u8], room: &mut [u8], written: &mut usize) -> u8
    ensures value { (text : List ℕ) → tlv_value kind body.now ≡ Some text → length text ≤ length room.old → (result ≡ 0) × (take written.new room.new ≡ text) }
    ensures over { (text : List ℕ) → tlv_value kind body.now ≡ Some text → length room.old < length text →
        (result ≡ 101) × (room.new ≡ room.old) × (written.new ≡ written.old) }
    ensures none { tlv_value kind body.now ≡ None → (result ≡ 100) × (room.new ≡ room.old) × (written.new ≡ written.old) }
    ensures rest { result ≡ 0 → drop written.new room.new ≡ drop written.new room.old }
{
    let answer = lldpa_tlv_text(kind, body, room, written);
    if answer != 0 {
        return answer;
    }
    prove!(*written <= room.len());
    prove!(*written <= 1058);
    answer
}

/// Builds an LLDPDU.
fn built(
    chassis: &[u8],
    port: &[u8],
    ttl: u16,
    tlvs: &[LldpaTlv<'_>],
    faults: &mut [u8],
    room: &mut [u8],
    written: &mut usize,
) -> u8
    ensures value { IsIdentifier chassis.now → IsIdentifier port.now → length tlvs.now ≤ length faults.old →
        length (lldpdu_octets (drafted chassis.now port.now ttl tlvs.now)) ≤ length room.old → (result ≡ 0)
        × (take written.new room.new ≡ lldpdu_octets (drafted chassis.now port.now ttl tlvs.now)) × (written.new ≤ length room.new)
        × IsReadBack (drafted chassis.now port.now ttl tlvs.now) (take written.new room.new)
        × (drop written.new room.new ≡ drop written.new room.old) }
    ensures over { IsIdentifier chassis.now → IsIdentifier port.now → length tlvs.now ≤ length faults.old →
        length room.old < length (lldpdu_octets (drafted chassis.now port.now ttl tlvs.now)) → (result ≡ 101)
        × (room.new ≡ room.old) × (written.new ≡ written.old) }
    ensures faults { IsIdentifier chassis.now → IsIdentifier port.now → length tlvs.now ≤ length faults.old → (i : ℕ) → i < length tlvs.now →
        slice_index_or faults.new i 0 ≡ slice_index_or (put_faults (begun chassis.now port.now ttl) (map tlv_of tlvs.now)) i 0 }
    ensures rest { drop (length tlvs.now) faults.new ≡ drop (length tlvs.now) faults.old }
    ensures range { ¬ (IsIdentifier chassis.now × IsIdentifier port.now) → (result ≡ 100) × (faults.new ≡ faults.old)
        × (room.new ≡ room.old) × (written.new ≡ written.old) }
    ensures short { IsIdentifier chassis.now → IsIdentifier port.now → length faults.old < length tlvs.now → (result ≡ 101) × (faults.new ≡ faults.old)
        × (room.new ≡ room.old) × (written.new ≡ written.old) }
{
    lldpa_build(chassis, port, ttl, tlvs, faults, room, written)
}
