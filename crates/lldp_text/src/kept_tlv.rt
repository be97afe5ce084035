//! Writes kept TLVs.
ghost use Rattle.std.specs.Prelude.{◌≡◌, ◌+◌, ◌*◌, ◌≤◌, ◌++◌, length, Some};
ghost use Rattle.lldp_pdu.specs.Kept.{IsKeptTlv};
ghost use Rattle.lldp_pdu.specs.Capabilities.{caps_of, caps_fields};
ghost use Rattle.lldp_pdu.specs.Range.{most_body};
ghost use Rattle.lldp_pdu.specs.View.{tlv_view};
ghost use Rattle.lldp_text.specs.declared.writing.TheConstants.{ROOM, VALUE_ROOM};
ghost use Rattle.lldp_text.specs.Tail.{tail_text, tail_room};
ghost use Rattle.lldp_text.specs.Text.{escaped};
ghost use Rattle.lldp_text.specs.KeptTlv.{organizational_text, tlv_text, HasAddress};
ghost use Rattle.lldp_text.specs.Code.Kept.{system_capabilities_text, management_tlv_text, unknown_text};

use crate::appending::{Append, write_decimal};
use crate::capabilities::write_capabilities;
use crate::management_address::begin_management_address;
use crate::tail::{Tail, begin_text};
use crate::writing::Writer;
use lldp_pdu::tlv_type::{
    MANAGEMENT_ADDRESS, ORGANIZATIONALLY_SPECIFIC, PORT_DESCRIPTION, SYSTEM_CAPABILITIES,
    SYSTEM_DESCRIPTION, SYSTEM_NAME,
};
use lldp_pdu::{Tlv, caps, mgmt};

/// Begins an organizationally specific TLV.
fn begin_organizational<'a, L: Append>(line: &mut L, body: &'a [u8]) -> Tail<'a>
    requires room { length (L.held line.old) + 224 ≤ L.most }
    requires least { 4 ≤ length body.now }
    requires short { length body.now ≤ most_body }
    ensures value { L.held line.new ++ tail_text result
        ≡ L.held line.old ++ organizational_text body.now }
    ensures len { length (L.held line.new) ≤ length (L.held line.old) + 22 }
    ensures tail { tail_room result ≤ 1022 }
{
    line.text(b"org.");
    line.hex(&body[..3]);
    line.text(b".");
    write_decimal(line, u32::from(body[3]));
    line.text(b"=");
    Tail::Hex(&body[4..])
}

/// Begins a TLV of a reserved type.
fn begin_unknown<'a, L: Append>(line: &mut L, tlv: Tlv<'a>) -> Tail<'a>
    requires room { length (L.held line.old) + 224 ≤ L.most }
    requires short { length tlv.body.now ≤ most_body }
    ensures value { L.held line.new ++ tail_text result
        ≡ L.held line.old ++ unknown_text (tlv_view tlv.entry) }
    ensures len { length (L.held line.new) ≤ length (L.held line.old) + 19 }
    ensures tail { tail_room result ≤ 1022 }
{
    line.text(b"unknown.");
    write_decimal(line, u32::from(tlv.kind));
    line.text(b"=");
    Tail::Hex(tlv.body)
}

/// Writes System Capabilities. Nothing follows.
fn write_system_capabilities<L: Append>(line: &mut L, body: &[u8])
    requires room { length (L.held line.old) + 224 ≤ L.most }
    requires well_formed { caps_of body.now ≡ Some (caps_fields body.now) }
    ensures value { L.held line.new ≡ L.held line.old ++ system_capabilities_text body.now }
    ensures len { length (L.held line.new) ≤ length (L.held line.old) + 224 }
{
    line.text(b"chassis.caps=");
    write_capabilities(line, caps(body).unwrap());
}

/// Begins a Management Address TLV.
fn begin_management<'a, L: Append>(line: &mut L, body: &'a [u8]) -> Tail<'a>
    requires room { length (L.held line.old) + 224 ≤ L.most }
    requires well_formed { HasAddress body.now }
    ensures value { L.held line.new ++ tail_text result
        ≡ L.held line.old ++ management_tlv_text body.now }
    ensures len { length (L.held line.new) ≤ length (L.held line.old) + 113 }
    ensures tail { tail_room result ≤ 256 }
{
    line.text(b"chassis.mgmt=");
    begin_management_address(line, mgmt(body).unwrap())
}

/// Begins a kept TLV as key and value: writes its head and returns its tail.
#[inline(always)]
pub fn begin_kept_tlv<'a, L: Append>(line: &mut L, tlv: Tlv<'a>) -> Tail<'a>
    requires room { length (L.held line.old) + 224 ≤ L.most }
    requires kept { IsKeptTlv (tlv_view tlv) }
    ensures value { L.held line.new ++ tail_text result
        ≡ L.held line.old ++ tlv_text (tlv_view tlv.entry) }
    ensures len { length (L.held line.new) ≤ length (L.held line.old) + 224 }
    ensures whole { length (L.held line.new) + tail_room result
        ≤ length (L.held line.old) + VALUE_ROOM }
{
    match tlv.kind {
        PORT_DESCRIPTION => begin_text(line, b"port.descr=", tlv.body),
        SYSTEM_NAME => begin_text(line, b"chassis.name=", tlv.body),
        SYSTEM_DESCRIPTION => begin_text(line, b"chassis.descr=", tlv.body),
        SYSTEM_CAPABILITIES => {
            write_system_capabilities(line, tlv.body);
            Tail::Hex(&[])
        }
        MANAGEMENT_ADDRESS => begin_management(line, tlv.body),
        ORGANIZATIONALLY_SPECIFIC => begin_organizational(line, tlv.body),
        _ => begin_unknown(line, tlv),
    }
}

/// Writes a kept TLV as key and value. The text has at most 1,050 octets.
pub fn write_kept_tlv(line: &mut Writer, tlv: Tlv<'_>)
    requires room { length line.old + VALUE_ROOM ≤ ROOM }
    requires kept { IsKeptTlv (tlv_view tlv) }
    ensures value { line.new ≡ line.old ++ tlv_text (tlv_view tlv.entry) }
    ensures len { length line.new ≤ length line.old + VALUE_ROOM }
{
    let tail = begin_kept_tlv(line, tlv);
    line.tail(tail);
}
