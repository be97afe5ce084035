//! The frames that an agent sends.
ghost use Rattle.std.specs.Prelude.{◌≡◌, ℕ, ◌+◌, ◌≤◌, ◌<◌, ◌∷◌, ◌++◌, [], List, length, Some, slice_get};
ghost use Rattle.arrayvec.specs.ArrayVec.{array_vec_len};
ghost use Rattle.lldp_pdu.specs.Draft.{CanBuild, all_tlvs};
ghost use Rattle.lldp_pdu.specs.Frame.{nearest_bridge, lldp_ethertype};
ghost use Rattle.lldp_pdu.specs.Tlv.{spellings};
ghost use Rattle.lldp_engine.specs.AgentState.{name_of, IsPort};
ghost use Rattle.lldp_engine.specs.Past.{Past, configuration_after};
ghost use Rattle.lldp_engine.specs.Standing.{Stands};
ghost use Rattle.lldp_engine.specs.Code.ShortText.{HasShortTexts};
ghost use Rattle.lldp_engine.specs.Frames.{sent_msap, sent_tlvs, capabilities_of, management_body, draft_of, frame_of, IsSent, SaysBack};
ghost use Rattle.lldp_engine.specs.Ranges.{most_name};

use crate::agent::Agent;
use crate::agent::configuration::Configuration;
use crate::agent::options::Role;
use arrayvec::ArrayVec;
use lldp_pdu::tlv_type::{
    CHASSIS_ID, END_OF_LLDPDU, MANAGEMENT_ADDRESS, PORT_DESCRIPTION, PORT_ID, SYSTEM_CAPABILITIES,
    SYSTEM_DESCRIPTION, SYSTEM_NAME, TIME_TO_LIVE,
};
use lldp_pdu::{MOST_FRAME, append_tlv};
use lldp_transmit::Mark;
use std::alloc::Allocator;

/// A frame to send.
pub type Frame = ArrayVec<u8, MOST_FRAME>;

/// Returns the body of the Chassis ID TLV: subtype 4 and the MAC address.
fn chassis_id(configuration: &Configuration) -> ArrayVec<u8, 7>
    ensures value { result.items ≡ 4 ∷ configuration.now.mac }
    ensures len { length result.items ≡ 7 }
{
    let mut body = ArrayVec::new();
    body.push(4);
    let _ = body.try_extend_from_slice(&configuration.mac);
    body
}

/// Returns the body of the Port ID TLV: subtype 5 and the name of the port.
fn port_id(name: &[u8]) -> ArrayVec<u8, 16>
    requires { length name.now ≤ most_name }
    ensures value { result.items ≡ 5 ∷ name.now }
    ensures len { length result.items ≡ length name.now + 1 }
{
    let mut body = ArrayVec::new();
    body.push(5);
    let _ = body.try_extend_from_slice(name);
    body
}

/// Returns the body of the System Capabilities TLV for a role.
fn capabilities(role: Role) -> &'static [u8]
    ensures value { result.now ≡ capabilities_of role }
    ensures short { length result.now ≡ 4 }
{
    match role {
        Role::Station => &[0x00, 0x80, 0x00, 0x80],
        Role::Bridge => &[0x00, 0x04, 0x00, 0x04],
        Role::Router => &[0x00, 0x10, 0x00, 0x10],
    }
}

/// Returns the body of the Management Address TLV for an IPv4 address.
fn management(address: &[u8; 4]) -> ArrayVec<u8, 12>
    ensures value { result.items ≡ management_body address.now }
    ensures short { length result.items ≡ 12 }
{
    let mut body = ArrayVec::new();
    let _ = body.try_extend_from_slice(&[5, 1]);
    let _ = body.try_extend_from_slice(address);
    let _ = body.try_extend_from_slice(&[1, 0, 0, 0, 0, 0]);
    body
}

/// Writes the Ethernet header: nearest bridge address, the agent's MAC address, EtherType.
fn write_head(frame: &mut Frame, configuration: &Configuration)
    ensures value { frame.new.items ≡ nearest_bridge ++ configuration.now.mac ++ lldp_ethertype }
    ensures len { array_vec_len frame.new ≡ 14 }
{
    frame.clear();
    let _ = frame.try_extend_from_slice(&[0x01, 0x80, 0xc2, 0x00, 0x00, 0x0e]);
    let _ = frame.try_extend_from_slice(&configuration.mac);
    let _ = frame.try_extend_from_slice(&[0x88, 0xcc]);
}

/// Adds the three mandatory TLVs: Chassis ID, Port ID and Time To Live.
fn write_mandatory(frame: &mut Frame, configuration: &Configuration, name: &[u8], ttl: u16)
    requires short { length name.now ≤ most_name }
    requires room { array_vec_len frame.old ≤ 14 }
    ensures value { frame.new.items ≡ frame.old.items
        ++ spellings (all_tlvs (record {
          msap = sent_msap configuration.now name.now;
          ttl = ttl;
          tlvs = [];
        })) }
    ensures len { array_vec_len frame.new ≤ array_vec_len frame.old + 31 }
    ensures mac { length configuration.now.mac ≡ 6 }
{
    append_tlv(frame, CHASSIS_ID, chassis_id(configuration).as_slice());
    append_tlv(frame, PORT_ID, port_id(name).as_slice());
    append_tlv(frame, TIME_TO_LIVE, &ttl.to_be_bytes());
}

/// Adds the optional TLVs of an ordinary frame.
fn write_optional(frame: &mut Frame, configuration: &Configuration, name: &[u8])
    requires short { length name.now ≤ most_name }
    requires room { array_vec_len frame.old ≤ 45 }
    ensures value { frame.new.items ≡ frame.old.items
        ++ spellings (sent_tlvs configuration.now name.now) }
    ensures len { array_vec_len frame.new ≤ array_vec_len frame.old + 551 }
    ensures short { HasShortTexts configuration.now }
{
    append_tlv(frame, PORT_DESCRIPTION, name);
    append_tlv(frame, SYSTEM_NAME, configuration.hostname.as_slice());
    append_tlv(
        frame,
        SYSTEM_DESCRIPTION,
        configuration.description.as_slice(),
    );
    append_tlv(frame, SYSTEM_CAPABILITIES, capabilities(configuration.role));
    if let Some(address) = &configuration.management {
        append_tlv(frame, MANAGEMENT_ADDRESS, management(address).as_slice());
    }
}

/// Adds the TLVs of a frame, except the End Of LLDPDU.
fn write_tlvs(frame: &mut Frame, configuration: &Configuration, name: &[u8], mark: Mark)
    requires some { 0 < length name.now }
    requires short { length name.now ≤ most_name }
    requires room { array_vec_len frame.old ≤ 14 }
    ensures value { frame.new.items ≡ frame.old.items
        ++ spellings (all_tlvs (draft_of configuration.now name.now mark)) }
    ensures len { array_vec_len frame.new ≤ array_vec_len frame.old + 582 }
    ensures mac { length configuration.now.mac ≡ 6 }
    ensures can { CanBuild (draft_of configuration.now name.now mark) }
{
    match mark {
        Mark::Ordinary => {
            write_mandatory(frame, configuration, name, configuration.ttl());
            write_optional(frame, configuration, name);
        }
        Mark::Shutdown | Mark::Quiet => write_mandatory(frame, configuration, name, 0),
    }
}

/// Writes the frame of a port, replacing what `frame` held.
fn write_frame(frame: &mut Frame, configuration: &Configuration, name: &[u8], mark: Mark)
    requires some { 0 < length name.now }
    requires short { length name.now ≤ most_name }
    ensures octets { frame.new.items ≡ frame_of configuration.now name.now mark }
    ensures says { SaysBack (draft_of configuration.now name.now mark) frame.new.items }
{
    write_head(frame, configuration);
    write_tlvs(frame, configuration, name, mark);
    append_tlv(frame, END_OF_LLDPDU, &[]);
}

impl<A: Allocator> Agent<A> {
    /// Writes the frame that a port sends with the current configuration, replacing what `frame`
    /// held. Examining it (`examine`) returns the port's name and, for an ordinary frame, the TTL
    /// and the TLVs of the configuration, or, for a shutdown frame, a TTL of 0.
    pub fn write_frame(&self, port: u8, mark: Mark, frame: &mut Frame)
        requires port { IsPort self.now port }
        requires sent { IsSent mark }
        ensures octets { frame.new.items
            ≡ frame_of self.now.configuration (name_of self.now port) mark }
        ensures says { SaysBack (draft_of self.now.configuration (name_of self.now port) mark)
            frame.new.items }
        ensures past { (past : Past) → Stands past self.now → (name : List ℕ) →
            slice_get past.options.names port ≡ Some name →
            frame.new.items ≡ frame_of (configuration_after past.options past.events) name mark }
    {
        write_frame(frame, self.configuration(), self.port_name(port), mark);
    }

    /// Returns the frame that `write_frame` writes. To send many frames, use `write_frame` and
    /// reuse one buffer.
    pub fn frame(&self, port: u8, mark: Mark) -> Frame
        requires port { IsPort self.now port }
        requires sent { IsSent mark }
        ensures octets { result.items
            ≡ frame_of self.now.configuration (name_of self.now port) mark }
        ensures says { SaysBack (draft_of self.now.configuration (name_of self.now port) mark)
            result.items }
        ensures past { (past : Past) → Stands past self.now → (name : List ℕ) →
            slice_get past.options.names port ≡ Some name →
            result.items ≡ frame_of (configuration_after past.options past.events) name mark }
    {
        let mut frame = ArrayVec::new();
        self.write_frame(port, mark, &mut frame);
        frame
    }
}
