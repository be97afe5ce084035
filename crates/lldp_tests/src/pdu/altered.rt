//! Tests which changed octets of a frame keep it from being received. What `examine` tells about
//! cut and altered LLDPDUs is compared by tools/library/test_library.py.
use crate::engine::{only_receiving, open};
use lldp_engine::Event;
use lldp_pdu::frame_pdu;
use std::process::Abort;
use std::test::Fail;

/// An LLDP frame: an Ethernet header, Chassis ID, Port ID, TTL 120 and End.
const FRAME: &[u8; 36] =
    b"\x01\x80\xc2\x00\x00\x0e\x00\x11\x22\x33\x44\x55\x88\xcc\x02\x07\x04\x00\x11\x22\x33\x44\x55\x04\x05\x05eth0\x06\x02\x00\x78\x00\x00";

/// Passes a frame to a new agent, and returns the agent's count of received frames.
fn received(rt: &(impl Abort + AllocGlobal), octets: &[u8]) -> Result<u32, Fail> {
    let mut agent = open(rt, rt.alloc(), &only_receiving(&["eth0"], 1))?;
    let event = Event::Frame { port: 0, octets };
    assert!(rt; agent.allows(&event));
    assert!(rt; agent.step(event).is_empty());
    assert!(rt; 0 < agent.ports());
    Ok(agent.counters(0).received)
}

/// Changes one octet of `FRAME` in every way, and passes each result to a new agent. A result is an
/// LLDP frame unless its destination (6 octets) or its EtherType (2) was changed.
#[test]
fn one_octet_changed(rt: HostRuntime) -> Result<(), Fail> {
    let mut counts: [u32; 2] = [0, 0];
    for place in 0..36 {
        for bits in 1..=255 {
            let mut changed = *FRAME;
            changed[place] ^= bits;
            let heard = usize::from(frame_pdu(&changed).is_some());
            assert_eq!(rt; received(&rt, &changed)?, heard as u32, "{bits} at {place}");
            counts[heard] = counts[heard].saturating_add(1);
        }
    }
    assert_eq!(rt; counts, [2040, 7140]);
    Ok(())
}
