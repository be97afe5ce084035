//! Tests that LLDPDUs are read TLV by TLV. tools/library/c/vectors.c reads and builds the rows of
//! examples/vectors.rows.
mod altered;

use lldp_pdu::{Examined, Tlvs, examine};

#[test]
fn tlvs_and_their_rest(rt: HostRuntime) {
    let octets = b"\x0a\x03sw2\0\0\x0c\x05\x01";
    let mut tlvs = Tlvs::new(octets);
    let (Some(name), Some(end), None) = (tlvs.next(), tlvs.next(), tlvs.next()) else {
        panic!(rt; "it does not give two TLVs");
    };
    assert_eq!(rt; (name.kind, name.body), (5, b"sw2".as_slice()));
    assert_eq!(rt; (end.kind, end.body), (0, b"".as_slice()));
    assert_eq!(rt; tlvs.rest(), [0x0c, 0x05, 0x01].as_slice());
}

/// Checks that the first of two System Names is kept.
#[test]
fn kept_tlvs(rt: HostRuntime) {
    let pdu = b"\x02\x02\x07a\x04\x02\x07b\x06\x02\0\x78\x0a\x03sw2\x0a\x03sw3";
    let Ok(Examined::Info(info)) = examine(pdu) else {
        panic!(rt; "it is refused");
    };
    let mut kept = info.kept();
    let (Some(name), None) = (kept.next(), kept.next()) else {
        panic!(rt; "it does not keep one TLV");
    };
    assert_eq!(rt; (name.kind, name.body), (5, b"sw2".as_slice()));
}
