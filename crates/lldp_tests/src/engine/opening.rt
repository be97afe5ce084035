//! Tests that opening succeeds if there is memory.
use super::{NAMES, only_receiving, open};
use std::test::Fail;

/// Checks that no opening is refused if there is memory, for all numbers of ports and all limits.
#[test]
fn every_size(rt: HostRuntime) -> Result<(), Fail> {
    for ports in 1..65 {
        for limit in 1..129 {
            let agent = open(&rt, rt.alloc(), &only_receiving(&NAMES[..ports], limit))?;
            assert_eq!(rt; usize::from(agent.ports()), ports);
        }
    }
    Ok(())
}
