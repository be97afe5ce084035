//! Tests what a machine tells.
use lldp_transmit::{Mark, Parts, Transmit};

/// Returns fields that no two readers tell alike, with this credit of at most 8.
fn parts_with([active, allowed, up]: [bool; 3], credit: u8) -> Parts {
    Parts {
        timer: 300,
        credit_max: 8,
        fast_init: 3,
        reinit: 2,
        credit,
        wait: 1,
        left: 4,
        waiting: true,
        active,
        allowed,
        up,
    }
}

#[test]
fn machines_of_parts(rt: HostRuntime) {
    assert_eq!(rt; Mark::default(), Mark::Quiet);
    for flags in [
        [true, false, false],
        [false, true, false],
        [false, false, true],
    ] {
        for credit in 0..9 {
            let parts = parts_with(flags, credit);
            let Some(machine) = Transmit::of_parts(&parts) else {
                panic!(rt; "no machine has credit {credit}");
            };
            assert_eq!(rt; machine.parts(), parts);
            assert_eq!(rt; machine.credit(), credit);
            let told = [machine.is_active(), machine.is_allowed(), machine.is_up()];
            assert_eq!(rt;
                told,
                flags,
                "what a machine with one of its three flags tells"
            );
        }
        assert!(rt; Transmit::of_parts(&parts_with(flags, 9)).is_none());
    }
}
