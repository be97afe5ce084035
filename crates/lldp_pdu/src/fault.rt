//! The faults for which an LLDPDU, or a TLV to be added to one, is refused.
ghost use Rattle.std.specs.Prelude.{◌≡◌};
ghost use Rattle.lldp_pdu.specs.FaultNumber.{pdu_fault_number, build_fault_number};

/// The first check that an LLDPDU fails.
#[derive(Clone, Copy, Debug, PartialEq, Eq)]
pub enum PduFault {
    /// The octets end before the three mandatory TLVs are complete.
    Truncated = 1,
    /// The first TLV is not a Chassis ID.
    NoChassis = 2,
    /// The Chassis ID does not have 2 to 256 octets.
    ChassisLength = 3,
    /// The second TLV is not a Port ID.
    NoPort = 4,
    /// The Port ID does not have 2 to 256 octets.
    PortLength = 5,
    /// The third TLV is not a Time To Live.
    NoTtl = 6,
    /// The Time To Live has fewer than 2 octets.
    TtlLength = 7,
    /// A Chassis ID, Port ID or Time To Live occurs again after the third TLV.
    Repeated = 8,
}

impl PduFault {
    /// Returns the fault's number, 1 to 8, in the order in which the faults are first checked.
    pub fn number(self) -> u8
        ensures { result ≡ pdu_fault_number self }
    {
        self as u8
    }
}

/// The first check of `Builder::put` that a TLV fails.
#[derive(Clone, Copy, Debug, PartialEq, Eq)]
pub enum BuildFault {
    /// The TLV and the End Of LLDPDU do not fit in 1,500 octets.
    Full = 1,
    /// The type can't be put here: it is not 4 to 127, it is one of 4 to 7 and was put before, or
    /// the TTL is 0.
    Kind = 2,
    /// The body has more than 511 octets or is not well formed.
    Body = 3,
}

impl BuildFault {
    /// Returns the fault's number, 1 to 3.
    pub fn number(self) -> u8
        ensures { result ≡ build_fault_number self }
    {
        self as u8
    }
}
