//! The numbers of faults for C. Each kind of fault has its own range.
ghost use Rattle.std.specs.Prelude.{◌≡◌};
ghost use Rattle.lldpa_c.specs.Faults.{tlv_fault_number, refusal_number, command_fault_number};

use lldp_engine::{CommandFault, OpenFault};
use lldp_pdu::BuildFault;

/// Returns the number of a fault of a TLV that is built.
pub(crate) fn tlv_fault_number(fault: BuildFault) -> u8
    ensures { result ≡ tlv_fault_number fault }
{
    match fault {
        BuildFault::Full => 11,
        BuildFault::Kind => 12,
        BuildFault::Body => 13,
    }
}

/// Returns the number of a fault in opening an agent.
pub(crate) fn refusal_number(fault: OpenFault) -> u8
    ensures { result ≡ refusal_number fault }
{
    match fault {
        OpenFault::Memory => 21,
        OpenFault::NoPorts => 22,
        OpenFault::TooManyPorts => 23,
        OpenFault::PortName => 24,
        OpenFault::SamePort => 25,
        OpenFault::Text => 26,
    }
}

/// Returns the number of a fault of a command.
pub(crate) fn command_fault_number(fault: CommandFault) -> u8
    ensures { result ≡ command_fault_number fault }
{
    match fault {
        CommandFault::Unknown => 31,
        CommandFault::NoSuchPort => 32,
        CommandFault::Number => 33,
        CommandFault::Range => 34,
        CommandFault::Text => 35,
        CommandFault::Extra => 36,
        CommandFault::Quote => 37,
        CommandFault::InUse => 38,
    }
}
