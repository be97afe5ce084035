//! Why the program ends with a status other than 0, and the line that reports it.
ghost use Rattle.std.specs.Prelude.{◌≡◌};
ghost use Rattle.lldp_program.specs.Faults.ProgramFault.{line_of, status_of};

use crate::arguments::AddressFault;
use crate::trace::RunFault;
use lldp_engine::OpenFault;

/// Why the program ends with a status other than 0.
#[derive(Clone, Copy, Debug, PartialEq, Eq)]
pub enum ProgramFault {
    /// A read, a write or a flush failed, or the trace did not end within 4,294,967,295 reads.
    Run(RunFault),
    /// The port could not be bound, accepting failed, or a connection ended with a fault.
    Socket,
    /// Opening refused the options, or there was no memory for it or for the arguments.
    Opening(OpenFault),
    /// The value of `--mac` is not a MAC address, or that of `--management` not an IPv4 address.
    Address(AddressFault),
}

impl ProgramFault {
    /// Returns the line that reports the fault, with its LF.
    pub fn line(self) -> &'static [u8]
        ensures { result.now ≡ line_of self }
    {
        match self {
            ProgramFault::Run(RunFault::Read) => b"lldpa: read failed\n",
            ProgramFault::Run(RunFault::Write) => b"lldpa: write failed\n",
            ProgramFault::Run(RunFault::InputTooLong) => b"lldpa: input too long\n",
            ProgramFault::Socket => b"lldpa: socket failed\n",
            ProgramFault::Opening(OpenFault::Memory) => b"lldpa: no memory\n",
            ProgramFault::Opening(OpenFault::NoPorts) => b"lldpa: no ports\n",
            ProgramFault::Opening(OpenFault::TooManyPorts) => b"lldpa: too many ports\n",
            ProgramFault::Opening(OpenFault::PortName) => b"lldpa: bad port name\n",
            ProgramFault::Opening(OpenFault::SamePort) => b"lldpa: same port twice\n",
            ProgramFault::Opening(OpenFault::Text) => b"lldpa: bad text\n",
            ProgramFault::Address(AddressFault::Mac) => b"lldpa: bad --mac\n",
            ProgramFault::Address(AddressFault::Management) => b"lldpa: bad --management\n",
        }
    }

    /// Returns the status that the program ends with, 1 or 2.
    pub fn status(self) -> u8
        ensures { result ≡ status_of self }
    {
        match self {
            ProgramFault::Run(_) | ProgramFault::Socket => 1,
            ProgramFault::Opening(_) | ProgramFault::Address(_) => 2,
        }
    }
}
