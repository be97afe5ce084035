//! Why an agent cannot be opened.
ghost use Rattle.std.specs.Prelude.{◌≡◌};
ghost use Rattle.lldp_engine.specs.FixedNumbers.{number_of_refusal};

use std::alloc::AllocError;

/// Why an agent was not opened.
#[derive(Clone, Copy, Debug, PartialEq, Eq)]
pub enum OpenFault {
    /// There was not enough memory.
    Memory = 1,
    /// No port was named.
    NoPorts = 2,
    /// More than 64 ports were named.
    TooManyPorts = 3,
    /// A port's name does not consist of 1 to 15 letters, digits, `-`, `_`, `/` or `:`.
    PortName = 4,
    /// Two ports have the same name.
    SamePort = 5,
    /// The hostname has more than 255 octets, or an octet that is not printable.
    Text = 6,
}

impl OpenFault {
    /// Returns the number of the fault, 1 to 6.
    pub fn number(self) -> u8
        ensures { result ≡ number_of_refusal self }
    {
        self as u8
    }
}

impl From<AllocError> for OpenFault {
    ghost use Rattle.std.specs.Prelude.{◌≡◌};
    ghost use Rattle.lldp_engine.specs.declared.agent.open_fault.OpenFault.TheVariants.{Memory};

    ghost from_gives = { λ _ e. e ≡ Memory };

    fn from(_error: AllocError) -> Self {
        OpenFault::Memory
    }
}
