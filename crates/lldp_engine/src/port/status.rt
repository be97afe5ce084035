//! The statuses of a port.
ghost use Rattle.std.specs.Prelude.{◌≡◌};
ghost use Rattle.lldp_engine.specs.Status.{receives, transmits, status_at_opening};
ghost use Rattle.lldp_engine.specs.Options.{options_of};

use crate::agent::options::Options;

/// Whether a port receives and whether it transmits.
#[derive(Clone, Copy, Debug, PartialEq, Eq)]
pub enum Status {
    RxAndTx,
    RxOnly,
    TxOnly,
    Disabled,
}

impl Status {
    /// Returns whether the port receives.
    pub(crate) fn receives(self) -> bool
        ensures { result ≡ receives self }
    {
        matches!(self, Status::RxAndTx | Status::RxOnly)
    }

    /// Returns whether the port may transmit.
    pub(crate) fn transmits(self) -> bool
        ensures { result ≡ transmits self }
    {
        matches!(self, Status::RxAndTx | Status::TxOnly)
    }
}

/// Returns the status of each port at opening.
pub(crate) fn opening_status(options: &Options<'_>) -> Status
    ensures { result ≡ status_at_opening (options_of options.now) }
{
    if options.receive_only {
        Status::RxOnly
    } else {
        Status::RxAndTx
    }
}
