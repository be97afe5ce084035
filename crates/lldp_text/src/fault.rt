//! Why a command is refused.
ghost use Rattle.std.specs.Prelude.{◌≡◌, ◌≤◌, length};
ghost use Rattle.lldp_text.specs.Fault.{text_of, number_of_fault};
ghost use Rattle.lldp_text.specs.declared.writing.TheConstants.{MOST_LINE};

/// Why a command is refused. If a line has several faults, the first of these is reported: a bad
/// quote anywhere, the leftmost word that fits no command, a word too many, a limit that some port
/// exceeds.
#[derive(Clone, Copy, Debug, PartialEq, Eq)]
pub enum CommandFault {
    /// A word is missing, or no command has this word at this place.
    Unknown = 1,
    /// No port has that name.
    NoSuchPort = 2,
    /// The word is not one or more decimal digits.
    Number = 3,
    /// The number is out of range.
    Range = 4,
    /// The text has more than 255 octets, or an octet that is not printable ASCII.
    Text = 5,
    /// A word follows a complete command.
    Extra = 6,
    /// A quote is inside an unquoted word, is not closed, or is closed right before another word.
    Quote = 7,
    /// Some port holds more neighbors than the new limit.
    InUse = 8,
}

impl CommandFault {
    /// Returns the number of the fault, 1 to 8.
    pub fn number(self) -> u8
        ensures { result ≡ number_of_fault self }
    {
        self as u8
    }

    /// Returns the line that reports the fault, without its line feed.
    pub fn text(self) -> &'static [u8]
        ensures text { result.now ≡ text_of self }
        ensures short { length result.now ≤ MOST_LINE }
    {
        match self {
            CommandFault::Unknown => b"error: unknown command",
            CommandFault::NoSuchPort => b"error: no such port",
            CommandFault::Number => b"error: not a number",
            CommandFault::Range => b"error: out of range",
            CommandFault::Text => b"error: bad text",
            CommandFault::Extra => b"error: extra word",
            CommandFault::Quote => b"error: bad quote",
            CommandFault::InUse => b"error: too many held",
        }
    }
}
