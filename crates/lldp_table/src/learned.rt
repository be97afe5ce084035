//! What a table did with a frame.
ghost use Rattle.std.specs.Prelude.{◌≡◌};
ghost use Rattle.lldp_table.specs.Outcomes.{learned_of};

/// The result of `Table::learn`: what it did with the frame.
#[derive(Clone, Copy, Debug, PartialEq, Eq)]
pub enum Learned {
    /// The frame's neighbor was not held, and now is.
    New,
    /// The frame's neighbor was held, and now has this frame in place of the previous one.
    Refreshed,
    /// The frame's neighbor was not held, and there was no room for it.
    Dropped,
}

/// The result of `Table::store`: a `Learned` that also says whether a held neighbor changed.
#[derive(Clone, Copy, Debug, PartialEq, Eq)]
pub enum Outcome {
    /// The frame's neighbor was not held, and now is.
    Added,
    /// The frame's neighbor was held with other octets.
    Changed,
    /// The frame's neighbor was held with the same octets.
    Repeated,
    /// The frame's neighbor was not held, and there was no room for it.
    NoRoom,
}

impl Outcome {
    /// Returns what `Table::learn` returns for the same frame.
    pub fn learned(self) -> Learned
        ensures { result ≡ learned_of self }
    {
        match self {
            Outcome::Added => Learned::New,
            Outcome::Changed | Outcome::Repeated => Learned::Refreshed,
            Outcome::NoRoom => Learned::Dropped,
        }
    }
}
