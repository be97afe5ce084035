//! A counter that exists only in contracts.
ghost use Rattle.std.specs.Prelude.{◌≡◌, ℕ, ◌+◌};
ghost use Rattle.std.specs.Borrow.{ftrue};

use std::marker::Model;

/// A counter that takes no memory and that only `add` changes.
#[derive(Drop)]
pub(crate) struct Count {
    ghost number: { ℕ },
}

impl Model for Count {
    ghost also_owns = { λ _. ftrue };
}

impl Count {
    /// Returns a counter. No clause states the number at which it starts, so code cannot replace a
    /// counter by a new one to hide what was counted.
    pub(crate) fn new() -> Count
        ensures { result ≡ result }
    {
        Count {}
    }

    /// Adds one.
    pub(crate) fn add(&mut self)
        ensures { self.new.number ≡ self.old.number + 1 }
    {}
}
