//! The stored times. `get` reads a time and `set` writes one, and both count the access. `look` reads
//! a time through a shared reference, so it cannot count, and no tick uses it. The sum of all gaps,
//! which the queue keeps, is not a stored time.
ghost use Rattle.std.specs.Prelude.{◌≡◌, ℕ, ◌+◌, ◌<◌, length, slice_index, slice_set};
ghost use Rattle.std.specs.List.{AllByRecursion};
ghost use Rattle.lldp_table.specs.Code.Queue.{dues, ticks_left, IsQueue};

use crate::count::Count;
use crate::limits::MOST_NEIGHBORS;
use std::marker::Model;

/// The stored time of each slot, and the number of calls of `get` and `set`.
#[derive(Drop)]
pub(crate) struct Times {
    each: [u16; MOST_NEIGHBORS],
    count: Count,
}

impl Model for Times {
    ghost use Rattle.std.specs.Prelude.{◌≡◌, ℕ, List, length};
    ghost use Rattle.lldp_table.specs.declared.limits.TheConstants.{MOST_NEIGHBORS};
    ghost use Rattle.lldp_table.specs.Counted.{Counted};

    ghost Value = { Counted (List ℕ) };

    ghost view = { λ t. record { shown = t.each; accesses = t.count.number } };

    ghost invariant = { λ t. length t.each ≡ MOST_NEIGHBORS };
}

impl Times {
    pub(crate) fn new() -> Times
        ensures { length result.shown ≡ MOST_NEIGHBORS }
    {
        Times {
            each: [0; MOST_NEIGHBORS],
            count: Count::new(),
        }
    }

    /// Returns the time of a slot, and counts the access.
    pub(crate) fn get(&mut self, slot: u8) -> u16
        requires { slot < MOST_NEIGHBORS }
        ensures value { result ≡ slice_index self.old.shown slot }
        ensures same { self.new.shown ≡ self.old.shown }
        ensures counted { self.new.accesses ≡ self.old.accesses + 1 }
    {
        self.count.add();
        self.each[slot as usize]
    }

    /// Sets the time of a slot, and counts the access.
    pub(crate) fn set(&mut self, slot: u8, time: u16)
        requires { slot < MOST_NEIGHBORS }
        ensures value { self.new.shown ≡ slice_set self.old.shown slot time }
        ensures counted { self.new.accesses ≡ self.old.accesses + 1 }
    {
        self.count.add();
        self.each[slot as usize] = time;
    }

    /// Returns the time of a slot without counting the access.
    pub(crate) fn look(&self, slot: u8) -> u16
        requires { slot < MOST_NEIGHBORS }
        ensures { result ≡ slice_index self.now.shown slot }
    {
        self.each[slot as usize]
    }
}

/// Returns the remaining ticks of one of these slots.
pub(crate) fn left_in(slots: &[u8], times: &Times, slot: u8) -> u16
    requires { IsQueue times.now.shown slots.now }
    ensures { result ≡ ticks_left (dues times.now.shown slots.now) slot }
{
    let mut left = 0;
    for other in slots {
        left += times.look(*other);
        if *other == slot {
            return left;
        }
    }
    left
}

/// Returns the remaining ticks of each of these slots.
pub(crate) fn lefts_in(slots: &[u8], times: &Times) -> [u16; MOST_NEIGHBORS]
    requires { IsQueue times.now.shown slots.now }
    ensures { AllByRecursion (λ i. slice_index result i
        ≡ ticks_left (dues times.now.shown slots.now) i) slots.now }
{
    let mut lefts = [0; MOST_NEIGHBORS];
    let mut left = 0;
    for slot in slots {
        left += times.look(*slot);
        lefts[*slot as usize] = left;
    }
    lefts
}
