//! The slots in use, in the order in which their neighbors expire.
ghost use Rattle.std.specs.Prelude.{◌≡◌, ℕ, true, false, ◌≤◌, ◌<◌, ◌+◌, ◌^◌, [], ◌∷◌, ◌++◌, length, take, drop, slice_index, nat_eq};
ghost use Rattle.std.specs.List.{list_any, AllByRecursion};
ghost use Rattle.lldp_table.specs.Code.Queue.{due, dues, holds, ticks_left, put, enter, leave, less_first, add_first, first_gap, is_spent, total, IsRunning, IsQueue};

use crate::limits::MOST_NEIGHBORS;
use crate::times::{Times, left_in, lefts_in};
use arrayvec::ArrayVec;
use memchr::memchr;
use std::marker::Model;

/// Returns the place of `slot` in `slots`, which must contain it. Neighbors whose frames come in turn
/// are refreshed in the order in which they expire, so the first slot is tried first.
fn place_in(slots: &[u8], slot: u8) -> usize
    requires { list_any (nat_eq slot) slots.now ≡ true }
    ensures within { result < length slots.now }
    ensures there { slice_index slots.now result ≡ slot }
{
    if slots[0] == slot {
        return 0;
    }
    match memchr(slot, slots) {
        Some(at) => at,
        None => unreachable!(),
    }
}

/// Returns the place to insert a slot with this many ticks left, and the gap of the inserted slot.
#[tactic(auto, using(crate::proofs::Ageing::Due::enters_here, crate::proofs::Ageing::Due::enters_behind))]
fn place_for(slots: &[u8], times: &mut Times, left: u16) -> (usize, u16)
    requires { AllByRecursion (λ i. i < MOST_NEIGHBORS) slots.now }
    ensures within { result.0 ≤ length slots.now }
    ensures place { (slot : ℕ) →
        enter slot left (dues times.old.shown slots.now) ≡ take result.0 (dues times.old.shown slots.now)
        ++ put slot result.1 (drop result.0 (dues times.old.shown slots.now)) }
    ensures less { result.0 < length slots.now →
        result.1 ≤ slice_index times.old.shown (slice_index slots.now result.0) }
    ensures most { result.1 ≤ left }
    ensures same { times.new.shown ≡ times.old.shown }
{
    let mut rest = left;
    for (at, slot) in slots.iter().enumerate() {
        let gap = times.get(*slot);
        if gap > rest {
            return (at, rest);
        }
        rest -= gap;
    }
    (slots.len(), rest)
}

/// Subtracts `less` from the gap of the slot at place `at`, if there is one.
#[tactic(auto, using(crate::proofs::Ageing::Due::lessened, crate::proofs::Ageing::Due::within_times))]
fn lessen(times: &mut Times, slots: &[u8], at: usize, less: u16)
    requires queue { IsQueue times.old.shown slots.now }
    requires most { at < length slots.now →
        less ≤ slice_index times.old.shown (slice_index slots.now at) }
    ensures all { length times.new.shown ≡ MOST_NEIGHBORS }
    ensures after { dues times.new.shown slots.now ≡ take at (dues times.old.shown slots.now)
        ++ less_first less (drop at (dues times.old.shown slots.now)) }
{
    if at >= slots.len() {
        return;
    }
    let slot = slots[at];
    let gap = times.get(slot);
    times.set(slot, gap - less);
}

/// Adds `more` to the gap of the slot at place `at`, if there is one.
#[tactic(auto, using(crate::proofs::Ageing::Due::raised, crate::proofs::Ageing::Due::within_times))]
fn raise(times: &mut Times, slots: &[u8], at: usize, more: u16)
    requires queue { IsQueue times.old.shown slots.now }
    requires fits { at < length slots.now →
        more + slice_index times.old.shown (slice_index slots.now at) < 2 ^ 16 }
    ensures all { length times.new.shown ≡ MOST_NEIGHBORS }
    ensures after { dues times.new.shown slots.now ≡ take at (dues times.old.shown slots.now)
        ++ add_first more (drop at (dues times.old.shown slots.now)) }
{
    if at >= slots.len() {
        return;
    }
    let slot = slots[at];
    let gap = times.get(slot);
    times.set(slot, more + gap);
}

/// Inserts a slot whose neighbor has this many ticks left.
fn enter_into(slots: &mut ArrayVec<u8, MOST_NEIGHBORS>, times: &mut Times, slot: u8, left: u16)
    requires queue { IsQueue times.old.shown slots.old.items }
    requires room { length slots.old.items < MOST_NEIGHBORS }
    requires within { slot < MOST_NEIGHBORS }
    requires new { holds slot (dues times.old.shown slots.old.items) ≡ false }
    ensures queue { IsQueue times.new.shown slots.new.items }
    ensures after { dues times.new.shown slots.new.items
        ≡ enter slot left (dues times.old.shown slots.old.items) }
{
    let (at, rest) = place_for(slots.as_slice(), times, left);
    lessen(times, slots.as_slice(), at, rest);
    times.set(slot, rest);
    slots.insert(at, slot);
}

/// Appends a slot that expires `gap` ticks after the last slot.
fn enter_last(slots: &mut ArrayVec<u8, MOST_NEIGHBORS>, times: &mut Times, slot: u8, gap: u16)
    requires queue { IsQueue times.old.shown slots.old.items }
    requires room { length slots.old.items < MOST_NEIGHBORS }
    requires within { slot < MOST_NEIGHBORS }
    requires new { holds slot (dues times.old.shown slots.old.items) ≡ false }
    requires fits { total (dues times.old.shown slots.old.items) + gap < 2 ^ 16 }
    ensures queue { IsQueue times.new.shown slots.new.items }
    ensures after { dues times.new.shown slots.new.items
        ≡ enter slot (total (dues times.old.shown slots.old.items) + gap)
        (dues times.old.shown slots.old.items) }
{
    times.set(slot, gap);
    slots.push(slot);
}

/// Removes a slot, and adds its gap to that of the slot after it. Returns by how much the remaining
/// ticks of the last slot decrease.
fn leave_from(slots: &mut ArrayVec<u8, MOST_NEIGHBORS>, times: &mut Times, slot: u8) -> u16
    requires queue { IsQueue times.old.shown slots.old.items }
    requires there { holds slot (dues times.old.shown slots.old.items) ≡ true }
    ensures queue { IsQueue times.new.shown slots.new.items }
    ensures after { dues times.new.shown slots.new.items ≡ leave slot (dues times.old.shown slots.old.items) }
    ensures less { total (leave slot (dues times.old.shown slots.old.items)) + result
        ≡ total (dues times.old.shown slots.old.items) }
{
    let at = place_in(slots.as_slice(), slot);
    let gap = times.get(slot);
    raise(times, slots.as_slice(), at + 1, gap);
    slots.remove(at);
    if at < slots.len() {
        return 0;
    }
    gap
}

/// The slots in use, in the order in which their neighbors expire. Each slot has a gap: its
/// remaining ticks minus those of the slot before it.
#[derive(Drop)]
pub(crate) struct Queue {
    slots: ArrayVec<u8, MOST_NEIGHBORS>,
    /// The remaining ticks of the last slot: the sum of the gaps. A slot that expires no earlier
    /// than the last one is appended without a search.
    last: u16,
    times: Times,
}

impl Model for Queue {
    ghost use Rattle.std.specs.Prelude.{List};
    ghost use Rattle.lldp_table.specs.Counted.{Counted};
    ghost use Rattle.lldp_table.specs.Code.Queue.{Due, dues, IsQueueTo};

    ghost Value = { Counted (List Due) };

    ghost view = { λ q. record {
      shown = dues q.times.shown q.slots.items;
      accesses = q.times.accesses;
    } };

    ghost invariant = { λ q. IsQueueTo q.times.shown q.slots.items q.last };
}

impl Queue {
    #[tactic(auto, using(crate::proofs::Ageing::Due::queue_none))]
    pub(crate) fn new() -> Queue
        ensures { result.shown ≡ [] }
    {
        Queue {
            slots: ArrayVec::new(),
            last: 0,
            times: Times::new(),
        }
    }

    #[tactic(auto, using(crate::proofs::Ageing::Due::queue_none))]
    pub(crate) fn clear(&mut self)
        ensures { self.new.shown ≡ [] }
    {
        self.slots.clear();
        self.last = 0;
    }

    /// Inserts a slot whose neighbor has this many ticks left, after those that expire no later.
    pub(crate) fn enter(&mut self, slot: u8, left: u16)
        requires room { length self.old.shown < MOST_NEIGHBORS }
        requires within { slot < MOST_NEIGHBORS }
        requires new { holds slot self.old.shown ≡ false }
        ensures { self.new.shown ≡ enter slot left self.old.shown }
    {
        if left >= self.last {
            let gap = left - self.last;
            enter_last(&mut self.slots, &mut self.times, slot, gap);
            self.last = left;
            return;
        }
        enter_into(&mut self.slots, &mut self.times, slot, left);
    }

    /// Removes a slot.
    pub(crate) fn leave(&mut self, slot: u8)
        requires { holds slot self.old.shown ≡ true }
        ensures { self.new.shown ≡ leave slot self.old.shown }
    {
        self.last -= leave_from(&mut self.slots, &mut self.times, slot);
    }

    /// Processes a tick: subtracts one from the first gap, and so from the remaining ticks of every
    /// slot. Returns whether the first slot has none left.
    pub(crate) fn pass(&mut self) -> bool
        requires { IsRunning self.old.shown }
        ensures after { self.new.shown ≡ less_first 1 self.old.shown }
        ensures spent { result ≡ is_spent self.new.shown }
        ensures counted { self.new.accesses ≤ self.old.accesses + 2 }
    {
        if self.slots.is_empty() {
            return false;
        }
        let first = self.slots[0];
        let left = self.times.get(first) - 1;
        self.times.set(first, left);
        self.last -= 1;
        left == 0
    }

    /// Removes the first slot, which has no ticks left, and returns it.
    #[tactic(auto, using(crate::proofs::Slots::Counted::shown_is, crate::proofs::Ageing::Due::queue_popped, crate::proofs::Ageing::Due::total_popped))]
    pub(crate) fn pop(&mut self) -> u8
        requires { is_spent self.old.shown ≡ true }
        ensures after { self.old.shown ≡ due result 0 ∷ self.new.shown }
        ensures uncounted { self.new.accesses ≡ self.old.accesses }
    {
        self.slots.remove(0)
    }

    /// Returns whether the first slot has no ticks left.
    pub(crate) fn is_spent(&mut self) -> bool
        ensures same { self.new.shown ≡ self.old.shown }
        ensures spent { result ≡ is_spent self.old.shown }
        ensures counted { self.new.accesses ≤ self.old.accesses + 1 }
    {
        if self.slots.is_empty() {
            return false;
        }
        self.times.get(self.slots[0]) == 0
    }

    /// Returns the remaining ticks of the first slot, which are the fewest.
    pub(crate) fn soonest(&self) -> Option<u16>
        ensures { result ≡ first_gap self.now.shown }
    {
        let first = self.slots.first()?;
        Some(self.times.look(*first))
    }

    /// Returns the remaining ticks of a slot in the queue.
    pub(crate) fn left_of(&self, slot: u8) -> u16
        ensures { result ≡ ticks_left self.now.shown slot }
    {
        left_in(self.slots.as_slice(), &self.times, slot)
    }

    /// Returns the remaining ticks of each slot in the queue, by slot index.
    pub(crate) fn lefts(&self) -> [u16; MOST_NEIGHBORS]
        ensures { (slot : ℕ) → holds slot self.now.shown ≡ true →
            slice_index result slot ≡ ticks_left self.now.shown slot }
    {
        lefts_in(self.slots.as_slice(), &self.times)
    }
}
