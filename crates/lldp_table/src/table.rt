//! The neighbors of one port.
ghost use Rattle.std.specs.Prelude.{◌≡◌, ℕ, List, ◌≤◌, ◌<◌, ◌↔◌, ◌+◌, ◌*◌, [], ◌∷◌, length, map, IfOk, IsTrue, MatchOption, false, nat_lt, sum_by, slice_index, slice_get, Some, is_some};
ghost use Rattle.lldp_pdu.specs.Kept.{kept_of};
ghost use Rattle.lldp_pdu.specs.View.{msap_view};
ghost use Rattle.lldp_pdu.specs.Lldpdu.{msap_of};
ghost use Rattle.lldp_table.specs.Contents.{IsExtent, IsHeld, IsSound, holds_name, least_left, names_of};
ghost use Rattle.lldp_table.specs.Code.Stored.{tag_of};
ghost use Rattle.lldp_table.specs.Code.Steps.{learn_answer, learned_as, after_learn, after_forget, after_purge, after_tick, after_set_limit, newly_opened};
ghost use Rattle.lldp_table.specs.declared.learned.Learned.TheVariants.{New, Refreshed};
ghost use Rattle.lldp_table.specs.Events.{Call, learn, forget, purge, tick, set_limit, live, answer, aged_out, events_of};
ghost use Rattle.lldp_table.specs.Standing.{Stands, ForEachCalls};
ghost use Rattle.lldp_table.specs.Outcomes.{learned_of, octets_held, outcome_for, store_outcome, outcome_between};
ghost use Rattle.lldp_pdu.specs.Range.{most_octets};
ghost use Rattle.lldp_table.specs.Ranges.{most_neighbors};

use crate::entries::Entries;
use crate::entry::Entry;
use crate::learned::{Learned, Outcome};
use crate::limits::MOST_NEIGHBORS;
use crate::order::{expire, octets_of, place_of, write_next};
use crate::queue::Queue;
use crate::room::Room;
use crate::slot::{Slot, mix_name};
use arrayvec::ArrayVec;
use lldp_pdu::{Info, Msap};
use std::alloc::{AllocError, Allocator};
use std::marker::Model;

/// The neighbors of one port. Only `open` gets an allocator, and only `open` can fail. All other
/// calls keep the capacity and cannot allocate memory: `Room` gives no access to its allocator, and
/// no other field has one.
///
/// A clause about lists of calls holds for every list of calls on a table that was opened with a
/// limit of 1 to 128, if each call met its preconditions.
#[derive(Drop)]
pub struct Table<A: Allocator> {
    /// The slots that were ever used. The memory for all neighbors is allocated at opening, and
    /// slots never move.
    slots: Room<Slot, A>,
    /// The indices of the slots: first those in use, in the order in which their neighbors were
    /// last added, and then those of the neighbors that aged out at the last call.
    order: ArrayVec<u8, MOST_NEIGHBORS>,
    /// How many slots are in use.
    used: u8,
    /// How many neighbors aged out at the last call. Their slots keep the frames until one is
    /// needed for another neighbor, so any call but a tick sets this to 0.
    gone: u8,
    /// The slots in use, in the order in which their neighbors expire.
    queue: Queue,
    /// The tag of the MSAP identifier in each slot, by slot index.
    tags: [u8; MOST_NEIGHBORS],
    limit: u8,
    /// The remaining ticks of the too-many timer (tooManyNeighborsTimer in the standard).
    too_many: u16,
}

impl<A: Allocator> Model for Table<A> {
    ghost use Rattle.lldp_table.specs.Counted.{Counted};
    ghost use Rattle.lldp_table.specs.Contents.{Contents};

    ghost Value = { Counted Contents };

    ghost use Rattle.lldp_table.specs.Code.Queue.{ticks_left};
    ghost use Rattle.lldp_table.specs.Code.Layout.{contents_of};
    ghost use Rattle.lldp_table.specs.Code.Tags.{IsTaggedTable};

    ghost view = { λ t. record {
      shown = contents_of t.slots.capacity t.slots.items (ticks_left t.queue.shown)
          t.order.items t.used t.gone t.limit t.too_many;
      accesses = t.queue.accesses;
    } };

    ghost invariant = { λ t. IsTaggedTable t.slots.capacity t.slots.items t.queue.shown
        t.order.items t.used t.gone t.limit t.too_many t.tags };
}

impl<A: Allocator> Table<A> {
    /// Opens an empty table, which matches (`Stands`) this limit and no calls. Allocates the memory
    /// for `limit` neighbors, 1 to 128, of 1,500 octets each. Fails if there is not enough memory.
    pub fn open(alloc: A, limit: u8) -> Result<Table<A>, AllocError>
        requires least { 0 < limit }
        requires most { limit ≤ most_neighbors }
        ensures empty { IfOk result (λ table. table.shown ≡ newly_opened limit) }
        ensures stands { IfOk result (λ table. Stands limit [] table.shown) }
    {
        Ok(Table {
            slots: Room::open(alloc, limit as usize)?,
            order: ArrayVec::new(),
            used: 0,
            gone: 0,
            queue: Queue::new(),
            tags: [0; MOST_NEIGHBORS],
            limit,
            too_many: 0,
        })
    }

    /// Stores a frame, whose extent has at most 1,500 octets, if its neighbor is held or there is
    /// room. Returns Refreshed if its MSAP identifier is live, even if the table is full; otherwise
    /// New if the number of live neighbors is below the current limit, and else Dropped. The stored
    /// octets have the kept TLVs of the frame. The table then matches the list of calls with this
    /// call.
    #[inline(always)]
    pub fn learn(&mut self, info: &Info<'_>) -> Learned
        requires { length info.now.octets ≤ most_octets }
        ensures answer { result ≡ learn_answer self.old.shown info.now.msap }
        ensures after { self.new.shown ≡ after_learn self.old.shown info.now.msap info.now.ttl info.now.octets }
        ensures extent { IsExtent info.now.msap info.now.ttl info.now.octets }
        ensures kept { kept_of info.now.octets ≡ info.now.kept }
        ensures answers { ForEachCalls self.old.shown (λ opened calls.
            result ≡ answer opened info.now.msap (events_of opened calls)) }
        ensures stands { ForEachCalls self.old.shown (λ opened calls.
            Stands opened (learn info.now.msap info.now.ttl info.now.octets ∷ calls) self.new.shown) }
    {
        self.store(info).learned()
    }

    /// Does the same as `learn`, and also tells whether a neighbor that was held sent the same
    /// octets as before.
    pub fn store(&mut self, info: &Info<'_>) -> Outcome
        requires { length info.now.octets ≤ most_octets }
        ensures outcome { result ≡ store_outcome self.old.shown info.now.msap info.now.octets }
        ensures between { result ≡ outcome_between (octets_held self.old.shown info.now.msap)
            (octets_held self.new.shown info.now.msap) }
        ensures after { self.new.shown ≡ after_learn self.old.shown info.now.msap info.now.ttl info.now.octets }
        ensures extent { IsExtent info.now.msap info.now.ttl info.now.octets }
        ensures kept { kept_of info.now.octets ≡ info.now.kept }
        ensures stands { ForEachCalls self.old.shown (λ opened calls.
            Stands opened (learn info.now.msap info.now.ttl info.now.octets ∷ calls) self.new.shown) }
    {
        let name = info.msap();
        let tag = mix_name(&name);
        let ttl = info.ttl();
        let octets = info.octets();
        if let Some(at) = self.place(&name, tag) {
            return self.refresh(at, octets, ttl);
        }
        if self.has_room() {
            self.admit(octets, ttl, tag);
            return Outcome::Added;
        }
        self.gone = 0;
        self.too_many = self.too_many.max(ttl);
        Outcome::NoRoom
    }

    /// Returns the neighbor's place in the order, if a neighbor with this MSAP identifier is held.
    fn place(&self, name: &Msap<'_>, tag: u8) -> Option<usize>
        requires { tag ≡ tag_of (msap_view name.now) }
        ensures { MatchOption result (holds_name self.now.shown (msap_view name.now) ≡ false)
            (λ at. slice_get (names_of self.now.shown.neighbors) at ≡ Some (msap_view name.now)) }
    {
        let order = &self.order[..self.used as usize];
        place_of(self.slots.as_slice(), order, &self.tags, name, tag)
    }

    /// Stores a frame and its TTL for the neighbor at this place, which has the frame's identifier.
    /// Tells whether the neighbor's octets changed.
    fn refresh(&mut self, at: usize, octets: &[u8], ttl: u16) -> Outcome
        requires extent { IsExtent (msap_of octets.now) ttl octets.now }
        requires there { slice_get (names_of self.old.shown.neighbors) at ≡ Some (msap_of octets.now) }
        ensures after { self.new.shown
            ≡ learned_as Refreshed self.old.shown (msap_of octets.now) ttl octets.now }
        ensures outcome { result
            ≡ outcome_for self.old.shown (octets_held self.old.shown (msap_of octets.now)) octets.now }
    {
        let slot = self.order[at];
        let same = self.slots.at_mut(slot as usize).store(octets, ttl);
        self.queue.leave(slot);
        self.queue.enter(slot, ttl);
        self.gone = 0;
        if same {
            Outcome::Repeated
        } else {
            Outcome::Changed
        }
    }

    /// Adds a new neighbor with this frame and its TTL after the others. There must be room.
    fn admit(&mut self, octets: &[u8], ttl: u16, tag: u8)
        requires extent { IsExtent (msap_of octets.now) ttl octets.now }
        requires tag { tag ≡ tag_of (msap_of octets.now) }
        requires new { holds_name self.old.shown (msap_of octets.now) ≡ false }
        requires room { length self.old.shown.neighbors < self.old.shown.limit }
        ensures { self.new.shown ≡ learned_as New self.old.shown (msap_of octets.now) ttl octets.now }
    {
        let used = self.used as usize;
        write_next(&mut self.slots, &mut self.order, used);
        let slot = self.order[used];
        self.slots.at_mut(slot as usize).store(octets, ttl);
        self.tags[slot as usize] = tag;
        self.queue.enter(slot, ttl);
        self.used += 1;
        self.gone = 0;
    }

    /// Returns whether the number of neighbors held is below the current limit.
    fn has_room(&self) -> bool
        ensures { result ≡ nat_lt (length self.now.shown.neighbors) self.now.shown.limit }
    {
        self.used < self.limit
    }

    /// Removes the neighbor with this MSAP identifier. Returns whether it was held, that is,
    /// whether it was live.
    pub fn forget(&mut self, msap: &Msap<'_>) -> bool
        ensures answer { result ≡ holds_name self.old.shown (msap_view msap.now) }
        ensures after { self.new.shown ≡ after_forget self.old.shown (msap_view msap.now) }
        ensures answers { ForEachCalls self.old.shown (λ opened calls.
            result ≡ is_some (live (msap_view msap.now) (events_of opened calls))) }
        ensures stands { ForEachCalls self.old.shown (λ opened calls.
            Stands opened (forget (msap_view msap.now) ∷ calls) self.new.shown) }
    {
        match self.place(msap, mix_name(msap)) {
            None => {
                self.gone = 0;
                false
            }
            Some(at) => {
                let slot = self.order.remove(at);
                self.order.push(slot);
                self.used -= 1;
                self.gone = 0;
                self.queue.leave(slot);
                true
            }
        }
    }

    /// Removes all neighbors and ends the too-many timer.
    pub fn purge(&mut self)
        ensures after { self.new.shown ≡ after_purge self.old.shown }
        ensures stands { ForEachCalls self.old.shown (λ opened calls.
            Stands opened (purge ∷ calls) self.new.shown) }
    {
        self.used = 0;
        self.gone = 0;
        self.queue.clear();
        self.too_many = 0;
    }

    /// Processes a tick: a second has passed, so each neighbor and the too-many timer have one tick
    /// less. Returns how many neighbors aged out, that is, were live before and no longer are.
    /// Accesses stored times (reads and writes together) at most 2 times, plus 2 for each neighbor
    /// that aged out. This is inlined into the caller's loop with all that it calls but `expire`,
    /// since most ticks look only at the first neighbor.
    #[inline(always)]
    pub fn tick(&mut self) -> u8
        ensures answer { result + length self.new.shown.neighbors ≡ length self.old.shown.neighbors }
        ensures after { self.new.shown ≡ after_tick self.old.shown }
        // The count of reads and writes of stored times rises by at most 2, plus 2 for each
        // neighbor that aged out.
        ensures accesses { self.new.accesses ≤ self.old.accesses + 2 * result + 2 }
        ensures answers { ForEachCalls self.old.shown (λ opened calls.
            result ≡ aged_out (events_of opened calls)) }
        ensures stands { ForEachCalls self.old.shown (λ opened calls.
            Stands opened (tick ∷ calls) self.new.shown) }
    {
        self.too_many = self.too_many.saturating_sub(1);
        if !self.queue.pass() {
            self.gone = 0;
            return 0;
        }
        let kept = expire(&mut self.queue, &mut self.order, self.used as usize) as u8;
        self.gone = self.used - kept;
        self.used = kept;
        self.gone
    }

    /// Sets the current limit, from 1 to the capacity. It must be at least the number of neighbors
    /// held, so no neighbor is removed.
    pub fn set_limit(&mut self, limit: u8)
        requires least { 0 < limit }
        requires most { limit ≤ self.old.shown.capacity }
        requires held { length self.old.shown.neighbors ≤ limit }
        ensures after { self.new.shown ≡ after_set_limit self.old.shown limit }
        ensures stands { ForEachCalls self.old.shown (λ opened calls.
            Stands opened (set_limit limit ∷ calls) self.new.shown) }
    {
        self.limit = limit;
        self.gone = 0;
    }

    /// Returns how many neighbors are held: at most the limit. Their MSAP identifiers all differ.
    pub fn len(&self) -> u8
        ensures value { result ≡ length self.now.shown.neighbors }
        ensures sound { IsSound self.now.shown }
    {
        self.used
    }

    /// Returns the current limit: how many neighbors may be held now.
    pub fn limit(&self) -> u8
        ensures value { result ≡ self.now.shown.limit }
        ensures sound { IsSound self.now.shown }
    {
        self.limit
    }

    /// Returns the limit given at opening, which no later limit exceeds.
    pub fn capacity(&self) -> u8
        ensures value { result ≡ self.now.shown.capacity }
        ensures sound { IsSound self.now.shown }
    {
        self.slots.capacity() as u8
    }

    /// Returns how many octets are stored for all neighbors together: at most 1,500 for each.
    pub fn octets(&self) -> u32
        ensures sum { result ≡ sum_by (λ neighbor. length neighbor.octets) self.now.shown.neighbors }
        ensures most { result ≤ most_octets * length self.now.shown.neighbors }
    {
        octets_of(self.slots.as_slice(), &self.order[..self.used as usize])
    }

    /// Returns whether the TTL of some frame that was dropped for lack of room is still running.
    pub fn too_many(&self) -> bool
        ensures { IsTrue result ↔ (0 < self.now.shown.too_many_left) }
    {
        self.too_many > 0
    }

    /// Returns the neighbors in the order in which they were last added, each with its remaining
    /// ticks (seconds). Takes time linear in the number of neighbors.
    pub fn entries(&self) -> Entries<'_>
        ensures value { result ≡ self.now.shown.neighbors }
        ensures sound { IsSound self.now.shown }
    {
        Entries {
            slots: self.slots.as_slice(),
            order: &self.order[..self.used as usize],
            ticks: self.queue.lefts(),
        }
    }

    /// Returns the neighbor at place `i` of the order, from 0. Takes time linear in the number of
    /// neighbors; to read all of them, call `entries`.
    pub fn entry(&self, i: u8) -> Entry<'_>
        requires { i < length self.now.shown.neighbors }
        ensures value { slice_get self.now.shown.neighbors i ≡ Some result }
        ensures held { IsHeld result }
        ensures sound { IsSound self.now.shown }
    {
        let slot = self.order[i as usize];
        Entry {
            slot: self.slots.at(slot as usize),
            left: self.queue.left_of(slot),
        }
    }

    /// Returns how many ticks (seconds) are left until the first neighbor ages out, or None if there
    /// is no neighbor.
    pub fn soonest(&self) -> Option<u16>
        ensures { result ≡ least_left self.now.shown.neighbors }
    {
        self.queue.soonest()
    }

    /// Returns how many neighbors aged out at the last call, if that was a tick, and otherwise 0.
    pub fn gone(&self) -> u8
        ensures value { result ≡ length self.now.shown.gone }
        ensures sound { IsSound self.now.shown }
    {
        self.gone
    }

    /// Returns the neighbor at place `i`, from 0, of those that aged out at the last call, in the
    /// order in which they were last added. It is as it was held before, with one tick left.
    pub fn gone_entry(&self, i: u8) -> Entry<'_>
        requires { i < length self.now.shown.gone }
        ensures value { slice_get self.now.shown.gone i ≡ Some result }
        ensures held { IsHeld result }
    {
        let slot = self.order[self.used as usize + i as usize] as usize;
        Entry {
            slot: self.slots.at(slot),
            left: 1,
        }
    }
}
