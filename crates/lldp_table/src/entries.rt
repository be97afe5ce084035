//! An iterator over the neighbors of a table.
ghost use Rattle.std.specs.Prelude.{◌≡◌, drop};
ghost use Rattle.std.specs.Iterator.{YieldsFirst, item_count};

use crate::entry::Entry;
use crate::limits::MOST_NEIGHBORS;
use crate::slot::Slot;
use std::marker::Model;

/// An iterator over the neighbors of a table, in the table's order.
#[derive(Drop)]
pub struct Entries<'a> {
    pub(crate) slots: &'a [Slot],
    /// The indices of the slots whose neighbors have not been returned yet.
    pub(crate) order: &'a [u8],
    /// The remaining ticks of each slot.
    pub(crate) ticks: [u16; MOST_NEIGHBORS],
}

impl<'a> Model for Entries<'a> {
    ghost use Rattle.std.specs.Prelude.{List, slice_index};
    ghost use Rattle.lldp_table.specs.Events.{Neighbor};
    ghost use Rattle.lldp_table.specs.Code.Layout.{neighbors_at, AreEntries};

    ghost Value = { List Neighbor };

    ghost view = { λ e. neighbors_at e.slots.now (slice_index e.ticks) e.order.now };

    ghost invariant = { λ e. AreEntries e.slots.now (slice_index e.ticks) e.order.now };
}

impl<'a> Entries<'a> {
    /// Passes over the next `count` neighbors, or over all if there are fewer.
    pub fn pass(&mut self, count: u8)
        ensures { self.new ≡ drop count self.old }
    {
        let count = usize::from(count).min(self.order.len());
        self.order = &self.order[count..];
    }
}

impl<'a> Iterator for Entries<'a> {
    type Item = Entry<'a>;

    ghost next_gives = { YieldsFirst (λ entries. entries) };

    ghost remaining = { item_count (λ entries. entries) };

    fn next(&mut self) -> Option<Entry<'a>> {
        let (index, others) = self.order.split_first()?;
        self.order = others;
        let slot = *index as usize;
        Some(Entry {
            slot: &self.slots[slot],
            left: self.ticks[slot],
        })
    }
}
