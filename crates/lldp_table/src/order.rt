//! The order of a table's slots, those in use first, and the functions that search or change it.
ghost use Rattle.std.specs.Prelude.{◌≡◌, ◌≤◌, ◌<◌, ◌+◌, ◌*◌, ◌-◌, ◌++◌, true, false, List, length, take, map, MatchOption, not, slice_index, slice_index_or, sum_by, IsPermutation, nat_eq};
ghost use Rattle.std.specs.List.{list_any, filter, filter_map, AllByRecursion, IsDistinct};
ghost use Rattle.lldp_pdu.specs.View.{msap_view};
ghost use Rattle.lldp_table.specs.Code.Stored.{Stored, tag_of};
ghost use Rattle.lldp_table.specs.Msap.{same_msap};
ghost use Rattle.lldp_table.specs.Code.Ageing.{Aged};
ghost use Rattle.lldp_table.specs.Code.Queue.{Due, less_first, is_spent, IsTimed};
ghost use Rattle.memchr.specs.Find.{Nowhere, IsFirst};
ghost use Rattle.lldp_table.specs.Code.Tags.{IsTagged};
ghost use Rattle.lldp_table.specs.Code.Marks.{has_mark, parted};
ghost use Rattle.lldp_table.specs.Code.Layout.{blank, msap_at, octets_at, neighbors_at, gone_at, with_next};

use crate::limits::MOST_NEIGHBORS;
use crate::queue::Queue;
use crate::room::Room;
use crate::slot::Slot;
use arrayvec::ArrayVec;
use lldp_pdu::{MOST_OCTETS, Msap};
use memchr::memchr;
use std::alloc::Allocator;

/// Returns the place of `slot` in `order`. A slot that was never moved is at the place of its index.
fn place_in(order: &[u8], slot: usize) -> Option<usize>
    requires { slot < MOST_NEIGHBORS }
    ensures { MatchOption result
        (Nowhere (λ k. slice_index order.now k ≡ slot) 0 (length order.now))
        (λ at. (at < length order.now) × (slice_index order.now at ≡ slot)) }
{
    if slot < order.len() && usize::from(order[slot]) == slot {
        return Some(slot);
    }
    memchr(slot as u8, order)
}

/// Returns the first slot with this tag, from `from` on and before `end`.
fn find_tag(tags: &[u8], tag: u8, from: usize, end: usize) -> Option<usize>
    requires least { from ≤ end }
    requires most { end ≤ length tags.now }
    ensures { IsFirst (λ i. slice_index tags.now i ≡ tag) from end result }
{
    match memchr(tag, &tags[from..end]) {
        Some(ahead) => Some(from + ahead),
        None => None,
    }
}

/// Returns the place in `order` of the slot with the MSAP identifier `name`, whose tag is `tag`.
pub(crate) fn place_of(
    slots: &[Slot],
    order: &[u8],
    tags: &[u8],
    name: &Msap<'_>,
    tag: u8,
) -> Option<usize>
    requires tag { tag ≡ tag_of (msap_view name.now) }
    requires tagged { IsTagged tags.now slots.now }
    requires few { length slots.now ≤ MOST_NEIGHBORS }
    requires within { AllByRecursion (λ i. i < length slots.now) order.now }
    ensures { MatchOption result
        (list_any (same_msap (msap_view name.now)) (map (msap_at slots.now) order.now) ≡ false)
        (λ at. (at < length order.now)
        × (same_msap (msap_view name.now) (msap_at slots.now (slice_index_or order.now at 0))
        ≡ true)) }
{
    let mut from = 0;
    'tagged: while let Some(slot) = find_tag(tags, tag, from, slots.len()) {
        if slots[slot].is_named(name) {
            if let Some(at) = place_in(order, slot) {
                return Some(at);
            }
        }
        from = slot + 1;
    }
    None
}

/// Creates one more slot if all existing slots are in use. Opening allocated the memory for it.
pub(crate) fn write_next<A: Allocator>(
    slots: &mut Room<Slot, A>,
    order: &mut ArrayVec<u8, MOST_NEIGHBORS>,
    used: usize,
)
    requires same { length order.old.items ≡ length slots.old.items }
    requires fits { used ≤ length slots.old.items }
    requires room { used < slots.old.capacity }
    requires few { used < MOST_NEIGHBORS }
    ensures slots { slots.new.items ≡ with_next used blank slots.old.items }
    ensures order { order.new.items ≡ with_next used used order.old.items }
    ensures room { slots.new.capacity ≡ slots.old.capacity }
{
    if slots.len() == used {
        slots.push(Slot::blank());
        order.push(used as u8);
    }
}

/// Returns the slots without a mark, in their order.
fn unmarked(slots: &[u8], marks: &[bool; 256]) -> ArrayVec<u8, MOST_NEIGHBORS>
    requires { length slots.now ≤ MOST_NEIGHBORS }
    ensures { result.items ≡ filter (λ i. not (has_mark marks.now i)) slots.now }
{
    let mut found = ArrayVec::new();
    for slot in slots {
        if !marks[*slot as usize] {
            found.push(*slot);
        }
    }
    found
}

/// Returns the slots with a mark, in their order.
fn marked(slots: &[u8], marks: &[bool; 256]) -> ArrayVec<u8, MOST_NEIGHBORS>
    requires { length slots.now ≤ MOST_NEIGHBORS }
    ensures { result.items ≡ filter (has_mark marks.now) slots.now }
{
    let mut found = ArrayVec::new();
    for slot in slots {
        if marks[*slot as usize] {
            found.push(*slot);
        }
    }
    found
}

/// Appends these slots to an order. There must be room for them.
fn append(order: &mut ArrayVec<u8, MOST_NEIGHBORS>, slots: &[u8])
    requires { length order.old.items + length slots.now ≤ MOST_NEIGHBORS }
    ensures { order.new.items ≡ order.old.items ++ slots.now }
{
    let _ = order.try_extend_from_slice(slots);
}

/// Moves the marked slots among those in use behind the others. Each part keeps its order. Returns
/// how many slots in use have no mark.
fn part(order: &mut ArrayVec<u8, MOST_NEIGHBORS>, used: usize, marks: &[bool; 256]) -> usize
    requires { used ≤ length order.old.items }
    ensures kept { result
        ≡ length (filter (λ i. not (has_mark marks.now i)) (take used order.old.items)) }
    ensures order { order.new.items ≡ parted (has_mark marks.now) used order.old.items }
{
    let mut parts = unmarked(&order[..used], marks);
    let kept = parts.len();
    append(&mut parts, &marked(&order[..used], marks));
    append(&mut parts, &order[used..]);
    *order = parts;
    kept
}

/// Removes from the queue the slots that are spent, of which there is at least one, and moves them
/// behind those still in use. Returns how many slots are still in use. Most ticks do not need this.
#[inline(never)]
pub(crate) fn expire(
    queue: &mut Queue,
    order: &mut ArrayVec<u8, MOST_NEIGHBORS>,
    used: usize,
) -> usize
    requires spent { is_spent queue.old.shown ≡ true }
    requires distinct { IsDistinct nat_eq order.old.items }
    requires used { used ≤ length order.old.items }
    ensures aged { (before : List Due) → queue.old.shown ≡ less_first 1 before →
        IsTimed before (take used order.old.items) →
        Aged before queue.new.shown order.old.items order.new.items used result }
    ensures counted { queue.new.accesses + length queue.new.shown
        ≤ queue.old.accesses + length queue.old.shown }
{
    let mut marks = [false; 256];
    let mut spent = true;
    while spent {
        let slot = queue.pop();
        marks[slot as usize] = true;
        spent = queue.is_spent();
    }
    part(order, used, &marks)
}

/// Returns how many octets the slots in `order` store together.
pub(crate) fn octets_of(slots: &[Slot], order: &[u8]) -> u32
    requires within { AllByRecursion (λ i. i < length slots.now) order.now }
    requires few { length order.now ≤ MOST_NEIGHBORS }
    ensures sum { result ≡ sum_by (λ i. length (octets_at slots.now i)) order.now }
    ensures most { result ≤ MOST_OCTETS * length order.now }
{
    let mut octets = 0;
    for slot in order {
        octets += slots[*slot as usize].octets().len() as u32;
    }
    octets
}
