//! A list with a fixed capacity, whose memory is allocated when it is opened.
ghost use Rattle.std.specs.Prelude.{◌≡◌, ◌<◌, [], ◌∷◌, ◌++◌, length, slice_index_or, IfOk};
ghost use Rattle.std.specs.Borrow.{sem};
ghost use Rattle.lldp_table.specs.Code.Lent.{LendsItem, LendsItems};

use std::alloc::{AllocError, Allocator};
use std::marker::Model;

/// A list with a fixed capacity. `open` allocates the memory for all items, and no other call
/// allocates any. No call gives access to the allocator, or to the `Vec` that has it, so a room
/// cannot be used to allocate memory.
#[derive(Drop)]
pub struct Room<T, A: Allocator> {
    items: Vec<T, A>,
}

impl<T, A: Allocator> Model for Room<T, A> {
    ghost use Rattle.std.specs.Prelude.{vec_capacity};
    ghost use Rattle.lldp_table.specs.Code.Room.{Reserved};

    ghost Value = { Reserved T };

    ghost view = { λ r. record { items = r.items.items; capacity = vec_capacity r.items } };
}

impl<T, A: Allocator> Room<T, A> {
    /// Returns an empty room with memory for this many items. Fails if there is not enough memory.
    pub fn open(alloc: A, capacity: usize) -> Result<Room<T, A>, AllocError>
        ensures items { IfOk result (λ room. room.items ≡ []) }
        ensures capacity { IfOk result (λ room. room.capacity ≡ capacity) }
    {
        Ok(Room {
            items: Vec::with_capacity(alloc, capacity)?,
        })
    }

    /// Returns how many items there are.
    pub fn len(&self) -> usize
        ensures { result ≡ length self.now.items }
    {
        self.items.len()
    }

    /// Returns how many items there is room for.
    pub fn capacity(&self) -> usize
        ensures { result ≡ self.now.capacity }
    {
        self.items.capacity()
    }

    /// Returns the items, in the order in which they were pushed.
    pub fn as_slice(&self) -> &[T]
        ensures { result.now ≡ self.now.items }
    {
        self.items.as_slice()
    }

    /// Returns the item at this index, from 0.
    pub fn at(&self, i: usize) -> &T
        requires { i < length self.now.items }
        ensures { result.now ≡ slice_index_or self.now.items i result.now }
    {
        &self.items[i]
    }

    /// Returns a mutable reference to the item at index `i`, from 0. Nothing else changes.
    pub fn at_mut(&mut self, i: usize) -> &mut T
        requires { i < length self.old.items }
        ensures* lent { sem 𝓛 (LendsItem T.row A.row A.Allocator self.entry i result) }
        ensures value { result.now ≡ slice_index_or self.old.items i result.now }
    {
        &mut self.items[i]
    }

    /// Returns the items as a mutable slice. Nothing else in the room changes.
    pub fn as_mut_slice(&mut self) -> &mut [T]
        ensures* lent { sem 𝓛 (LendsItems T.row A.row A.Allocator self.entry result) }
        ensures value { result.now ≡ self.old.items }
    {
        self.items.as_mut_slice()
    }

    /// Adds an item after the others. There must be room for it.
    pub fn push(&mut self, item: T)
        requires { length self.old.items < self.old.capacity }
        ensures items { self.new.items ≡ self.old.items ++ item ∷ [] }
        ensures capacity { self.new.capacity ≡ self.old.capacity }
    {
        self.items.push_reserved(item);
    }
}
