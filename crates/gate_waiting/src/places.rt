ghost use Rattle.std.specs.Prelude.{◌≡◌, ◌<◌, ◌++◌, ◌∷◌, [], length, slice_index_or, IfOk};
ghost use Rattle.std.specs.List.{remove};

use crate::guest::Guest;
use std::alloc::{AllocError, Global};
use std::marker::Model;

/// How many connections are waited for or ready at once, at most.
pub const MOST: usize = 256;

// Up to 256 items in an order, for which there is memory from the start. A contract sees them as their list.
#[derive(Drop)]
pub(crate) struct Places<T> {
    items: Vec<T>,
}

impl<T> Model for Places<T> {
    ghost use Rattle.std.specs.Prelude.{◌≤◌, List};
    ghost use Rattle.std.specs.Vec.{vec_capacity};

    ghost Value = { List T };

    ghost view = { λ places. places.items.items };

    ghost invariant = { λ places. 256 ≤ vec_capacity places.items };
}

impl<T: Drop> Places<T> {
    // No items. `AllocError` if there is no memory for 256.
    pub(crate) fn new(alloc: Global) -> Result<Places<T>, AllocError>
        ensures value { IfOk result (λ places. places ≡ []) }
    {
        Ok(Places {
            items: Vec::with_capacity(alloc, MOST)?,
        })
    }

    pub(crate) fn len(&self) -> usize
        ensures value { result ≡ length self.now }
    {
        self.items.len()
    }

    pub(crate) fn as_slice(&self) -> &[T]
        ensures value { result.now ≡ self.now }
    {
        self.items.as_slice()
    }

    // Adds an item behind the others.
    pub(crate) fn add(&mut self, item: T)
        requires { length self.old < 256 }
        ensures value { self.new ≡ self.old ++ item ∷ [] }
    {
        self.items.push_reserved(item);
    }

    // Takes out the item at a place.
    pub(crate) fn remove(&mut self, place: usize) -> T
        requires { place < length self.old }
        ensures value { result ≡ slice_index_or self.old place result }
        ensures rest { self.new ≡ remove self.old place }
    {
        self.items.remove(place)
    }
}

impl Places<Guest> {
    // Makes room for so many bytes more of the connection at a place, and tells whether there is memory for them.
    pub(crate) fn make_room(&mut self, place: usize, more: usize) -> bool
        requires { place < length self.old }
        ensures same { self.new ≡ self.old }
    {
        let guest = &mut self.items[place];
        guest.bytes.make_room(more).is_ok()
    }
}
