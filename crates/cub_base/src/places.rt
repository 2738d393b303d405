//! Renamings and other short lists of places. A cube of the search has at most eleven places, so twelve fit inline
//! and no call here but the first needs an allocator; the model keeps that the list never leaves the value.

ghost use Rattle.std.specs.Prelude.{◌≡◌, [], ◌∷◌, ◌++◌, ◌<◌, ◌≤◌, ◌↔◌, length, take, slice_get, IsTrue, OnSome, MatchOption, Contains};
ghost use Rattle.std.specs.Option.{option_copied};

use smallvec::SmallVec;
use std::alloc::Global;
use std::marker::Model;

/// Up to twelve numbers of places, inline.
#[derive(Debug, Drop)]
pub struct Places {
    items: SmallVec<u8, 12>,
}

impl Model for Places {
    ghost use Rattle.std.specs.Prelude.{List, ℕ, ◌≡◌, ◌≤◌, length};
    ghost use Rattle.std.specs.Coded.{coded_list, coded_ℕ};

    ghost Value = { List ℕ };

    ghost coded = { coded_list coded_ℕ };

    ghost view = { λ places. places.items.items };

    ghost invariant = { λ places. (places.items.capacity ≡ 12) × (length places.items.items ≤ 12) };
}

impl Places {
    /// No places. It takes no memory, nor does any other call.
    pub fn new(alloc: Global) -> Places
        ensures { result ≡ [] }
    {
        Places {
            items: SmallVec::new(alloc),
        }
    }

    /// Where further lists may be made.
    pub fn allocator(&self) -> Global {
        *self.items.allocator()
    }

    /// The places.
    pub fn as_slice(&self) -> &[u8]
        ensures value { result.now ≡ self.now }
        ensures few { length self.now ≤ 12 }
    {
        self.items.as_slice()
    }

    /// The number of places, at most 12.
    pub fn len(&self) -> usize
        ensures value { result ≡ length self.now }
        ensures few { result ≤ 12 }
    {
        self.items.as_slice().len()
    }

    /// Whether there are none.
    pub fn is_empty(&self) -> bool
        ensures { IsTrue result ↔ (self.now ≡ []) }
    {
        self.items.as_slice().is_empty()
    }

    /// The place with that number, if there is one.
    pub fn get(&self, at: usize) -> Option<u8>
        ensures value { result ≡ slice_get self.now at }
    {
        self.items.as_slice().get(at).copied()
    }

    /// Whether the place stands in the list.
    pub fn contains(&self, place: u8) -> bool
        ensures { IsTrue result ↔ Contains self.now place }
    {
        self.items.as_slice().contains(&place)
    }

    /// Appends a place; there must be fewer than 12.
    pub fn push(&mut self, place: u8)
        requires { length self.old < 12 }
        ensures { self.new ≡ self.old ++ place ∷ [] }
    {
        self.items.push_reserved(place);
    }

    /// Takes the last place off, if there is one.
    pub fn pop(&mut self) -> Option<u8>
        ensures { MatchOption result ((self.old ≡ []) × (self.new ≡ [])) (λ last. self.old ≡ self.new ++ last ∷ []) }
    {
        self.items.pop()
    }

    /// Keeps the first `len` places.
    pub fn truncate(&mut self, len: usize)
        ensures { self.new ≡ take len self.old }
    {
        self.items.truncate(len);
    }

    /// An equal list.
    pub fn copy(&self) -> Places
        ensures { result ≡ self.now }
    {
        let mut copy = Places::new(self.allocator());
        for place in self.as_slice() {
            copy.push(*place);
        }
        copy
    }
}
