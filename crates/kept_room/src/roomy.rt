//! A list with room kept for more.

ghost use Rattle.std.specs.Prelude.{◌≡◌, ◌+◌, ◌<◌, ◌≤◌, [], ◌∷◌, ◌++◌, length, max, take, OnErr, OnOk};

use std::alloc::{AllocError, Global};
use std::marker::Model;

/// A list with room kept for more. Contracts see the list, and how many more are taken without memory.
#[derive(Drop)]
pub struct Roomy<T: Copy + Drop> {
    items: Vec<T>,
    /// So many more are taken without memory.
    free: usize,
}

impl<T: Copy + Drop> Model for Roomy<T> {
    ghost use Rattle.std.specs.Prelude.{◌+◌, ◌≤◌, vec_len, vec_capacity};
    ghost use Rattle.kept_room.specs.Roomy.{RoomyList};

    ghost Value = { RoomyList T };

    ghost view = { λ roomy. record { list = roomy.items.items; free = roomy.free } };

    ghost invariant = { λ roomy. vec_len roomy.items + roomy.free ≤ vec_capacity roomy.items };
}

impl<T: Copy + Drop> Roomy<T> {
    /// No items, and no room.
    pub fn new(alloc: Global) -> Roomy<T>
        ensures { result ≡ record { list = []; free = 0 } }
    {
        Roomy {
            items: Vec::new(alloc),
            free: 0,
        }
    }

    /// How many items there are.
    #[inline(always)]
    pub fn len(&self) -> usize
        ensures { result ≡ length self.now.list }
    {
        self.items.len()
    }

    /// The items, in order.
    #[inline(always)]
    pub fn items(&self) -> &[T]
        ensures { result.now ≡ self.now.list }
    {
        &self.items
    }

    /// Adds an item at the end.
    #[inline(always)]
    pub fn push(&mut self, item: T)
        requires { 0 < self.old.free }
        ensures list { self.new.list ≡ self.old.list ++ item ∷ [] }
        ensures free { self.new.free + 1 ≡ self.old.free }
    {
        self.free -= 1;
        self.items.push_reserved(item);
    }

    /// Adds items at the end.
    pub fn extend(&mut self, items: &[T])
        requires { length items.now ≤ self.old.free }
        ensures list { self.new.list ≡ self.old.list ++ items.now }
        ensures free { self.new.free + length items.now ≡ self.old.free }
    {
        self.free -= items.len();
        self.items.extend_from_slice(items).unwrap();
    }

    /// The first items stay, so many. What goes leaves its room.
    #[inline(always)]
    pub fn truncate(&mut self, count: usize)
        ensures list { self.new.list ≡ take count self.old.list }
        ensures free { self.new.free + length self.new.list ≡ self.old.free + length self.old.list }
    {
        let before = self.items.len();
        self.items.truncate(count);
        self.free += before - self.items.len();
    }

    /// Makes room for at least so many more items. Without memory nothing changes.
    pub fn reserve(&mut self, room: usize) -> Result<(), AllocError>
        ensures room { OnOk result (self.new ≡ record self.old { free = max self.old.free room }) }
        ensures memory { OnErr result (self.new ≡ self.old) }
    {
        self.items.reserve(room)?;
        self.free = self.free.max(room);
        Ok(())
    }

    /// The items alone.
    pub fn into_items(self) -> Vec<T>
        ensures { result.items ≡ self.list }
    {
        self.items
    }
}
