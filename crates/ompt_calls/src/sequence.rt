//! Vectors that contracts see as their lists.

ghost use Rattle.std.specs.Prelude.{◌≡◌, ◌<◌, ◌^◌, length, slice_get};
ghost use Rattle.std.specs.Iterator.Adapters.{IterYieldsInOrder};
ghost use Rattle.std.specs.Slice.Iter.{iter_rest};

use std::marker::Model;
use std::slice;

/// A vector that contracts see as the list of its items. So two values that hold such vectors are one where their items are the same.
#[derive(Drop)]
pub struct Sequence<T>(pub Vec<T>);

impl<T> Model for Sequence<T> {
    ghost use Rattle.std.specs.Prelude.{List};

    ghost Value = { List T };

    ghost view = { λ sequence. sequence.0.items };
}

impl<T> Sequence<T> {
    /// The items in turn.
    pub fn iter(&self) -> slice::Iter<'_, T>
        ensures items { iter_rest result ≡ self.now }
        ensures bound { length (iter_rest result) < 2 ^ 64 }
        ensures runs { IterYieldsInOrder T }
    {
        self.0.iter()
    }

    /// The items as a slice.
    pub fn as_slice(&self) -> &[T]
        ensures { result.now ≡ self.now }
    {
        self.0.as_slice()
    }

    /// How many items there are.
    pub fn len(&self) -> usize
        ensures { result ≡ length self.now }
    {
        self.0.len()
    }
}

impl<T: Copy> Sequence<T> {
    /// The item at this place, counted from 0.
    pub(crate) fn get(&self, place: u32) -> Option<T>
        ensures { result ≡ slice_get self.now place }
    {
        self.0.get(place as usize).copied()
    }
}
