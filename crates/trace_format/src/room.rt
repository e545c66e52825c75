//! Room for the bytes of an item.

ghost use Rattle.std.specs.Prelude.{◌≡◌, ◌≤◌, ◌+◌, ◌++◌, [], length};

use std::marker::Model;

/// The most bytes of an item: those of a parallel_begin, a task_create or a work.
pub const LONGEST_ITEM: usize = 60;

/// The bytes of an item that have come. Contracts see them.
#[derive(Drop)]
pub struct Room {
    /// The bytes, and what lies behind them.
    bytes: [u8; LONGEST_ITEM],
    /// How many there are.
    filled: usize,
}

impl Model for Room {
    ghost use Rattle.std.specs.Prelude.{◌≤◌, ℕ, List, take};

    ghost Value = { List ℕ };

    ghost view = { λ room. take room.filled room.bytes };

    ghost invariant = { λ room. room.filled ≤ 60 };
}

impl Room {
    /// No bytes.
    pub fn new() -> Room
        ensures { result ≡ [] }
    {
        Room {
            bytes: [0; LONGEST_ITEM],
            filled: 0,
        }
    }

    /// The bytes.
    pub fn as_slice(&self) -> &[u8]
        ensures { result.now ≡ self.now }
    {
        &self.bytes[..self.filled]
    }

    /// How many bytes there are.
    pub fn len(&self) -> usize
        ensures { result ≡ length self.now }
    {
        self.filled
    }

    /// More bytes come.
    pub fn add(&mut self, more: &[u8])
        requires { length self.old + length more.now ≤ LONGEST_ITEM }
        ensures { self.new ≡ self.old ++ more.now }
    {
        let end = self.filled + more.len();
        self.bytes[self.filled..end].copy_from_slice(more);
        self.filled = end;
    }

    /// The item is over, and none has begun.
    pub fn clear(&mut self)
        ensures { self.new ≡ [] }
    {
        self.filled = 0;
    }
}
