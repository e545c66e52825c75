//! The bytes of a file before they are written.

ghost use Rattle.std.specs.Prelude.{◌≡◌, ◌≤◌, ◌+◌, [], ◌++◌, ◌↔◌, IsTrue, length};
ghost use Rattle.byteorder.specs.Endian.{big_bytes};

use byteorder::{BigEndian, ByteOrder};
use std::marker::Model;

/// How many bytes a page has.
const PAGE: usize = 4096;

/// Bytes that are put in order until they are written. Contracts see their list.
#[derive(Drop)]
pub(crate) struct Page {
    bytes: [u8; PAGE],
    len: usize,
}

impl Model for Page {
    ghost use Rattle.std.specs.Prelude.{ℕ, List, ◌≤◌, take};

    ghost Value = { List ℕ };

    ghost view = { λ page. take page.len page.bytes };

    ghost invariant = { λ page. page.len ≤ 4096 };
}

impl Page {
    /// No bytes.
    pub(crate) fn new() -> Page
        ensures { result ≡ [] }
    {
        Page {
            bytes: [0; PAGE],
            len: 0,
        }
    }

    /// The bytes in order.
    pub(crate) fn as_slice(&self) -> &[u8]
        ensures { result.now ≡ self.now }
    {
        &self.bytes[..self.len]
    }

    /// Takes all bytes off the page.
    pub(crate) fn clear(&mut self)
        ensures { self.new ≡ [] }
    {
        self.len = 0;
    }

    /// Whether the longest entry finds room on the page.
    pub(crate) fn has_room(&self) -> bool
        ensures { IsTrue result ↔ (length self.now + 15 ≤ 4096) }
    {
        self.len + LONGEST_ENTRY <= PAGE
    }

    /// Puts a number of 8 bits behind the others.
    pub(crate) fn byte(&mut self, n: u8)
        requires { length self.old + 1 ≤ 4096 }
        ensures bytes { self.new ≡ self.old ++ big_bytes 1 n }
        ensures longer { length self.new ≡ length self.old + 1 }
    {
        self.bytes[self.len] = n;
        self.len += 1;
    }

    /// Puts a number of 16 bits behind the others.
    pub(crate) fn half(&mut self, n: u16)
        requires { length self.old + 2 ≤ 4096 }
        ensures bytes { self.new ≡ self.old ++ big_bytes 2 n }
        ensures longer { length self.new ≡ length self.old + 2 }
    {
        BigEndian::write_u16(&mut self.bytes[self.len..], n);
        self.len += 2;
    }

    /// Puts a number of 32 bits behind the others.
    pub(crate) fn short(&mut self, n: u32)
        requires { length self.old + 4 ≤ 4096 }
        ensures bytes { self.new ≡ self.old ++ big_bytes 4 n }
        ensures longer { length self.new ≡ length self.old + 4 }
    {
        BigEndian::write_u32(&mut self.bytes[self.len..], n);
        self.len += 4;
    }

    /// Puts a number of 64 bits behind the others.
    pub(crate) fn long(&mut self, n: u64)
        requires { length self.old + 8 ≤ 4096 }
        ensures bytes { self.new ≡ self.old ++ big_bytes 8 n }
        ensures longer { length self.new ≡ length self.old + 8 }
    {
        BigEndian::write_u64(&mut self.bytes[self.len..], n);
        self.len += 8;
    }
}

/// The length of a store, in bytes: the longest entry.
const LONGEST_ENTRY: usize = 15;
