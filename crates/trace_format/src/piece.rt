//! The bytes of an item before they are written.

ghost use Rattle.std.specs.Prelude.{◌≡◌, ◌≤◌, ◌+◌, [], ◌++◌, length};
ghost use Rattle.byteorder.specs.Endian.{big_bytes};
ghost use Rattle.trace_format.specs.Fields.{frame, spell, word};
ghost use Rattle.trace_format.specs.Fitting.{FitsArgument, FitsWord};
ghost use Rattle.trace_format.specs.Validity.{IsFrame};

use crate::room::LONGEST_ITEM;
use byteorder::{BigEndian, ByteOrder};
use ompt_calls::{Argument, Frame, Word};
use std::marker::Model;

/// Bytes that are put in order until they are written. Contracts see their list.
#[derive(Drop)]
pub(crate) struct Piece {
    bytes: [u8; LONGEST_ITEM],
    len: usize,
}

impl Model for Piece {
    ghost use Rattle.std.specs.Prelude.{ℕ, List, ◌≤◌, take};

    ghost Value = { List ℕ };

    ghost view = { λ piece. take piece.len piece.bytes };

    ghost invariant = { λ piece. piece.len ≤ 60 };
}

impl Piece {
    /// No bytes.
    pub(crate) fn new() -> Piece
        ensures { result ≡ [] }
    {
        Piece {
            bytes: [0; LONGEST_ITEM],
            len: 0,
        }
    }

    /// The bytes in order.
    pub(crate) fn as_slice(&self) -> &[u8]
        ensures { result.now ≡ self.now }
    {
        &self.bytes[..self.len]
    }

    /// Puts a number of 8 bits behind the others.
    pub(crate) fn byte(&mut self, n: u8)
        requires { length self.old + 1 ≤ 60 }
        ensures bytes { self.new ≡ self.old ++ big_bytes 1 n }
        ensures longer { length self.new ≡ length self.old + 1 }
    {
        self.bytes[self.len] = n;
        self.len += 1;
    }

    /// Puts a number of 16 bits behind the others.
    pub(crate) fn half(&mut self, n: u16)
        requires { length self.old + 2 ≤ 60 }
        ensures bytes { self.new ≡ self.old ++ big_bytes 2 n }
        ensures longer { length self.new ≡ length self.old + 2 }
    {
        BigEndian::write_u16(&mut self.bytes[self.len..], n);
        self.len += 2;
    }

    /// Puts a number of 32 bits behind the others.
    pub(crate) fn short(&mut self, n: u32)
        requires { length self.old + 4 ≤ 60 }
        ensures bytes { self.new ≡ self.old ++ big_bytes 4 n }
        ensures longer { length self.new ≡ length self.old + 4 }
    {
        BigEndian::write_u32(&mut self.bytes[self.len..], n);
        self.len += 4;
    }

    /// Puts a number of 64 bits behind the others.
    pub(crate) fn long(&mut self, n: u64)
        requires { length self.old + 8 ≤ 60 }
        ensures bytes { self.new ≡ self.old ++ big_bytes 8 n }
        ensures longer { length self.new ≡ length self.old + 8 }
    {
        BigEndian::write_u64(&mut self.bytes[self.len..], n);
        self.len += 8;
    }

    /// Puts a data word behind the others.
    pub(crate) fn word(&mut self, data_word: &Word)
        requires { length self.old + 12 ≤ 60 }
        ensures bytes { self.new ≡ self.old ++ word data_word.now }
        ensures longer { length self.new ≡ length self.old + 12 }
        ensures fits { FitsWord data_word.now }
    {
        self.short(data_word.identity);
        self.long(data_word.value);
    }

    /// Puts a frame behind the others.
    pub(crate) fn frame(&mut self, of_task: &Frame)
        requires { length self.old + 8 ≤ 60 }
        ensures bytes { self.new ≡ self.old ++ frame of_task.now }
        ensures longer { length self.new ≡ length self.old + 8 }
        ensures fits { IsFrame of_task.now }
    {
        self.short(of_task.exit);
        self.short(of_task.enter);
    }
    /// Puts an argument of a callback behind the others.
    pub(crate) fn argument(&mut self, argument: &Argument)
        requires { length self.old + length (spell argument.now) ≤ 60 }
        ensures bytes { self.new ≡ self.old ++ spell argument.now }
        ensures fits { FitsArgument argument.now }
    {
        match argument {
            Argument::Short(n) => self.short(*n),
            Argument::Long(n) => self.long(*n),
            Argument::Word(data_word) => self.word(data_word),
            Argument::Frame(of_task) => self.frame(of_task),
        }
    }
}
