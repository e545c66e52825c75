//! The arguments of a callback, one after the other.

ghost use Rattle.std.specs.Prelude.{◌≡◌, [], ◌∷◌, Some};
ghost use Rattle.ompt_calls.specs.Line.{argument_text};

use crate::call::{Frame, Word};
use std::fmt;
use std::fmt::{Display, Formatter};
use std::marker::Model;

/// An argument of a callback.
#[derive(Clone, Copy, PartialEq, Eq)]
pub enum Argument {
    /// A number of 32 bits.
    Short(u32),
    /// A number of 64 bits.
    Long(u64),
    /// A data word.
    Word(Word),
    /// A frame.
    Frame(Frame),
}

/// As a line has it.
impl Display for Argument {
    ghost output = { λ a. Some (argument_text a) };

    fn fmt<W: fmt::Write>(&self, f: &mut Formatter<W>) -> fmt::Result {
        match self {
            Argument::Short(number) => write!(f, "{number}"),
            Argument::Long(number) => write!(f, "{number}"),
            Argument::Word(word) => write!(f, "{word}"),
            Argument::Frame(frame) => write!(f, "{frame}"),
        }
    }
}

/// The arguments of a callback in the order of the specification (OpenMP 5.2, 19.5.2), six at most. Contracts see them as their list.
#[derive(Drop)]
pub struct Arguments {
    /// They stand in front, and the others are blank.
    items: [Argument; 6],
    count: usize,
}

impl Model for Arguments {
    ghost use Rattle.std.specs.Prelude.{List, take, ◌≤◌};
    ghost use Rattle.ompt_calls.specs.declared.argument.Argument.{Argument};

    ghost Value = { List Argument };

    ghost view = { λ arguments. take arguments.count arguments.items };

    ghost invariant = { λ arguments. arguments.count ≤ 6 };
}

/// What stands behind the last argument.
const BLANK: Argument = Argument::Short(0);

impl Arguments {
    /// They in order.
    pub fn as_slice(&self) -> &[Argument]
        ensures { result.now ≡ self.now }
    {
        &self.items[..self.count]
    }

    /// One argument.
    pub(crate) fn one(a: Argument) -> Arguments
        ensures { result ≡ a ∷ [] }
    {
        Arguments {
            items: [a, BLANK, BLANK, BLANK, BLANK, BLANK],
            count: 1,
        }
    }

    /// Two arguments.
    pub(crate) fn two(a: Argument, b: Argument) -> Arguments
        ensures { result ≡ a ∷ b ∷ [] }
    {
        Arguments {
            items: [a, b, BLANK, BLANK, BLANK, BLANK],
            count: 2,
        }
    }

    /// Three arguments.
    pub(crate) fn three(a: Argument, b: Argument, c: Argument) -> Arguments
        ensures { result ≡ a ∷ b ∷ c ∷ [] }
    {
        Arguments {
            items: [a, b, c, BLANK, BLANK, BLANK],
            count: 3,
        }
    }

    /// Four arguments.
    pub(crate) fn four(a: Argument, b: Argument, c: Argument, d: Argument) -> Arguments
        ensures { result ≡ a ∷ b ∷ c ∷ d ∷ [] }
    {
        Arguments {
            items: [a, b, c, d, BLANK, BLANK],
            count: 4,
        }
    }

    /// Five arguments.
    pub(crate) fn five(a: Argument, b: Argument, c: Argument, d: Argument, e: Argument) -> Arguments
        ensures { result ≡ a ∷ b ∷ c ∷ d ∷ e ∷ [] }
    {
        Arguments {
            items: [a, b, c, d, e, BLANK],
            count: 5,
        }
    }

    /// Six arguments.
    pub(crate) fn six(items: [Argument; 6]) -> Arguments
        ensures { result ≡ items }
    {
        Arguments { items, count: 6 }
    }
}
