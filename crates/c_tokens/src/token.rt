//! Tokens, their places, and the faults of a text. `number` and `spot` of faults are tables, a row a fault.

ghost use Rattle.std.specs.Prelude.{◌≡◌};
ghost use Rattle.c_tokens.specs.language.Faults.{fault_number, fault_spot};

use thiserror::Error;

/// A place in a text. Both numbers count from 1, and a column counts bytes.
#[derive(Clone, Copy, Debug, PartialEq, Eq)]
pub struct Spot {
    /// The line: lines end with a newline.
    pub line: u32,
    /// The column of the byte in its line.
    pub column: u32,
}

/// The place of what stands nowhere in a text.
pub const NOWHERE: Spot = Spot { line: 0, column: 0 };

/// What a token is.
#[derive(Clone, Copy, Debug, PartialEq, Eq)]
pub enum TokenKind {
    /// A letter or `_`, and the letters, digits and `_` that follow.
    Name,
    /// `0`, or digits that don't begin with 0, up to 2147483647.
    Number,
    /// A text in double quotes. Its span has both quotes.
    Text,
    /// One of the symbols, the longest that stands there.
    Symbol,
    /// The line `#include <omp.h>` or `#include <stdio.h>`, up to its end.
    Include,
    /// `#pragma omp`. What follows it on its line are tokens of their own.
    Pragma,
    /// Any other line that begins with `#`, up to its newline.
    OtherHash,
    /// The end of the line of a `Pragma`. Its span is empty.
    PragmaEnd,
    /// The end of the text. Its span is empty.
    End,
}

/// A token of a text.
#[derive(Clone, Copy, Debug, PartialEq, Eq)]
pub struct Token {
    /// What it is.
    pub kind: TokenKind,
    /// The offset of its first byte in the text.
    pub start: u32,
    /// The offset after its last byte.
    pub end: u32,
    /// The place of its first byte.
    pub spot: Spot,
}

/// Why a text has no tokens. The place is that of the first fault.
#[derive(Clone, Copy, Debug, PartialEq, Eq, Error)]
pub enum TokenFault {
    /// Number 1: a byte that begins no token, a `#` inside a line, or a byte that may not stand in a text in quotes. It stands at
    /// the end of the source where such a text is open there.
    #[error("bad byte")]
    BadByte(Spot),
    /// Number 2: a `/*` that no `*/` ends.
    #[error("open comment")]
    OpenComment(Spot),
    /// Number 3: digits that are no number, or that a letter, `_` or `.` follows directly. It stands at the first of them.
    #[error("bad number")]
    BadNumber(Spot),
    /// No memory was left for the tokens.
    #[error("memory")]
    Memory,
}

impl TokenFault {
    /// The number that tells the fault: 1 to 3, in the order above, and 0 for want of memory.
    pub fn number(&self) -> u32
        ensures { result ≡ fault_number self.now }
    {
        match self {
            TokenFault::BadByte(_) => 1,
            TokenFault::OpenComment(_) => 2,
            TokenFault::BadNumber(_) => 3,
            TokenFault::Memory => 0,
        }
    }

    /// The place of the fault: 0:0 for want of memory.
    pub fn spot(&self) -> Spot
        ensures { result ≡ fault_spot self.now }
    {
        match self {
            TokenFault::BadByte(spot)
            | TokenFault::OpenComment(spot)
            | TokenFault::BadNumber(spot) => *spot,
            TokenFault::Memory => NOWHERE,
        }
    }
}
