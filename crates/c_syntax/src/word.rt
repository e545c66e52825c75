//! Words.

ghost use Rattle.std.specs.Prelude.{◌≡◌, ◌≤◌};
ghost use Rattle.c_syntax.specs.declared.term.Term.TheVariants.{Number};

use crate::term::Term;
use c_tokens::Spot;

/// A word of a text.
#[derive(Clone, Copy)]
pub struct Word {
    /// What it is to the grammar.
    pub term: Term,
    /// The number of a name, from 1 in the order in which they first appear, or the number that digits write, which an `i32` holds.
    /// Else 0.
    pub value: u32,
    /// Where the bytes between the quotes of a text begin in the source. Any other word has none: this and `end` are the same.
    pub start: u32,
    /// Where they end.
    pub end: u32,
    /// The place of its first byte.
    pub spot: Spot,
    ghost small: { term ≡ Number → value ≤ 2147483647 },
}
