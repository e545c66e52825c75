//! A word, and a number behind it.

ghost use Rattle.std.specs.Prelude.{◌≡◌, ◌++◌, Some};
ghost use Rattle.std.specs.Fmt.{decimal};
ghost use Rattle.trace_view.specs.Marking.{label_text};
ghost use Rattle.trace_view.specs.Naming.{number_text};

use crate::number_names::{Enumeration, NumberName};
use std::fmt;
use std::fmt::{Display, Formatter};

/// A word, and a number behind it.
#[derive(Clone, Copy)]
pub(crate) struct Label {
    word: &'static str,
    behind: Behind,
}

/// What stands behind a word.
#[derive(Clone, Copy)]
enum Behind {
    /// Nothing.
    Nothing,
    /// A number.
    Number(u32),
    /// A number by its name.
    Name(NumberName),
}

impl Label {
    /// A word alone.
    pub fn word(word: &'static str) -> Label
        ensures { label_text result ≡ word.now }
    {
        Label {
            word,
            behind: Behind::Nothing,
        }
    }

    /// A word, and a number behind it.
    pub fn number(word: &'static str, number: u32) -> Label
        ensures { label_text result ≡ word.now ++ decimal number }
    {
        Label {
            word,
            behind: Behind::Number(number),
        }
    }

    /// A word, and a number of this enumeration by its name.
    pub fn name(word: &'static str, of: Enumeration, number: u32) -> Label
        ensures { label_text result ≡ word.now ++ number_text of number }
    {
        Label {
            word,
            behind: Behind::Name(NumberName { of, number }),
        }
    }
}

impl Display for Label {
    ghost output = { λ label. Some (label_text label) };

    fn fmt<W: fmt::Write>(&self, f: &mut Formatter<W>) -> fmt::Result {
        match self.behind {
            Behind::Nothing => write!(f, "{}", self.word),
            Behind::Number(number) => write!(f, "{}{number}", self.word),
            Behind::Name(name) => write!(f, "{}{name}", self.word),
        }
    }
}
