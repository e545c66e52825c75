//! Places in the source of a program.

ghost use Rattle.std.specs.Prelude.{◌≡◌, Some};
ghost use Rattle.ompt_calls.specs.Line.{column_of, line_number_of, place_text};

use std::fmt;
use std::fmt::{Display, Formatter};

/// What a line counts in a place.
const LINE_UNIT: u64 = 65_536;

/// A place in the source, as a call tells it by its argument `codeptr` (`codeptr_ra`): line × 65536 + column.
#[derive(Clone, Copy, PartialEq, Eq)]
pub struct CodePlace(pub u64);

impl CodePlace {
    /// The line, from 1 on.
    pub fn line(self) -> u64
        ensures { result ≡ line_number_of self.0 }
    {
        self.0 / LINE_UNIT
    }

    /// The column, from 1 on.
    pub fn column(self) -> u64
        ensures { result ≡ column_of self.0 }
    {
        self.0 % LINE_UNIT
    }
}

/// `line:column`.
impl Display for CodePlace {
    ghost output = { λ place. Some (place_text place.0) };

    fn fmt<W: fmt::Write>(&self, f: &mut Formatter<W>) -> fmt::Result {
        write!(f, "{}:{}", self.line(), self.column())
    }
}
