//! Where the reading of a text has come to.

ghost use Rattle.std.specs.Prelude.{◌≡◌, ◌≤◌, ◌<◌, ◌+◌, length};
ghost use Rattle.c_tokens.specs.workings.Tokens.{Bounded, place_in};
ghost use Rattle.c_tokens.specs.language.Places.{begun, beginning, line_from, place_after, places_after};

use crate::item::Item;
use crate::token::{Spot, TokenKind};

/// What was read of a line so far.
#[derive(Clone, Copy)]
pub(crate) enum Line {
    /// Nothing but blanks and comments.
    Fresh,
    /// A token.
    Begun,
    /// The head of a directive, which reaches up to the end of the line.
    Directive,
}

/// A place in a text.
#[derive(Clone, Copy)]
pub(crate) struct Place {
    /// The offset in bytes.
    pub at: u32,
    /// The line and the column.
    pub spot: Spot,
    /// What was read of the line.
    pub line: Line,
}

/// The byte that ends a line.
pub(crate) const NEWLINE: u8 = b'\n';

impl Place {
    /// The place before the first byte.
    pub fn beginning() -> Place
        ensures { result ≡ beginning }
    {
        Place {
            at: 0,
            spot: Spot { line: 1, column: 1 },
            line: Line::Fresh,
        }
    }

    /// The same place, where an item has begun.
    pub fn with(self, item: Item) -> Place
        ensures { result ≡ place_in item self }
    {
        let line = match item {
            Item::Token(TokenKind::Pragma, _) => Line::Directive,
            Item::Token(..) => self.line.begun(),
            Item::DirectiveEnd => Line::Fresh,
            Item::Blank(_) | Item::Fault(..) => self.line,
        };
        Place {
            at: self.at,
            spot: self.spot,
            line,
        }
    }

    /// The place after these bytes of an item.
    pub fn past(self, bytes: &[u8]) -> Place
        requires short { self.at + length bytes.now ≤ 65536 }
        requires bounded { Bounded self }
        ensures place { result ≡ places_after bytes.now self }
        ensures at { result.at ≡ self.at + length bytes.now }
        ensures bounded { Bounded result }
    {
        let mut place = self;
        for byte in bytes {
            place = place.after(*byte);
        }
        place
    }

    /// The place after a byte of an item.
    fn after(self, byte: u8) -> Place
        requires short { self.at < 65536 }
        requires bounded { Bounded self }
        ensures place { result ≡ place_after byte self }
        ensures bounded { Bounded result }
    {
        let at = self.at + 1;
        if byte == NEWLINE {
            let spot = Spot {
                line: self.spot.line + 1,
                column: 1,
            };
            return Place {
                at,
                spot,
                line: self.line.after_newline(),
            };
        }
        let spot = Spot {
            line: self.spot.line,
            column: self.spot.column + 1,
        };
        Place {
            at,
            spot,
            line: self.line,
        }
    }
}

impl Line {
    /// What was read of the line after a newline. It begins a line, but in the line of a directive.
    fn after_newline(self) -> Line
        ensures { result ≡ line_from self }
    {
        match self {
            Line::Fresh | Line::Begun => Line::Fresh,
            Line::Directive => Line::Directive,
        }
    }

    /// What was read of the line once a token has begun in it.
    pub fn begun(self) -> Line
        ensures { result ≡ begun self }
    {
        match self {
            Line::Fresh | Line::Begun => Line::Begun,
            Line::Directive => Line::Directive,
        }
    }
}
