//! The tails of lines that include a file.
//!
//! Such a line may end with blanks and comments, and a comment may reach over lines. So whether a line is an include may depend
//! on bytes far behind it. That is found for each end of the text at once, from the last byte to the first: many lines before
//! one comment then cost no more than one.

ghost use Rattle.std.specs.Prelude.{◌≡◌, ◌≤◌, ◌∷◌, [], IfOk, IfSome, length, ℕ, List};
ghost use Rattle.c_tokens.specs.language.Blanks.{one_more};
ghost use Rattle.c_tokens.specs.workings.Lines.{tail_len};
ghost use Rattle.c_tokens.specs.workings.Lines.Tail.{Gaps};
ghost use Rattle.c_tokens.specs.workings.Tails.{AreTails, IsSmall, IsSmallRow, row_of};

use std::alloc::{AllocError, Global};

/// How many bytes the end of a text has up to the end of its line, where these are blanks and comments: from each state of
/// their reading.
#[derive(Clone, Copy)]
pub(crate) struct Row {
    /// Among blanks.
    pub gaps: Option<u32>,
    /// Behind a slash that begins a comment.
    pub slash: Option<u32>,
    /// In a comment to the end of the line.
    pub line: Option<u32>,
    /// In a comment of its own.
    pub inside: Option<u32>,
    /// The same, behind a star.
    pub starred: Option<u32>,
    /// Behind a carriage return.
    pub carriage: Option<u32>,
}

/// What each end of a text is as such a tail, by its length.
pub(crate) fn tails_of(alloc: Global, text: &[u8]) -> Result<Vec<Option<u32>>, AllocError>
    requires { length text.now ≤ 65536 }
    ensures { IfOk result (λ tails. AreTails text.now tails.items) }
{
    let mut row = Row::of_nothing();
    let mut tails = Vec::new(alloc);
    tails.push(row.gaps)?;
    let mut rest = text;
    while let Some((byte, front)) = rest.split_last() {
        row = row.before(*byte);
        tails.push(row.gaps)?;
        rest = front;
    }
    Ok(tails)
}

/// How many bytes the rest of a text has up to the end of its line, where these are blanks and comments.
pub(crate) fn tail_len(rest: &[u8], tails: &[Option<u32>]) -> Option<u32>
    requires { AreTails rest.now tails.now }
    ensures len { result ≡ tail_len Gaps rest.now }
    ensures within { IfSome result (λ count. count ≤ length rest.now) }
{
    tails[rest.len()]
}

impl Row {
    /// The end of a text.
    fn of_nothing() -> Row
        ensures { result ≡ row_of [] }
    {
        Row {
            gaps: Some(0),
            slash: None,
            line: Some(0),
            inside: None,
            starred: None,
            carriage: None,
        }
    }

    /// The end that begins a byte earlier.
    fn before(self, byte: u8) -> Row
        requires { IsSmallRow self }
        ensures { (bytes : List ℕ) → self ≡ row_of bytes → result ≡ row_of (byte ∷ bytes) }
    {
        Row {
            gaps: self.gaps_before(byte),
            slash: match byte {
                b'/' => one_more(self.line),
                b'*' => one_more(self.inside),
                _ => None,
            },
            line: match byte {
                b'\n' => Some(0),
                _ => one_more(self.line),
            },
            inside: match byte {
                b'*' => one_more(self.starred),
                _ => one_more(self.inside),
            },
            starred: match byte {
                b'/' => one_more(self.gaps),
                b'*' => one_more(self.starred),
                _ => one_more(self.inside),
            },
            carriage: match byte {
                b'\n' => Some(0),
                _ => None,
            },
        }
    }

    /// The same among blanks.
    fn gaps_before(self, byte: u8) -> Option<u32>
        requires { IsSmallRow self }
        ensures { (bytes : List ℕ) → self ≡ row_of bytes → result ≡ (row_of (byte ∷ bytes)).gaps }
    {
        match byte {
            b' ' | b'\t' => one_more(self.gaps),
            b'\n' => Some(0),
            b'\r' => self.carriage,
            b'/' => one_more(self.slash),
            _ => None,
        }
    }
}

/// One byte more.
fn one_more(count: Option<u32>) -> Option<u32>
    requires { IsSmall count }
    ensures { result ≡ one_more count }
{
    match count {
        Some(count) => Some(count + 1),
        None => None,
    }
}
