//! Texts as they are written in a table.
//!
//! A text stands on one line. Each byte of it stands for itself but a backslash, and what is behind it:
//!
//! | Written | What it is |
//! |---|---|
//! | `\n` `\t` `\r` `\\` | a newline, a tab, a carriage return, a backslash |
//! | `\x80` | the byte with this number, of two hexadecimal digits |
//! | `\3{text\}` | the text between, so many times. `\#` in it is the number of the time, from 1 |
//! | `\<one two three\>` | one of these words, with a blank between them: the row is one for each of them |
//! | `\(one\|two of them\)` | the same, with `\|` between them |
//!
//! None of these stands inside another one, and a row chooses once at most.

use crate::row_fault::RowFault;
use std::alloc::Global;
use std::io::Write;
use std::mem;

/// The most bytes of a text.
pub(crate) const LONGEST: usize = 65536;

/// A byte of a text, or what stands for bytes.
#[derive(Clone, Copy)]
enum Mark {
    /// This byte.
    Byte(u8),
    /// A blank as it is. It parts words that are chosen from.
    Blank,
    /// What parts choices that may have blanks.
    Bar,
    /// The number of the time.
    Time,
}

/// How a piece of a text stands in it.
#[derive(Clone, Copy)]
enum Kind {
    /// Once.
    Once,
    /// So many times.
    Times(u32),
    /// One of its words.
    Word,
    /// One of its choices.
    Choice,
}

impl Kind {
    /// Whether the mark parts what is chosen from in a piece of this kind.
    fn is_parted_by(self, mark: Mark) -> bool {
        matches!(
            (self, mark),
            (Kind::Word, Mark::Blank) | (Kind::Choice, Mark::Bar)
        )
    }
}

/// A piece of a text.
#[derive(Drop)]
struct Piece {
    kind: Kind,
    marks: Vec<Mark>,
}

/// A text as it is written, with its repetitions and with the words that are chosen from.
#[derive(Drop)]
pub(crate) struct Pattern {
    pieces: Vec<Piece>,
}

impl Pattern {
    /// The pattern that is written so.
    pub fn read(alloc: Global, written: &str) -> Result<Pattern, RowFault> {
        let mut reader = Reader::new(alloc);
        for byte in written.as_bytes() {
            reader.take(alloc, *byte)?;
        }
        reader.end(alloc)
    }

    /// How many texts there are: one for each choice.
    pub fn count(&self) -> usize {
        let mut count = 1_usize;
        for piece in &self.pieces {
            for mark in &piece.marks {
                if piece.kind.is_parted_by(*mark) {
                    count = count.saturating_add(1);
                }
            }
        }
        count
    }

    /// The text with the choice of this number, from 0.
    pub fn text(&self, alloc: Global, number: usize) -> Result<Vec<u8>, RowFault> {
        let mut text = Vec::new(alloc);
        for piece in &self.pieces {
            match piece.kind {
                Kind::Once => write_marks(&mut text, &piece.marks, 1)?,
                Kind::Times(times) => {
                    for time in 0..times {
                        write_marks(&mut text, &piece.marks, time.saturating_add(1))?;
                    }
                }
                Kind::Word | Kind::Choice => write_choice(&mut text, piece, number)?,
            }
        }
        Ok(text)
    }
}

/// Writes marks at a time.
fn write_marks(text: &mut Vec<u8>, marks: &[Mark], time: u32) -> Result<(), RowFault> {
    for mark in marks {
        write_mark(text, *mark, time)?;
    }
    Ok(())
}

/// Writes a mark at a time.
fn write_mark(text: &mut Vec<u8>, mark: Mark, time: u32) -> Result<(), RowFault> {
    match mark {
        Mark::Byte(byte) => push(text, byte),
        Mark::Blank => push(text, b' '),
        Mark::Bar => Err(RowFault::BadEscape),
        Mark::Time => write!(text, "{time}").map_err(|_| RowFault::Memory),
    }
}

/// Writes the choice of this number.
fn write_choice(text: &mut Vec<u8>, piece: &Piece, number: usize) -> Result<(), RowFault> {
    let mut choice = 0_usize;
    for mark in &piece.marks {
        if piece.kind.is_parted_by(*mark) {
            choice = choice.saturating_add(1);
        } else if choice == number {
            write_mark(text, *mark, 1)?;
        }
    }
    Ok(())
}

/// Adds a byte to a text.
fn push(text: &mut Vec<u8>, byte: u8) -> Result<(), RowFault> {
    if text.len() >= LONGEST {
        return Err(RowFault::TooLong);
    }
    text.push(byte)?;
    Ok(())
}

/// What the next byte belongs to.
#[derive(Clone, Copy)]
enum State {
    /// The text itself.
    Plain,
    /// A backslash stands before it.
    Escape,
    /// The first digit of a byte's number.
    HighDigit,
    /// The second digit, behind this one.
    LowDigit(u8),
    /// The number of times, so far this.
    Times(u32),
}

/// Reads a pattern.
#[derive(Drop)]
struct Reader {
    done: Vec<Piece>,
    kind: Kind,
    marks: Vec<Mark>,
    state: State,
}

impl Reader {
    /// Nothing is read yet.
    fn new(alloc: Global) -> Reader {
        Reader {
            done: Vec::new(alloc),
            kind: Kind::Once,
            marks: Vec::new(alloc),
            state: State::Plain,
        }
    }

    /// Takes the next byte.
    fn take(&mut self, alloc: Global, byte: u8) -> Result<(), RowFault> {
        match self.state {
            State::Plain => self.plain(byte),
            State::Escape => self.escaped(alloc, byte),
            State::HighDigit => {
                self.state = State::LowDigit(hexadecimal(byte)?);
                Ok(())
            }
            State::LowDigit(high) => {
                let low = hexadecimal(byte)?;
                self.mark(Mark::Byte(high.wrapping_mul(16).wrapping_add(low)))
            }
            State::Times(times) => self.times(alloc, times, byte),
        }
    }

    /// Takes a byte of the text itself.
    fn plain(&mut self, byte: u8) -> Result<(), RowFault> {
        match byte {
            b'\\' => {
                self.state = State::Escape;
                Ok(())
            }
            b' ' => self.mark(Mark::Blank),
            _ => self.mark(Mark::Byte(byte)),
        }
    }

    /// Takes the byte behind a backslash.
    fn escaped(&mut self, alloc: Global, byte: u8) -> Result<(), RowFault> {
        match byte {
            b'n' => self.mark(Mark::Byte(b'\n')),
            b't' => self.mark(Mark::Byte(b'\t')),
            b'r' => self.mark(Mark::Byte(b'\r')),
            b'\\' => self.mark(Mark::Byte(b'\\')),
            b'#' => self.mark(Mark::Time),
            b'|' => self.mark(Mark::Bar),
            b'<' => self.begin(alloc, Kind::Word),
            b'(' => self.begin(alloc, Kind::Choice),
            b'}' | b'>' | b')' => self.begin(alloc, Kind::Once),
            b'x' => {
                self.state = State::HighDigit;
                Ok(())
            }
            b'0'..=b'9' => {
                self.state = State::Times(u32::from(byte - b'0'));
                Ok(())
            }
            _ => Err(RowFault::BadEscape),
        }
    }

    /// Takes a byte behind a digit of the number of times.
    fn times(&mut self, alloc: Global, times: u32, byte: u8) -> Result<(), RowFault> {
        match byte {
            b'{' => self.begin(alloc, Kind::Times(times)),
            b'0'..=b'9' => {
                let digit = u32::from(byte - b'0');
                self.state = State::Times(times.saturating_mul(10).saturating_add(digit));
                Ok(())
            }
            _ => Err(RowFault::BadEscape),
        }
    }

    /// Adds a mark to the piece.
    fn mark(&mut self, mark: Mark) -> Result<(), RowFault> {
        self.marks.push(mark)?;
        self.state = State::Plain;
        Ok(())
    }

    /// Ends the piece, and begins one of this kind. One of another kind than `Once` stands between two of that kind.
    fn begin(&mut self, alloc: Global, kind: Kind) -> Result<(), RowFault> {
        if matches!(self.kind, Kind::Once) == matches!(kind, Kind::Once) {
            return Err(RowFault::BadEscape);
        }
        let marks = mem::replace(&mut self.marks, Vec::new(alloc));
        self.done.push(Piece {
            kind: self.kind,
            marks,
        })?;
        self.kind = kind;
        self.state = State::Plain;
        Ok(())
    }

    /// The pattern that was read.
    fn end(self, alloc: Global) -> Result<Pattern, RowFault> {
        let mut reader = self;
        let State::Plain = reader.state else {
            return Err(RowFault::BadEscape);
        };
        reader.begin(alloc, Kind::Times(0))?;
        Ok(Pattern {
            pieces: reader.done,
        })
    }
}

/// The value of a hexadecimal digit.
fn hexadecimal(byte: u8) -> Result<u8, RowFault> {
    match byte {
        b'0'..=b'9' => Ok(byte - b'0'),
        b'a'..=b'f' => Ok(byte - b'a' + 10),
        _ => Err(RowFault::BadEscape),
    }
}
