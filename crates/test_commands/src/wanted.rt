//! What is wanted of an output: its bytes, or some of its lines.

use crate::piece::add_piece;
use std::alloc::Global;
use test_rows::RowFault;

/// What an output is to be: parts, one behind the other.
#[derive(Drop)]
pub(crate) struct Wanted {
    parts: Vec<Part>,
}

/// Bytes, and what is passed over before them.
#[derive(Drop)]
struct Part {
    gap: Gap,
    bytes: Vec<u8>,
}

/// What is passed over.
#[derive(Clone, Copy)]
enum Gap {
    /// Nothing.
    Nothing,
    /// So many lines.
    Lines(u32),
    /// Lines up to the first place where what follows stands, or to the end where nothing follows.
    Any,
}

impl Wanted {
    /// Nothing is wanted to be there.
    pub fn new(alloc: Global) -> Wanted {
        Wanted {
            parts: Vec::new(alloc),
        }
    }

    /// Adds what a line wants.
    pub fn add(&mut self, alloc: Global, mode: &str, text: &str) -> Result<(), RowFault> {
        match mode.strip_prefix("...") {
            Some("") => self.begin(alloc, Gap::Any),
            Some(lines) => self.begin(alloc, Gap::Lines(lines.parse()?)),
            None => self.add_bytes(alloc, mode, text),
        }
    }

    /// Adds bytes to the last part, which is the first one where none began.
    fn add_bytes(&mut self, alloc: Global, mode: &str, text: &str) -> Result<(), RowFault> {
        if self.parts.is_empty() {
            self.begin(alloc, Gap::Nothing)?;
        }
        match self.parts.last_mut() {
            Some(part) => add_piece(&mut part.bytes, alloc, mode, text),
            None => Ok(()),
        }
    }

    /// Begins a part.
    fn begin(&mut self, alloc: Global, gap: Gap) -> Result<(), RowFault> {
        self.parts.push(Part {
            gap,
            bytes: Vec::new(alloc),
        })?;
        Ok(())
    }

    /// What there is from the place on where something else is wanted. It is empty where more is wanted.
    pub fn difference<'a>(&self, got: &'a [u8]) -> Option<&'a [u8]> {
        let mut rest = got;
        for part in &self.parts {
            match part.behind(rest) {
                Some(behind) => rest = behind,
                None => return Some(part.unlike(rest)),
            }
        }
        match rest {
            [] => None,
            _ => Some(rest),
        }
    }
}

impl Part {
    /// What is behind this part.
    fn behind<'a>(&self, got: &'a [u8]) -> Option<&'a [u8]> {
        match self.gap {
            Gap::Nothing => got.strip_prefix(self.bytes.as_slice()),
            Gap::Lines(count) => behind_lines(got, count)?.strip_prefix(self.bytes.as_slice()),
            Gap::Any if self.bytes.is_empty() => Some(&[]),
            Gap::Any => behind_first(got, self.bytes.as_slice()),
        }
    }

    /// What there is from the first byte on that isn't the one of this part, where no lines are passed over.
    fn unlike<'a>(&self, got: &'a [u8]) -> &'a [u8] {
        let Gap::Nothing = self.gap else {
            return got;
        };
        let pairs = got.iter().zip(&self.bytes);
        let same = pairs.take_while(|(byte, want)| byte == want).count();
        got.get(same..).unwrap_or_default()
    }
}

/// What is behind so many lines.
fn behind_lines(got: &[u8], count: u32) -> Option<&[u8]> {
    let mut rest = got;
    for _line in 0..count {
        rest = behind_line(rest)?;
    }
    Some(rest)
}

/// What is behind these bytes at the first line that begins with them.
fn behind_first<'a>(got: &'a [u8], bytes: &[u8]) -> Option<&'a [u8]> {
    let mut rest = got;
    for _line in 0..=got.len() {
        if let Some(behind) = rest.strip_prefix(bytes) {
            return Some(behind);
        }
        rest = behind_line(rest)?;
    }
    None
}

/// What is behind the first newline.
fn behind_line(got: &[u8]) -> Option<&[u8]> {
    let newline = got.iter().position(|byte| *byte == b'\n')?;
    got.get(newline.saturating_add(1)..)
}
