//! A table, line by line.

use crate::piece::add_piece;
use crate::row::Row;
use std::alloc::Global;
use std::sync::Wait;
use std::thread::Threads;
use test_rows::RowFault;

/// What the lines of a table said so far.
#[derive(Drop)]
pub(crate) struct Table {
    words: Vec<String>,
    row: Option<Row>,
}

impl Table {
    /// A table of no lines.
    pub fn new(alloc: Global) -> Table {
        Table {
            words: Vec::new(alloc),
            row: None,
        }
    }

    /// Takes the next line, which ends no row.
    pub fn take(&mut self, alloc: Global, line: &str) -> Result<(), RowFault> {
        let (head, text) = line.split_once(' ').unwrap_or((line, ""));
        if head.is_empty() || head.starts_with('#') || head.starts_with('=') {
            return Ok(());
        }
        if let Some(mode) = head.strip_prefix('$') {
            return self.take_words(alloc, mode, text);
        }
        if head == "row" {
            self.row = Some(Row::new(alloc, text)?);
            return Ok(());
        }
        match &mut self.row {
            Some(row) => row.take(alloc, head, text),
            None => Err(RowFault::OutsideRow),
        }
    }

    /// Takes the words of a line without a mode, or one more word.
    fn take_words(&mut self, alloc: Global, mode: &str, text: &str) -> Result<(), RowFault> {
        if mode.is_empty() {
            return self.set_words(alloc, text);
        }
        self.words.push(word_of(alloc, mode, text)?)?;
        Ok(())
    }

    /// Takes these words in place of those before.
    fn set_words(&mut self, alloc: Global, text: &str) -> Result<(), RowFault> {
        self.words.clear();
        for word in text.split_whitespace() {
            self.words.push(String::from_str(alloc, word)?)?;
        }
        Ok(())
    }

    /// Ends the row, if one began. Tells how it came to something else than it wants.
    pub fn end_row<R: Threads + Wait + Sync>(
        &mut self,
        rt: &R,
        alloc: Global,
    ) -> Option<Result<Option<String>, RowFault>> {
        let row = self.row.take()?;
        Some(row.difference(rt, alloc, self.words.as_slice()))
    }
}

/// The word of this mode and text.
fn word_of(alloc: Global, mode: &str, text: &str) -> Result<String, RowFault> {
    let mut word = Vec::new(alloc);
    add_piece(&mut word, alloc, mode, text)?;
    String::from_utf8(word).map_err(|_| RowFault::NoWord)
}

/// Whether a row ends before this line.
pub(crate) fn ends_row(line: &str) -> bool {
    line.starts_with('$') || line.starts_with("row ")
}
