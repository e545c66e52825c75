//! A row: what is handed to the command, and what it is to come to.

use crate::expected::Expected;
use crate::given::{Given, add_calls};
use crate::piece::add_piece;
use std::alloc::Global;
use std::sync::Wait;
use std::thread::Threads;
use test_rows::RowFault;

/// A row of a table.
#[derive(Drop)]
pub(crate) struct Row {
    name: String,
    given: Given,
    expected: Expected,
    /// Whether it is to come to something else than is expected.
    is_unlike: bool,
}

impl Row {
    /// A row with this name. Its text is empty, and nothing is to be written.
    pub fn new(alloc: Global, name: &str) -> Result<Row, RowFault> {
        Ok(Row {
            name: String::from_str(alloc, name)?,
            given: Given::new(alloc),
            expected: Expected::new(alloc),
            is_unlike: false,
        })
    }

    /// Takes a line of the row.
    pub fn take(&mut self, alloc: Global, head: &str, text: &str) -> Result<(), RowFault> {
        if let Some(mode) = head.strip_prefix('|') {
            return add_piece(&mut self.given.text, alloc, mode, text);
        }
        if let Some(mode) = head.strip_prefix('>') {
            return self.expected.out.add(alloc, mode, text);
        }
        if let Some(mode) = head.strip_prefix('!') {
            return self.expected.err.add(alloc, mode, text);
        }
        self.take_word(head, text)
    }

    /// Takes a line that begins with a word.
    fn take_word(&mut self, head: &str, text: &str) -> Result<(), RowFault> {
        match head {
            "status" => self.expected.set_status(text),
            "entries" => self.expected.set_entries(text),
            "in" => add_calls(&mut self.given.reads, text),
            "out" => add_calls(&mut self.given.out_writes, text),
            "err" => add_calls(&mut self.given.err_writes, text),
            "unlike" => {
                self.is_unlike = true;
                Ok(())
            }
            _ => Err(RowFault::NoSuchLine),
        }
    }

    /// Hands the command these words and what the row has. Tells what it came to, if that isn't as the row says.
    pub fn difference<R: Threads + Wait + Sync>(
        self,
        rt: &R,
        alloc: Global,
        words: &[String],
    ) -> Result<Option<String>, RowFault> {
        let Row {
            name,
            given,
            expected,
            is_unlike,
        } = self;
        match given.come(rt, alloc, words) {
            Ok(came) => {
                let difference = expected.difference(alloc, &came)?;
                told(alloc, name.as_str(), difference, is_unlike)
            }
            Err(error) => Err(RowFault::Memory(error)),
        }
    }
}

/// What is told of a row with this name, where it came to this.
fn told(
    alloc: Global,
    name: &str,
    difference: Option<String>,
    is_unlike: bool,
) -> Result<Option<String>, RowFault> {
    match (difference, is_unlike) {
        (Some(difference), false) => Ok(Some(format!(in alloc; "{name}: {difference}")?)),
        (None, true) => Ok(Some(format!(in alloc; "{name}: nothing differs")?)),
        _ => Ok(None),
    }
}
