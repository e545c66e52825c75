//! What a row is to come to.

use crate::given::Came;
use crate::wanted::Wanted;
use std::alloc::{AllocError, Global};
use test_rows::RowFault;

/// A status, a number of entries, and what is to be written.
#[derive(Drop)]
pub(crate) struct Expected {
    status: u8,
    /// How many entries the history of the run is to have; `None` where any number will do.
    entries: Option<usize>,
    pub out: Wanted,
    pub err: Wanted,
}

impl Expected {
    /// Status 0 and nothing written.
    pub fn new(alloc: Global) -> Expected {
        Expected {
            status: 0,
            entries: None,
            out: Wanted::new(alloc),
            err: Wanted::new(alloc),
        }
    }

    /// Expects the status that is written so.
    pub fn set_status(&mut self, text: &str) -> Result<(), RowFault> {
        self.status = text.parse()?;
        Ok(())
    }

    /// Expects the number of entries that is written so.
    pub fn set_entries(&mut self, text: &str) -> Result<(), RowFault> {
        self.entries = Some(text.parse()?);
        Ok(())
    }

    /// What differs in what a command came to.
    pub fn difference(&self, alloc: Global, came: &Came) -> Result<Option<String>, AllocError> {
        if came.status != self.status {
            let line = came.err.bytes().escape_ascii();
            return Ok(Some(format!(in alloc; "status {}, {line}", came.status)?));
        }
        if let Some(rest) = self.out.difference(came.out.bytes()) {
            let rest = rest.escape_ascii();
            return Ok(Some(format!(in alloc; "the output has {rest}")?));
        }
        if let Some(rest) = self.err.difference(came.err.bytes()) {
            let rest = rest.escape_ascii();
            return Ok(Some(format!(in alloc; "standard error has {rest}")?));
        }
        other_entries(alloc, self.entries, came.entries)
    }
}

/// What differs from the number of entries that is expected, where one is.
fn other_entries(
    alloc: Global,
    expected: Option<usize>,
    entries: Option<usize>,
) -> Result<Option<String>, AllocError> {
    match (expected, entries) {
        (None, _) => Ok(None),
        (Some(expected), Some(entries)) if entries == expected => Ok(None),
        (_, Some(entries)) => Ok(Some(format!(in alloc; "the history has {entries} entries")?)),
        (_, None) => Ok(Some(format!(in alloc; "nothing ran")?)),
    }
}
