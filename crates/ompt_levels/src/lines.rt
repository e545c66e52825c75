//! The lines of a run.

use std::alloc::{AllocError, Global};
use std::collections::BTreeMap;

/// The lines of a run's calls, in the order of the history.
#[derive(Drop)]
pub(crate) struct Lines {
    /// The lines, by the positions of their events.
    lines: BTreeMap<u32, Vec<u8>>,
}

impl Lines {
    /// The lines of a run of which nothing was heard yet.
    pub fn new(alloc: Global) -> Lines {
        Lines {
            lines: BTreeMap::new(alloc),
        }
    }

    /// Adds the line of the event at this position.
    pub fn add(&mut self, seq: u32, line: Vec<u8>) -> Result<(), AllocError> {
        self.lines.insert(seq, line)?;
        Ok(())
    }

    /// All lines, one behind the other.
    pub fn text(&self, alloc: Global) -> Result<Vec<u8>, AllocError> {
        let mut text = Vec::new(alloc);
        for line in self.lines.values() {
            text.extend_from_slice(line.as_slice())?;
        }
        Ok(text)
    }
}
