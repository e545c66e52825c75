//! Frames: named text that stands around the texts of rows.

use crate::row_fault::RowFault;
use std::alloc::{AllocError, Global};

/// Where the text of a row goes in a frame, and its tree in what stands around trees.
const HOLE: &str = "...";

/// Named text that stands around the texts of rows, and what stands around their trees.
#[derive(Drop)]
pub(crate) struct Frame {
    name: String,
    text: String,
    tree: String,
}

impl Frame {
    /// A frame with this name, and without a line.
    pub fn new(alloc: Global, name: &str) -> Result<Frame, RowFault> {
        Ok(Frame {
            name: String::from_str(alloc, name)?,
            text: String::new(alloc),
            tree: String::from_str(alloc, HOLE)?,
        })
    }

    /// Whether this is its name.
    pub fn is_named(&self, name: &str) -> bool {
        self.name.as_str() == name
    }

    /// Adds a line of the text.
    pub fn add_line(&mut self, line: &str) -> Result<(), RowFault> {
        if !self.text.is_empty() {
            self.text.push('\n')?;
        }
        self.text.push_str(line)?;
        Ok(())
    }

    /// Sets what stands around trees.
    pub fn set_tree(&mut self, alloc: Global, tree: &str) -> Result<(), RowFault> {
        self.tree = String::from_str(alloc, tree)?;
        Ok(())
    }

    /// The text of a row with what stands around it.
    pub fn text_around(&self, alloc: Global, text: &str) -> Result<String, AllocError> {
        filled(alloc, self.text.as_str(), text)
    }

    /// The tree of a row with what stands around it.
    pub fn tree_around(&self, alloc: Global, tree: &str) -> Result<String, AllocError> {
        filled(alloc, self.tree.as_str(), tree)
    }
}

/// What stands around a hole, with this in it. All of it where there is no hole.
fn filled(alloc: Global, around: &str, inside: &str) -> Result<String, AllocError> {
    match around.split_once(HOLE) {
        Some((before, behind)) => format!(in alloc; "{before}{inside}{behind}"),
        None => String::from_str(alloc, around),
    }
}
