//! What is read before the text and behind the entries.

/// What stands before the text.
#[derive(Clone, Copy)]
pub struct Header {
    /// How many threads the run had.
    pub threads: u8,
    /// The callbacks that were registered.
    pub mask: u64,
    /// How many silent steps the run might make.
    pub steps: u32,
    /// The length of the text, in bytes.
    pub text_len: u32,
}

/// What stands behind the entries.
#[derive(Clone, Copy)]
pub struct End {
    /// The run's status.
    pub status: u8,
    /// What is told of it.
    pub detail: u32,
}
