//! What fixes a run, beside its program.

use crate::limits::Limits;

/// What fixes a run, beside its program.
#[derive(Clone, Copy)]
pub struct Settings {
    /// The callbacks that are registered: bit n for number n.
    pub mask: u64,
    /// How many threads and how many silent steps there may be.
    pub limits: Limits,
}
