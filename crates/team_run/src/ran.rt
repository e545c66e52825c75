//! What a run gave.

use omp_model::{Cause, History};

/// The error of a call that found no memory.
pub type Memory = std::alloc::AllocError;

/// What a run gave.
///
/// Part t was called for the events of thread t. Part 0 was started before the first entry: what it registered was heard, where it
/// answered another number than 0, and else nothing. Where it answered another number than 0 it was finished after the last entry.
///
/// No clause says when memory is wanting, nor when part 0 was started. That an error comes in place of a run only before the first
/// entry is to be read. Where the cause is `Memory` the history has an entry.
#[derive(Drop)]
pub struct Ran<P> {
    /// Why it ended.
    pub cause: Cause,
    /// The callbacks that were heard, bit n for number n: those that part 0 registered, and none where it is inactive.
    pub mask: u64,
    /// Its entries.
    pub history: History,
    /// The bytes that the program printed.
    pub text: Vec<u8>,
    /// The parts, by thread.
    pub parts: Vec<P>,
}
