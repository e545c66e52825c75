//! A thread that may begin a turn.

use omp_model::Arrival;

/// A thread that may begin a turn, with what it comes to.
#[derive(Clone, Copy)]
pub struct Ready {
    /// The thread.
    pub thread: u8,
    /// What it comes to next.
    pub arrival: Arrival,
}
