//! What a book has come to.

use omp_model::{Cause, History};

/// What a book has come to.
#[derive(Drop)]
pub struct Closed {
    /// Its entries.
    pub history: History,
    /// The bytes that the program has printed.
    pub text: Vec<u8>,
    /// Why the run ended, or none where it hasn't.
    pub cause: Option<Cause>,
}
