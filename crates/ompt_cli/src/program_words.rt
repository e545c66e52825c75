//! The words of the program's own command line.

use std::alloc::AllocError;
use std::env;
use std::io::ErrorKind;
use std::rt::Env;

/// The words behind the program's own name, to be handed to [`top`](crate::top). Where the system doesn't tell them, or one is no text,
/// there are none, and without a command words are wrong. An error says that there was no memory for them: the program then ends as
/// `End::Memory` does.
pub fn own_words<R: Env + AllocGlobal>(rt: &R) -> Result<Vec<String>, AllocError> {
    match env::args(rt) {
        Ok(words) => words.skip(1).collect(rt.alloc()),
        Err(fault) if fault.kind() == ErrorKind::OutOfMemory => Err(AllocError),
        Err(_) => Ok(Vec::new(rt.alloc())),
    }
}
