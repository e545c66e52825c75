//! The numbers of kinds, as they are written.

/// The end of a file.
pub const END: u8 = 0;

/// A turn.
pub const GO: u8 = 1;

/// A store.
pub const PUT: u8 = 2;

/// The return of a callback.
pub const BACK: u8 = 3;

/// A store into the word of a thread.
pub const THREAD: u8 = 1;

/// A store into the word of a parallel region.
pub const PARALLEL: u8 = 2;

/// A store into the word of a task.
pub const TASK: u8 = 3;
