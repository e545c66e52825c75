//! What a thread did while it had the lock.

use omp_model::Entry;
use std::collections::LinkedList;

/// A hold of the lock: which thread had it, and which entries it added to the history. No value of it is made. It
/// stands in contracts alone, which see its entries as a list.
pub struct Hold {
    /// The thread's number, from 0.
    pub thread: u8,
    /// The entries that it added, in order. There may be none.
    pub entries: LinkedList<Entry>,
}
