//! What the seats of the table know. No value of these types is made. They stand in contracts alone.

use crate::hold::Hold;
use std::collections::LinkedList;

/// A pass that the book has taken in.
pub(crate) struct TakenPass {
    /// The number of the pass's thread, from 0.
    pub(crate) thread: u8,
    /// The holds that the pass has seen, in order.
    pub(crate) seen: LinkedList<Hold>,
}

/// What a seat of the table knows.
pub(crate) enum SeatView {
    /// Nothing: the book has taken it in.
    Spent,
    /// A pass: the number of its thread, and the holds that it has seen, in order.
    OfPass(u8, LinkedList<Hold>),
    /// The book: all holds in order, how many passes were made, and the pass that it has taken in, if any.
    OfBook(LinkedList<Hold>, u8, Option<TakenPass>),
}
