//! What a thread has seen of a shared book.

ghost use Rattle.std.specs.Prelude.{◌≡◌, ◌<◌};
ghost use Rattle.omp_model.specs.Legal.{Legal};
ghost use Rattle.step_book.specs.Rule.{entries_of};

use crate::name::BookName;
use crate::view::SeatView;
use atomic_table::Badge;
use std::marker::{Model, PhantomData};

/// The pass of a thread to the book of this name. Contracts see the thread, the holds that it has seen, whether it has ended the run for want of
/// memory, and whether its last visit told it that the run is over.
#[derive(Drop)]
pub struct Pass<K: BookName> {
    /// Its seat at the table, while no call is under way.
    pub(crate) badge: Badge<SeatView>,
    /// The thread's number, from 0.
    pub(crate) thread: u8,
    /// Whether it has ended the run for want of memory.
    pub(crate) ended: bool,
    /// Whether its last visit told it that the run is over.
    pub(crate) told_over: bool,
    /// The book that it is of.
    pub(crate) of: PhantomData<K>,
}

impl<K: BookName> Model for Pass<K> {
    ghost use Rattle.step_book.specs.Sharing.{IsPassOf, PassView, seen_in};
    ghost use Rattle.step_book.specs.Steps.{view_in};

    ghost Value = { PassView };

    ghost view = { λ pass. record {
      thread = pass.thread;
      seen = seen_in (view_in pass.badge.views);
      ended = pass.ended;
      told_over = pass.told_over;
    } };

    ghost invariant = { λ pass. IsPassOf K.table pass.badge.table_id K.run pass.badge.views pass.thread };
}

impl<K: BookName> Pass<K> {
    /// The number of its thread.
    pub fn thread(&self) -> u8
        ensures { result ≡ self.now.thread }
    {
        self.thread
    }

    /// Whether it has ended the run for want of memory.
    pub fn ended(&self) -> bool
        ensures { result ≡ self.now.ended }
    {
        self.ended
    }

    /// What it has seen is a legal history, and its thread is one of the run's.
    pub fn legal(&self)
        ensures legal { Legal K.run (entries_of self.now.seen) }
        ensures below { self.now.thread < K.run.threads }
    {
        let _opened = self.ended;
    }
}
