//! The book as it lies behind the lock.

ghost use Rattle.std.specs.Prelude.{◌≡◌, ◌<◌, [], true, if◌then◌else◌, Some, IfOk, OnErr};
ghost use Rattle.ompt_calls.specs.Snapshot.{stores_of};
ghost use Rattle.omp_model.specs.declared.cause.Cause.{Cause};
ghost use Rattle.omp_model.specs.Cause.{cause_of};
ghost use Rattle.omp_model.specs.Legal.{Legal, after};
ghost use Rattle.omp_model.specs.Storing.{event_reply};
ghost use Rattle.step_book.specs.Owing.{OwesAnswer, OwesStep};
ghost use Rattle.step_book.specs.Rule.{AllBelow, IsBeginning, entries_of};
ghost use Rattle.step_book.specs.Sharing.{AreOwn, VisitsAfterOthers, AddsHold, IsLockedBook, KeepsStep, holds_in, book_after};
ghost use Rattle.step_book.specs.Visit.{is_end};

use crate::book::Book;
use crate::closed::Closed;
use crate::name::BookName;
use crate::pass::Pass;
use crate::seats::{BookSeat, SharedCount, add_hold, give_pass, take_pass};
use crate::step::Step;
use omp_machine::Memory;
use omp_model::Cause;
use ompt_calls::{Reply, Snapshot};
use std::marker::{Model, PhantomData};
use thread_wakes::{Sleepers, Then, Woken};

/// A book with its seat at the table of its name. Contracts see the holds.
#[derive(Drop)]
pub(crate) struct LockedBook<K: BookName> {
    /// The book.
    pub book: Book,
    /// Its seat.
    pub seat: BookSeat,
    /// The threads that sleep.
    pub sleepers: Sleepers,
    /// Its name.
    pub of: PhantomData<K>,
}

impl<K: BookName> Model for LockedBook<K> {
    ghost use Rattle.std.specs.Prelude.{List};
    ghost use Rattle.step_book.specs.declared.hold.Hold.{Hold};
    ghost use Rattle.step_book.specs.Sharing.{IsLockedBook, holds_in};

    ghost Value = { List Hold };

    ghost view = { λ locked. holds_in locked.seat.me.0 };

    ghost invariant = { λ locked. IsLockedBook K.table locked.seat.table_id K.run locked.seat.me locked.book };
}

impl<K: BookName> LockedBook<K> {
    /// The book with its seat, before any thread sleeps of those that run on so many processors.
    pub fn new(book: Book, seat: BookSeat, processors: usize) -> LockedBook<K>
        requires { IsLockedBook K.table seat.table_id K.run seat.me book }
        ensures { result ≡ holds_in seat.me.0 }
    {
        LockedBook {
            book,
            seat,
            sleepers: Sleepers::new(processors),
            of: PhantomData,
        }
    }

    /// A visit of the pass's thread, as one hold.
    pub fn go(&mut self, count: &SharedCount, pass: &mut Pass<K>) -> Result<Step, Memory>
        requires table { count.now.table_id ≡ K.table }
        requires word { 0 < K.table.words }
        ensures ok { IfOk result (λ step. VisitsAfterOthers K.run pass.old step pass.new) }
        ensures told { IfOk result (λ step. KeepsStep pass.new step) }
        ensures owes { IfOk result (λ step.
            OwesStep (book_after K.run pass.new.seen pass.new.ended) pass.new.thread step) }
        ensures memory { OnErr result (AddsHold pass.old pass.new []) }
        ensures thread { pass.new.thread ≡ pass.old.thread }
        ensures ended { pass.new.ended ≡ pass.old.ended }
        ensures whole { self.new ≡ pass.new.seen }
    {
        take_pass(count, &mut self.seat, &mut pass.badge);
        let before = self.book.entries().len();
        let result = self.book.go(pass.thread);
        add_hold(count, &mut self.seat, &self.book.entries()[before..]);
        self.book.legal();
        give_pass(count, &mut self.seat, &mut pass.badge);
        let told_over = tells_over(&result);
        pass.told_over = told_over;
        result
    }

    /// The answer of the tool of the pass's thread, as one hold.
    pub fn answer(
        &mut self,
        count: &SharedCount,
        pass: &mut Pass<K>,
        reply: &Reply,
        snapshot: &Snapshot,
    )
        requires table { count.now.table_id ≡ K.table }
        requires word { 0 < K.table.words }
        requires owes { OwesAnswer (book_after K.run pass.old.seen pass.old.ended) pass.old.thread snapshot.now }
        ensures seen { AddsHold pass.old pass.new (event_reply pass.old.thread (stores_of reply.now snapshot.now)) }
        ensures thread { pass.new.thread ≡ pass.old.thread }
        ensures ended { pass.new.ended ≡ pass.old.ended }
        ensures whole { self.new ≡ pass.new.seen }
    {
        take_pass(count, &mut self.seat, &mut pass.badge);
        let before = self.book.entries().len();
        self.book.answer(pass.thread, reply, snapshot);
        add_hold(count, &mut self.seat, &self.book.entries()[before..]);
        self.book.legal();
        give_pass(count, &mut self.seat, &mut pass.badge);
        self.sleepers.answered();
    }

    /// The snapshot isn't used any more. The next one takes its place in memory.
    pub fn reuse(&mut self, snapshot: Snapshot)
        ensures { self.new ≡ self.old }
    {
        self.book.reuse(snapshot);
    }

    /// The pass ends the run for want of memory, as one hold.
    pub fn end_memory(&mut self, count: &SharedCount, pass: &mut Pass<K>)
        requires table { count.now.table_id ≡ K.table }
        requires word { 0 < K.table.words }
        ensures seen { AddsHold pass.old pass.new [] }
        ensures thread { pass.new.thread ≡ pass.old.thread }
        ensures ended { pass.new.ended ≡ true }
        ensures whole { self.new ≡ pass.new.seen }
    {
        take_pass(count, &mut self.seat, &mut pass.badge);
        self.book.end_memory();
        let entries = self.book.entries();
        add_hold(count, &mut self.seat, &entries[entries.len()..]);
        self.book.legal();
        give_pass(count, &mut self.seat, &mut pass.badge);
        pass.ended = true;
    }

    /// The end of a hold of the thread, which then does this. It answers which threads wake. An answer alone needs no such end: who wakes for
    /// it is seen at the end of a later hold.
    pub fn wake(&mut self, thread: u8, next: Then) -> Woken
        ensures { self.new ≡ self.old }
    {
        let LockedBook { book, sleepers, .. } = self;
        sleepers.wake(thread, next, |other| book.has_turn(other))
    }

    /// Compares what the pass has seen with all holds.
    pub fn check(&mut self, count: &SharedCount, pass: &mut Pass<K>)
        requires table { count.now.table_id ≡ K.table }
        requires word { 0 < K.table.words }
        ensures book { self.new ≡ self.old }
        ensures pass { pass.new ≡ pass.old }
        ensures begins { IsBeginning pass.old.thread pass.old.seen self.old }
        ensures below { AllBelow K.run.threads self.old }
    {
        take_pass(count, &mut self.seat, &mut pass.badge);
        give_pass(count, &mut self.seat, &mut pass.badge);
    }

    /// What the book has come to, where a pass has ended the run for want of memory, or none has.
    pub fn close(self, ended: bool) -> Closed
        ensures history { result.history ≡ entries_of self }
        ensures legal { Legal K.run result.history }
        ensures own { AreOwn self }
        ensures text { result.text.items ≡ (after K.run result.history).world.store.text }
        ensures cause { result.cause ≡ (if ended then Some Cause.Memory else cause_of K.run result.history) }
    {
        let LockedBook { book, .. } = self;
        book.legal();
        let cause = if ended {
            Some(Cause::Memory)
        } else {
            book.cause()
        };
        let Closed { history, text, .. } = book.close();
        Closed {
            history,
            text,
            cause,
        }
    }
}

/// Whether a visit that came to this told that the run is over.
fn tells_over(came: &Result<Step, Memory>) -> bool
    ensures { IfOk came.now (λ step. result ≡ is_end step) }
{
    matches!(came, Ok(Step::Ended(_)))
}
