//! A book that threads share.

ghost use Rattle.std.specs.Prelude.{◌≡◌, ◌<◌, ℕ, [], true, false, if◌then◌else◌, None, Some, IfOk, OnErr, OnOk, length, get_or};
ghost use Rattle.std.specs.Result.{IsOk};
ghost use Rattle.ompt_calls.specs.Snapshot.{stores_of};
ghost use Rattle.omp_model.specs.declared.cause.Cause.{Cause};
ghost use Rattle.omp_model.specs.Cause.{cause_of};
ghost use Rattle.omp_model.specs.Legal.{after};
ghost use Rattle.omp_model.specs.Storing.{event_reply};
ghost use Rattle.step_book.specs.declared.step.Step.{Step};
ghost use Rattle.step_book.specs.declared.view.SeatView.TheVariants.{OfBook};
ghost use Rattle.step_book.specs.Owing.{OwesAnswer, OwesStep};
ghost use Rattle.step_book.specs.Sharing.{AnswersThen, VisitsAfterOthers, AddsHold, IsClosed, KeepsStep, PassView, any_ended, fresh_pass, book_after};

use crate::blank::Blank;
use crate::closed::Closed;
use crate::locked_book::LockedBook;
use crate::name::BookName;
use crate::pass::Pass;
use crate::seats::{BookSeat, CountTable, SharedCount, new_pass};
use crate::step::Step;
use omp_machine::Memory;
use omp_model::Cause;
use ompt_calls::{Reply, Snapshot};
use std::alloc::Global;
use std::marker::PhantomData;
use std::sync::{Mutex, Wait};
use thread_wakes::{Bells, Then};

/// The book of this name, behind a lock. Each thread has a [`Pass`] to it.
///
/// A call takes the lock once, for one hold or for two ([`SharedBook::answer_and_go`]). [`SharedBook::sleep`] and [`SharedBook::poll`] don't take
/// it, nor does `go` of a pass that has ended the run. What a hold adds and answers is what the book says after all holds before it: those that
/// the pass had seen, and then other threads' alone. No tool is called under the lock.
#[derive(Drop)]
pub struct SharedBook<K: BookName> {
    /// The table of the word that counts the entries.
    words: CountTable,
    /// The book with its seat.
    locked: Mutex<LockedBook<K>>,
    /// What wakes the threads.
    bells: Bells,
    ghost named: { words.shared.table_id ≡ K.table },
    ghost some: { 0 < K.table.words },
}

impl<K: BookName> SharedBook<K> {
    /// Shares the book of this name, and gives a pass for each thread, in order, which has seen nothing.
    ///
    /// How many processors the threads may run on is for the pace alone: on one or two, fewer of those that wait stay ready for their turn.
    pub fn start(
        alloc: Global,
        blank: Blank,
        processors: usize,
    ) -> Result<(SharedBook<K>, Vec<Pass<K>>), Memory>
        requires table { blank.table ≡ K.table }
        requires run { blank.run ≡ K.run }
        ensures count { IfOk result (λ made. length made.1.items ≡ K.run.threads) }
        ensures passes { IfOk result (λ made. (k : ℕ) (d : PassView) → k < K.run.threads →
            get_or made.1.items k d ≡ fresh_pass k) }
    {
        let Blank {
            words,
            mut seat,
            book,
        } = blank;
        let passes = make_passes(alloc, &words.shared, &mut seat, book.threads())?;
        let bells = Bells::new(alloc, book.threads())?;
        let locked = Mutex::new(LockedBook::new(book, seat, processors));
        Ok((
            SharedBook {
                words,
                locked,
                bells,
            },
            passes,
        ))
    }

    /// A visit of the pass's thread: it takes a turn, where it may and the run hasn't ended.
    ///
    /// A pass that has ended the run for want of memory is told so, and has no hold. That another one has ended it is told as `Ended(Memory)`
    /// too. Where there is no memory the hold has no entry.
    pub fn go(&self, rt: &impl Wait, pass: &mut Pass<K>) -> Result<Step, Memory>
        ensures over { pass.old.ended ≡ true → (pass.new ≡ pass.old) × IsOk result ×
            IfOk result (λ step. step ≡ Step.Ended Cause.Memory) }
        ensures ok { pass.old.ended ≡ false → IfOk result (λ step. VisitsAfterOthers K.run pass.old step pass.new) }
        ensures told { IfOk result (λ step. KeepsStep pass.new step) }
        ensures owes { IfOk result (λ step.
            OwesStep (book_after K.run pass.new.seen pass.new.ended) pass.new.thread step) }
        ensures memory { OnErr result (AddsHold pass.old pass.new []) }
        ensures thread { pass.new.thread ≡ pass.old.thread }
        ensures ended { pass.new.ended ≡ pass.old.ended }
    {
        if pass.ended() {
            return Ok(Step::Ended(Cause::Memory));
        }
        let (result, woken) = {
            let mut locked = self.locked.lock(rt);
            let result = locked.go(&self.words.shared, pass);
            let woken = locked.wake(pass.thread(), self.then_of(pass, &result));
            (result, woken)
        };
        self.bells.ring(pass.thread(), &woken);
        result
    }

    /// The answer of the tool of the pass's thread, where it is owed. No memory is taken.
    pub fn answer(&self, rt: &impl Wait, pass: &mut Pass<K>, reply: &Reply, snapshot: &Snapshot)
        requires { OwesAnswer (book_after K.run pass.old.seen pass.old.ended) pass.old.thread snapshot.now }
        ensures seen { AddsHold pass.old pass.new (event_reply pass.old.thread (stores_of reply.now snapshot.now)) }
        ensures thread { pass.new.thread ≡ pass.old.thread }
        ensures ended { pass.new.ended ≡ pass.old.ended }
    {
        let mut locked = self.locked.lock(rt);
        locked.answer(&self.words.shared, pass, reply, snapshot);
    }

    /// The answer of the tool of the pass's thread, where it is owed, and then a visit of the thread, as two holds between which the lock isn't
    /// given back.
    ///
    /// The answer takes no memory. Where there is none for the visit its hold has no entry.
    pub fn answer_and_go(
        &self,
        rt: &impl Wait,
        pass: &mut Pass<K>,
        reply: &Reply,
        snapshot: Snapshot,
    ) -> Result<Step, Memory>
        requires { OwesAnswer (book_after K.run pass.old.seen pass.old.ended) pass.old.thread snapshot }
        ensures ok { IfOk result (λ step.
            AnswersThen pass.old (event_reply pass.old.thread (stores_of reply.now snapshot)) (λ answered.
            VisitsAfterOthers K.run answered step pass.new)) }
        ensures told { IfOk result (λ step. KeepsStep pass.new step) }
        ensures owes { IfOk result (λ step.
            OwesStep (book_after K.run pass.new.seen pass.new.ended) pass.new.thread step) }
        ensures memory { OnErr result (AnswersThen pass.old (event_reply pass.old.thread (stores_of reply.now snapshot))
            (λ answered. AddsHold answered pass.new [])) }
        ensures thread { pass.new.thread ≡ pass.old.thread }
        ensures ended { pass.new.ended ≡ pass.old.ended }
    {
        let (result, woken) = {
            let mut locked = self.locked.lock(rt);
            locked.answer(&self.words.shared, pass, reply, &snapshot);
            locked.reuse(snapshot);
            let result = locked.go(&self.words.shared, pass);
            let woken = locked.wake(pass.thread(), self.then_of(pass, &result));
            (result, woken)
        };
        self.bells.ring(pass.thread(), &woken);
        result
    }

    /// The pass ends the run for want of memory. No memory is taken.
    pub fn end_memory(&self, rt: &impl Wait, pass: &mut Pass<K>)
        ensures seen { AddsHold pass.old pass.new [] }
        ensures thread { pass.new.thread ≡ pass.old.thread }
        ensures ended { pass.new.ended ≡ true }
    {
        let woken = {
            let mut locked = self.locked.lock(rt);
            locked.end_memory(&self.words.shared, pass);
            locked.wake(pass.thread(), Then::IsOver)
        };
        self.bells.ring(pass.thread(), &woken);
    }

    /// Sleeps, where the last call of the pass told it not yet, until the thread is woken. It is where it may go on or the run is over, but not at
    /// once where others that may go on are woken first. It may wake earlier, to look for itself. No clause says that it wakes.
    pub fn sleep(&self, rt: &impl Wait, pass: &Pass<K>) {
        self.bells.sleep(rt, pass.thread());
    }

    /// The pass's thread never sleeps from now on: it visits the book again and again. So no other thread counts on it while it does something
    /// else.
    pub fn poll(&self, pass: &Pass<K>) {
        self.bells.poll(pass.thread());
    }

    /// What the pass's thread does next whose visit came to this.
    fn then_of(&self, pass: &Pass<K>, came: &Result<Step, Memory>) -> Then {
        match came {
            Ok(Step::NotYet) if self.bells.polls(pass.thread()) => Then::Polls,
            Ok(Step::NotYet) => Then::Sleeps,
            Ok(Step::Ended(_)) => Then::IsOver,
            Ok(Step::Told(..) | Step::Quiet) | Err(_) => Then::GoesOn,
        }
    }

    /// What the book has come to, with the passes of all threads, in order.
    pub fn close(self, mut passes: Vec<Pass<K>>) -> Closed
        requires some { 0 < K.run.threads }
        requires count { length passes.items ≡ K.run.threads }
        requires order { (k : ℕ) (d : PassView) → k < K.run.threads → (get_or passes.items k d).thread ≡ k }
        ensures closed { IsClosed K.run passes.items result.history }
        ensures text { result.text.items ≡ (after K.run result.history).world.store.text }
        ensures cause { result.cause ≡ (if any_ended passes.items then Some Cause.Memory
            else cause_of K.run result.history) }
    {
        let SharedBook { words, locked, .. } = self;
        let mut locked = locked.into_inner();
        for place in 0..passes.len() {
            locked.check(&words.shared, &mut passes[place]);
        }
        let ended = any_ended(&passes);
        locked.close(ended)
    }
}

/// Makes a pass for each thread, in order.
fn make_passes<K: BookName>(
    alloc: Global,
    count: &SharedCount,
    seat: &mut BookSeat,
    threads: u8,
) -> Result<Vec<Pass<K>>, Memory>
    requires word { 0 < count.now.table_id.words }
    requires table { count.now.table_id ≡ K.table }
    requires threads { threads ≡ K.run.threads }
    requires seat { seat.old.table_id ≡ count.now.table_id }
    requires view { seat.old.me ≡ (OfBook [] 0 None, []) }
    ensures seat { seat.new.table_id ≡ count.now.table_id }
    ensures view { OnOk result (seat.new.me ≡ (OfBook [] threads None, [])) }
    ensures count { IfOk result (λ passes. length passes.items ≡ threads) }
    ensures passes { IfOk result (λ passes. (k : ℕ) (d : PassView) → k < threads →
        get_or passes.items k d ≡ fresh_pass k) }
{
    let mut passes = Vec::new(alloc);
    for thread in 0..threads {
        let badge = new_pass(count, seat);
        passes.push(Pass {
            badge,
            thread,
            ended: false,
            told_over: false,
            of: PhantomData,
        })?;
    }
    Ok(passes)
}

/// Whether a pass has ended the run for want of memory.
fn any_ended<K: BookName>(passes: &[Pass<K>]) -> bool
    ensures { result ≡ any_ended passes.now }
{
    let mut ended = false;
    for pass in passes {
        ended = ended || pass.ended();
    }
    ended
}
