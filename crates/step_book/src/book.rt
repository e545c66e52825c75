//! A book: the history of a run, with a machine that has come to its end.

ghost use Rattle.std.specs.Prelude.{◌≡◌, ◌≤◌, ◌<◌, ◌+◌, ◌++◌, ◌∷◌, [], Option, Some, if◌then◌else◌, IfOk, IfSome, OnOk, OnErr, IsSome, IsTrue, is_some, true, false};
ghost use Rattle.std.specs.Option.{option_map};
ghost use Rattle.ompt_calls.specs.Snapshot.{stored_of, stores_of};
ghost use Rattle.omp_model.specs.declared.cause.Cause.{Cause};
ghost use Rattle.omp_model.specs.State.{Run, pending_at};
ghost use Rattle.omp_model.specs.Cause.{cause_of};
ghost use Rattle.omp_model.specs.Gates.{arrival};
ghost use Rattle.omp_model.specs.Legal.{Legal, back};
ghost use Rattle.omp_model.specs.Serial.{first_enabled};
ghost use Rattle.omp_model.specs.Storing.{MayStore, back_at, event_reply, put_all, puts_at};
ghost use Rattle.omp_model.specs.Turn.{enabled};
ghost use Rattle.step_book.specs.Owing.{OwesAnswer, OwesStep};
ghost use Rattle.step_book.specs.BookView.{BookView, state_of, with_entries};
ghost use Rattle.step_book.specs.Visit.{idle_step, is_turn, turn_visit, visit};

use crate::closed::Closed;
use crate::step::Step;
use c_check::Program;
use kept_room::Roomy;
use omp_machine::{Limits, Machine, Memory, Ready, Went};
use omp_model::{Cause, Entry, What};
use ompt_calls::{Reply, Sequence, Snapshot, Store};
use std::alloc::Global;
use std::marker::Model;

/// The most entries of a turn with its answer: its Go, three stores and its Back.
const ENTRIES_OF_A_TURN: usize = 5;

/// The most entries of an answer: three stores and a Back.
const ENTRIES_OF_AN_ANSWER: usize = 4;

/// The history of a run under way. Contracts see the run, the history so far, and whether the run was ended for want of memory.
///
/// A thread owes an answer where it is inside a callback after the history.
#[derive(Drop)]
pub struct Book {
    /// The machine, after the last entry.
    machine: Machine,
    /// The entries so far, with room for each answer that is owed.
    entries: Roomy<Entry>,
    /// How many answers are owed.
    owing: usize,
    /// Whether the run was ended for want of memory.
    ended: bool,
}

impl Model for Book {
    ghost use Rattle.step_book.specs.BookView.{BookView, book_view_code};
    ghost use Rattle.step_book.specs.Sound.{IsBook};

    ghost Value = { BookView };

    ghost coded = { book_view_code };

    ghost view = { λ book. record { run = book.machine.run; history = book.entries.list; ended = book.ended } };

    ghost invariant = { λ book. IsBook book.machine.run book.machine.state book.entries book.owing };
}

impl Book {
    /// The book of a run before its first entry: the program with the callbacks of the mask registered (bit n for number n),
    /// and so many threads and silent steps.
    pub fn start(alloc: Global, program: Program, mask: u64, limits: Limits) -> Result<Book, Memory>
        ensures { IfOk result (λ book. book ≡ (let run : Run = record {
          program = program;
          mask = mask;
          threads = limits.threads;
          steps = limits.steps;
        } in record { run = run; history = []; ended = false })) }
    {
        let machine = Machine::new(alloc, program, mask, limits)?;
        Ok(Book {
            machine,
            entries: Roomy::new(alloc),
            owing: 0,
            ended: false,
        })
    }

    /// A visit of the thread: it takes a turn, where it may and the run hasn't ended.
    ///
    /// Where there is no memory nothing has changed.
    pub fn go(&mut self, thread: u8) -> Result<Step, Memory>
        requires { thread < self.old.run.threads }
        ensures step { IfOk result (λ step. step ≡ (visit self.old thread).step) }
        ensures added { OnOk result (self.new ≡ with_entries self.old (visit self.old thread).added) }
        ensures owes { IfOk result (λ step. OwesStep self.new thread step) }
        ensures memory { OnErr result (self.new ≡ self.old) }
    {
        match self.ready(thread) {
            Some(ready) => self.go_ready(ready),
            None => Ok(self.idle_step()),
        }
    }

    /// The thread with what it comes to, where its visit is a turn.
    fn ready(&self, thread: u8) -> Option<Ready>
        requires { thread < self.now.run.threads }
        ensures turn { is_some result ≡ is_turn self.now thread }
        ensures thread { IfSome result (λ ready. ready.thread ≡ thread) }
        ensures arrival { IfSome result (λ ready. ready.arrival ≡ arrival (state_of self.now).world thread) }
    {
        if self.ended || self.machine.whole().is_some() {
            return None;
        }
        self.machine.ready(thread)
    }

    /// What a thread is told whose visit is no turn.
    fn idle_step(&self) -> Step
        ensures { result ≡ idle_step self.now }
    {
        if self.ended {
            return Step::Ended(Cause::Memory);
        }
        match self.machine.cause() {
            Some(cause) => Step::Ended(cause),
            None => Step::NotYet,
        }
    }

    /// The first enabled thread from `next` on, round and round, with what it comes to.
    pub fn first_ready(&self, next: u8) -> Option<Ready>
        requires { next ≤ self.now.run.threads }
        ensures thread { option_map (λ (ready : Ready). ready.thread) result ≡
            first_enabled self.now.run (state_of self.now) next }
        ensures arrival { IfSome result (λ ready. ready.arrival ≡ arrival (state_of self.now).world ready.thread) }
    {
        self.machine.first_ready(next)
    }

    /// A turn of an enabled thread, where it is known to what it comes.
    ///
    /// Where there is no memory nothing has changed.
    #[inline(always)]
    pub fn go_ready(&mut self, ready: Ready) -> Result<Step, Memory>
        requires thread { ready.thread < self.old.run.threads }
        requires enabled { IsTrue (enabled (state_of self.old) ready.thread) }
        requires arrival { ready.arrival ≡ arrival (state_of self.old).world ready.thread }
        ensures step { IfOk result (λ step. step ≡ (turn_visit self.old ready.thread).step) }
        ensures added { OnOk result (self.new ≡ with_entries self.old (turn_visit self.old ready.thread).added) }
        ensures owes { IfOk result (λ step. OwesStep self.new ready.thread step) }
        ensures memory { OnErr result (self.new ≡ self.old) }
    {
        let answers = ENTRIES_OF_AN_ANSWER * self.owing;
        self.entries.reserve(ENTRIES_OF_A_TURN + answers)?;
        let seq = self.entries.len() as u32;
        let thread = ready.thread;
        let went = self.machine.go_ready(ready)?;
        self.entries.push(Entry {
            thread,
            what: What::Go,
        });
        match went {
            Went::Told(call, snapshot) => {
                self.owing += 1;
                Ok(Step::Told(seq, call, snapshot))
            }
            Went::Untold => {
                put_back(&mut self.machine, &mut self.entries, thread);
                Ok(Step::Quiet)
            }
            Went::Quiet => Ok(Step::Quiet),
            Went::Trapped(number) => Ok(Step::Ended(Cause::Trapped(number))),
            Went::Limit(number) => Ok(Step::Ended(Cause::Limit(number))),
        }
    }

    /// The answer of the thread's tool: what it stores, where it takes effect, and the return of its callback. No memory is taken.
    #[inline(always)]
    pub fn answer(&mut self, thread: u8, reply: &Reply, snapshot: &Snapshot)
        requires { OwesAnswer self.old thread snapshot.now }
        ensures { self.new ≡ with_entries self.old (event_reply thread (stores_of reply.now snapshot.now)) }
    {
        let Book {
            machine,
            entries,
            ..
        } = self;
        put_store(machine, entries, thread, reply.first, snapshot);
        put_store(machine, entries, thread, reply.second, snapshot);
        put_store(machine, entries, thread, reply.third, snapshot);
        put_back(machine, entries, thread);
        self.owing -= 1;
    }

    /// The snapshot isn't used any more. The next one takes its place in memory.
    pub fn reuse(&mut self, snapshot: Snapshot)
        ensures { self.new ≡ self.old }
    {
        self.machine.reuse(snapshot);
    }

    /// The run ends for want of memory. The history stays as it is, and no memory is taken.
    pub fn end_memory(&mut self)
        ensures { self.new ≡ record self.old { ended = true } }
    {
        self.ended = true;
    }

    /// The cause in which the history ends, if it does.
    pub fn cause(&self) -> Option<Cause>
        ensures { result ≡ cause_of self.now.run self.now.history }
    {
        self.machine.cause()
    }

    /// Whether a visit of the thread would be a turn, where the run isn't over. No clause says so.
    pub(crate) fn has_turn(&self, thread: u8) -> bool {
        self.machine.enabled(thread)
    }

    /// How many threads there may be.
    pub fn threads(&self) -> u8
        ensures { result ≡ self.now.run.threads }
    {
        self.machine.threads()
    }

    /// The entries so far.
    pub fn entries(&self) -> &[Entry]
        ensures { result.now ≡ self.now.history }
    {
        self.entries.items()
    }

    /// The history is legal.
    pub fn legal(&self)
        ensures { Legal self.now.run self.now.history }
    {
        let _opened = self.ended;
    }

    /// What the book has come to. No memory is taken.
    pub fn close(self) -> Closed
        ensures history { result.history ≡ self.history }
        ensures text { result.text.items ≡ (state_of self).world.store.text }
        ensures cause { result.cause ≡ (if self.ended then Some Cause.Memory else cause_of self.run self.history) }
    {
        let cause = if self.ended {
            Some(Cause::Memory)
        } else {
            self.machine.cause()
        };
        Closed {
            history: Sequence(self.entries.into_items()),
            text: self.machine.into_text(),
            cause,
        }
    }
}

/// The tool of the thread's event stores this, where it takes effect.
#[inline(always)]
fn put_store(
    machine: &mut Machine,
    entries: &mut Roomy<Entry>,
    thread: u8,
    store: Option<Store>,
    snapshot: &Snapshot,
)
    requires room { 0 < entries.old.free }
    requires may { MayStore machine.old.run machine.old.state thread (stored_of snapshot.now store) }
    ensures machine { machine.new ≡
        record machine.old { state = put_all machine.old.state thread (stored_of snapshot.now store) } }
    ensures entries { entries.new.list ≡ entries.old.list ++ puts_at thread (stored_of snapshot.now store) }
    ensures room { entries.old.free ≤ entries.new.free + 1 }
{
    let Some(store) = store else {
        return;
    };
    let Some(target) = snapshot.target(store.place) else {
        return;
    };
    machine.put(thread, target, store.word);
    entries.push(Entry {
        thread,
        what: What::Put(target, store.word),
    });
}

/// The callback of the thread's event has returned.
#[inline(always)]
fn put_back(machine: &mut Machine, entries: &mut Roomy<Entry>, thread: u8)
    requires room { 0 < entries.old.free }
    requires inside { IsSome (pending_at machine.old.state thread) }
    ensures machine { machine.new ≡ record machine.old { state = back machine.old.state thread } }
    ensures entries { entries.new.list ≡ entries.old.list ++ back_at thread ∷ [] }
    ensures room { entries.old.free ≤ entries.new.free + 1 }
{
    machine.back(thread);
    entries.push(Entry {
        thread,
        what: What::Back,
    });
}
