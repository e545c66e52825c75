//! A serial run under way.

ghost use Rattle.std.specs.Prelude.{◌≡◌, ◌≢◌, ◌<◌, ◌+◌, Some, None, OnOk, OnErr, length};
ghost use Rattle.team_run.specs.Names.{arrival, first_enabled, cause_of, Owes, state_of};
ghost use Rattle.team_run.specs.Serving.{Answers, OnlyUnheard, AreSame, ServesTo};
ghost use Rattle.team_run.specs.Standing.{StandsAt, StopsAt};

use crate::ran::Memory;
use omp_machine::Ready;
use omp_model::Cause;
use ompt_calls::{Call, Snapshot};
use step_book::{Book, Step};
use tool_api::ToolPart;

/// A serial run under way.
#[derive(Drop)]
pub(crate) struct SerialRun<P> {
    /// The history so far.
    pub book: Book,
    /// The parts, by thread.
    pub parts: Vec<P>,
    /// The thread at which the search for the next enabled one begins.
    pub next: u8,
}

impl<P: ToolPart> SerialRun<P> {
    /// Takes turns until no thread can go on, or there is no memory. It answers why the run ended.
    pub fn finish(&mut self) -> Cause
        requires stands { StandsAt self.old.book.run self.old.next self.old.book.history }
        requires parts { length self.old.parts.items ≡ self.old.book.run.threads }
        ensures run { self.new.book.run ≡ self.old.book.run }
        ensures serves { ServesTo P.stands_for self.new.book.run self.old.parts.items self.old.book.history
            self.new.parts.items self.new.book.history }
        ensures same { AreSame P.same self.old.parts.items self.new.parts.items }
        ensures stops { StopsAt self.new.book.run self.new.book.history }
        ensures stands { result ≢ Cause.Memory → StandsAt self.new.book.run self.new.next self.new.book.history }
        ensures over { result ≢ Cause.Memory →
            first_enabled self.new.book.run (state_of self.new.book) self.new.next ≡ None }
        ensures cause { result ≢ Cause.Memory → cause_of self.new.book.run self.new.book.history ≡ Some result }
    {
        while let Some(ready) = self.book.first_ready(self.next) {
            match self.visit(ready) {
                Ok(()) => {}
                Err(_) => return Cause::Memory,
            }
        }
        match self.book.cause() {
            Some(cause) => cause,
            None => unreachable!(),
        }
    }

    /// One turn of the thread, with its callback.
    fn visit(&mut self, ready: Ready) -> Result<(), Memory>
        requires stands { StandsAt self.old.book.run self.old.next self.old.book.history }
        requires turn { first_enabled self.old.book.run (state_of self.old.book) self.old.next ≡ Some ready.thread }
        requires arrival { ready.arrival ≡ arrival (state_of self.old.book).world ready.thread }
        requires parts { length self.old.parts.items ≡ self.old.book.run.threads }
        ensures run { self.new.book.run ≡ self.old.book.run }
        ensures serves { ServesTo P.stands_for self.new.book.run self.old.parts.items self.old.book.history
            self.new.parts.items self.new.book.history }
        ensures same { AreSame P.same self.old.parts.items self.new.parts.items }
        ensures stops { StopsAt self.new.book.run self.new.book.history }
        ensures stands { OnOk result (StandsAt self.new.book.run self.new.next self.new.book.history) }
        ensures turns { OnOk result ((state_of self.new.book).turns ≡ (state_of self.old.book).turns + 1) }
    {
        let thread = ready.thread;
        let step = self.book.go_ready(ready)?;
        self.next = thread + 1;
        match step {
            Step::Told(seq, call, snapshot) => self.serve(seq, thread, &call, snapshot),
            Step::Quiet | Step::NotYet | Step::Ended(_) => Ok(()),
        }
    }

    /// Calls the thread's part for its event, and adds what it stores and the return.
    fn serve(&mut self, seq: u32, thread: u8, call: &Call, snapshot: Snapshot) -> Result<(), Memory>
        requires part { thread < length self.old.parts.items }
        requires owes { Owes self.old.book.run self.old.book.history thread seq call.now snapshot }
        ensures run { self.new.book.run ≡ self.old.book.run }
        ensures next { self.new.next ≡ self.old.next }
        ensures same { AreSame P.same self.old.parts.items self.new.parts.items }
        ensures answers { OnOk result (Answers P.stands_for seq thread call.now snapshot
            self.old.parts.items self.old.book.history self.new.parts.items self.new.book.history) }
        ensures memory { OnErr result ((self.new.book ≡ self.old.book)
            × OnlyUnheard P.stands_for (Some thread) self.old.parts.items self.new.parts.items) }
    {
        let reply = self.parts[thread as usize].callback(seq, thread, call, &snapshot)?;
        self.book.answer(thread, &reply, &snapshot);
        self.book.reuse(snapshot);
        Ok(())
    }
}
