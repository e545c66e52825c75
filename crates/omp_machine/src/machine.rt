//! The machine that runs the program.

ghost use Rattle.std.specs.Prelude.{◌≡◌, ◌≤◌, IfOk, IfSome, OnOk, OnErr, IsSome, IsTrue, is_some, ◌-◌};
ghost use Rattle.std.specs.Option.{option_map};
ghost use Rattle.omp_model.specs.State.{Run, first, pending_at};
ghost use Rattle.omp_model.specs.Gates.{arrival};
ghost use Rattle.omp_model.specs.Turn.{turn, enabled};
ghost use Rattle.omp_model.specs.Words.{is_made};
ghost use Rattle.omp_model.specs.Legal.{back, may, put};
ghost use Rattle.omp_model.specs.declared.history.What.TheVariants.{Put};
ghost use Rattle.omp_model.specs.Serial.{enabled_among, first_enabled};
ghost use Rattle.omp_model.specs.Cause.{whole_value, is_stuck, cause_of_value, cause_of_halt, cause_in};
ghost use Rattle.omp_machine.specs.MachineView.{MachineView, went_of, is_call};

use crate::limits::Limits;
use crate::ready::Ready;
use crate::settings::Settings;
use crate::state::State;
use crate::went::Went;
use c_check::Program;
use omp_board::Levels;
use omp_model::{Cause, Halt};
use ompt_calls::{Snapshot, Target};
use std::alloc::Global;
use std::marker::Model;

/// The error of a call that found no memory.
pub type Memory = std::alloc::AllocError;

/// The machine of a run. Contracts see its run, and the state that it has come to.
#[derive(Drop)]
pub struct Machine {
    /// Where its memory comes from.
    alloc: Global,
    /// What fixes its run, beside the program.
    settings: Settings,
    /// What the run has come to.
    state: State,
    /// Room for the levels of the next snapshot, if there is some.
    levels: Option<Levels>,
}

impl Model for Machine {
    ghost use Rattle.omp_machine.specs.State.{run_in};
    ghost use Rattle.omp_machine.specs.MachineView.{MachineView, IsSound, standing_code};

    ghost Value = { MachineView };

    ghost coded = { standing_code };

    ghost view = { λ machine. record {
      run = run_in machine.state.program machine.settings;
      state = machine.state.state;
    } };

    ghost invariant = { λ machine. IsSound (run_in machine.state.program machine.settings) machine.state.state };
}

impl Machine {
    /// The machine of the program in its first state, with the callbacks of the mask registered (bit n for number n), and so many threads and
    /// silent steps.
    pub fn new(
        alloc: Global,
        program: Program,
        mask: u64,
        limits: Limits,
    ) -> Result<Machine, Memory>
        ensures { IfOk result (λ machine. machine ≡ (let run : Run = record {
          program = program;
          mask = mask;
          threads = limits.threads;
          steps = limits.steps;
        } in record { run = run; state = first run })) }
    {
        let settings = Settings { mask, limits };
        let state = State::new(alloc, program, settings)?;
        Ok(Machine {
            alloc,
            settings,
            state,
            levels: None,
        })
    }

    /// How many threads there may be.
    pub fn threads(&self) -> u8
        ensures { result ≡ self.now.run.threads }
    {
        self.settings.limits.threads
    }

    /// Whether the thread may begin a turn.
    pub fn enabled(&self, thread: u8) -> bool
        ensures { result ≡ enabled self.now.state thread }
    {
        self.state.enabled(thread)
    }

    /// Whether the thread is inside a callback.
    pub fn pending(&self, thread: u8) -> bool
        ensures { result ≡ is_some (pending_at self.now.state thread) }
    {
        self.state.pending(thread).is_some()
    }

    /// Whether a trap or a limit halted the run.
    pub fn halted(&self) -> bool
        ensures { result ≡ is_some self.now.state.halt }
    {
        self.state.halt().is_some()
    }

    /// Main's value, where every thread that was made has ended and main returned.
    pub fn whole(&self) -> Option<i32>
        ensures { result ≡ whole_value self.now.state.world }
    {
        self.state.whole_value()
    }

    /// Whether no thread can go on, though the run isn't halted and isn't whole.
    pub fn stuck(&self) -> bool
        ensures { result ≡ is_stuck self.now.run self.now.state }
    {
        self.enabled_among(0, self.settings.limits.threads)
            .is_none()
            && self.state.none_pending()
            && self.state.halt().is_none()
            && self.whole().is_none()
    }

    /// The first enabled thread from `next` on, round and round.
    pub fn first_enabled(&self, next: u8) -> Option<u8>
        requires { next ≤ self.now.run.threads }
        ensures { result ≡ first_enabled self.now.run self.now.state next }
    {
        let ready = self.first_ready(next)?;
        Some(ready.thread)
    }

    /// The first enabled thread from `from` on, before `end`.
    fn enabled_among(&self, from: u8, end: u8) -> Option<u8>
        ensures { result ≡ enabled_among self.now.state from (end - from) }
    {
        let ready = self.ready_among(from, end)?;
        Some(ready.thread)
    }

    /// The first enabled thread from `next` on, round and round, with what it comes to.
    pub fn first_ready(&self, next: u8) -> Option<Ready>
        requires { next ≤ self.now.run.threads }
        ensures thread { option_map (λ (ready : Ready). ready.thread) result ≡
            first_enabled self.now.run self.now.state next }
        ensures arrival { IfSome result (λ ready. ready.arrival ≡ arrival self.now.state.world ready.thread) }
    {
        match self.ready_among(next, self.settings.limits.threads) {
            Some(ready) => Some(ready),
            None => self.ready_among(0, next),
        }
    }

    /// The first enabled thread from `from` on, before `end`, with what it comes to.
    fn ready_among(&self, from: u8, end: u8) -> Option<Ready>
        ensures thread { option_map (λ (ready : Ready). ready.thread) result ≡
            enabled_among self.now.state from (end - from) }
        ensures arrival { IfSome result (λ ready. ready.arrival ≡ arrival self.now.state.world ready.thread) }
    {
        for thread in from..end {
            match self.ready(thread) {
                Some(ready) => return Some(ready),
                None => {}
            }
        }
        None
    }

    /// The thread with what it comes to, where it may begin a turn.
    pub fn ready(&self, thread: u8) -> Option<Ready>
        ensures enabled { is_some result ≡ enabled self.now.state thread }
        ensures thread { IfSome result (λ ready. ready.thread ≡ thread) }
        ensures arrival { IfSome result (λ ready. ready.arrival ≡ arrival self.now.state.world thread) }
    {
        let arrival = self.state.ready(thread)?;
        Some(Ready { thread, arrival })
    }

    /// The cause in which the run has ended, if it has.
    pub fn cause(&self) -> Option<Cause>
        ensures { result ≡ cause_in self.now.run self.now.state }
    {
        match (self.state.halt(), self.whole()) {
            (Some(halt), _) => Some(cause_of_halt(halt)),
            (None, Some(value)) => Some(cause_of_value(value)),
            (None, None) => self.stuck().then_some(Cause::Deadlock),
        }
    }

    /// Does one turn of the thread, and tells what it came to.
    ///
    /// Where it finds no memory, nothing has changed.
    pub fn go(&mut self, thread: u8) -> Result<Went, Memory>
        requires { IsTrue (enabled self.old.state thread) }
        ensures turn { OnOk result (self.new ≡
            record self.old { state = (turn self.old.run self.old.state thread).state }) }
        ensures went { IfOk result (λ went. went ≡ went_of self.old.run self.old.state thread) }
        ensures waits { IfOk result (λ went. IsTrue (is_call went) → IsSome (pending_at self.new.state thread)) }
        ensures err { OnErr result (self.new ≡ self.old) }
    {
        let arrival = self.state.arrival(thread);
        self.go_ready(Ready { thread, arrival })
    }

    /// The same, where it is known to what the thread comes.
    pub fn go_ready(&mut self, ready: Ready) -> Result<Went, Memory>
        requires enabled { IsTrue (enabled self.old.state ready.thread) }
        requires arrival { ready.arrival ≡ arrival self.old.state.world ready.thread }
        ensures turn { OnOk result (self.new ≡
            record self.old { state = (turn self.old.run self.old.state ready.thread).state }) }
        ensures went { IfOk result (λ went. went ≡ went_of self.old.run self.old.state ready.thread) }
        ensures waits { IfOk result (λ went. IsTrue (is_call went) → IsSome (pending_at self.new.state ready.thread)) }
        ensures err { OnErr result (self.new ≡ self.old) }
    {
        reserve_levels(self.alloc, &mut self.levels)?;
        self.state.reserve(ready.thread)?;
        let outcome = self
            .state
            .turn(self.settings.limits.steps, ready.thread, ready.arrival);
        Ok(self.state.went(self.settings.mask, ready.thread, outcome, &mut self.levels))
    }

    /// The snapshot isn't used any more. The next one takes its place in memory.
    pub fn reuse(&mut self, snapshot: Snapshot)
        ensures { self.new ≡ self.old }
    {
        self.levels = Levels::again(snapshot.tasks, snapshot.regions);
    }

    /// Whether the thread, region or task whose data word this is was made.
    pub fn made(&self, target: Target) -> bool
        ensures { result ≡ is_made self.now.state.world target }
    {
        self.state.is_made(target)
    }

    /// The tool of the thread's event stores this into the data word. No memory is taken.
    pub fn put(&mut self, thread: u8, target: Target, word: u64)
        requires { IsTrue (may self.old.run self.old.state thread (Put target word)) }
        ensures { self.new ≡ record self.old { state = put self.old.state thread target word } }
    {
        self.state.put(thread, target, word);
    }

    /// The callback of the thread's event has returned, and the event's result takes hold.
    pub fn back(&mut self, thread: u8)
        requires { IsSome (pending_at self.old.state thread) }
        ensures { self.new ≡ record self.old { state = back self.old.state thread } }
    {
        self.state.back(thread);
    }

    /// The bytes that the program has printed so far.
    pub fn text(&self) -> &[u8]
        ensures { result.now ≡ self.now.state.world.store.text }
    {
        self.state.text()
    }

    /// The bytes that the program has printed.
    pub fn into_text(self) -> Vec<u8>
        ensures { result.items ≡ self.state.world.store.text }
    {
        self.state.into_text()
    }
}

/// Makes room for the levels of a snapshot, where there is none.
fn reserve_levels(alloc: Global, levels: &mut Option<Levels>) -> Result<(), Memory>
    ensures { OnOk result (IsSome levels.new) }
{
    if levels.is_none() {
        *levels = Some(Levels::new(alloc)?);
    }
    Ok(())
}

/// Main returned this.
fn cause_of_value(value: i32) -> Cause
    ensures { result ≡ cause_of_value value }
{
    if value == 0 {
        Cause::Done
    } else {
        Cause::Returned(value)
    }
}

/// What halted the run is why it ended.
fn cause_of_halt(halt: Halt) -> Cause
    ensures { result ≡ cause_of_halt halt }
{
    match halt {
        Halt::Trap(number) => Cause::Trapped(number),
        Halt::Limit(number) => Cause::Limit(number),
    }
}
