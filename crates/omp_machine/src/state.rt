//! A state of the machine, and the order of a turn.

ghost use Rattle.std.specs.Prelude.{ℕ, suc, true, ◌≡◌, ◌≤◌, ◌<◌, ◌+◌, ◌^◌, None, IfErr, IfOk, IfSome, IsSome, OnErr, OnOk, is_none, is_some, nat_le, replicate, slice_set};
ghost use Rattle.c_steps.specs.Scopes.{HasNumbers};
ghost use Rattle.omp_model.specs.State.{Run, first, pending_at};
ghost use Rattle.omp_model.specs.Cause.{none_pending, whole_value};
ghost use Rattle.omp_model.specs.Gates.{arrival};
ghost use Rattle.omp_model.specs.Legal.{back, put};
ghost use Rattle.omp_model.specs.MadeWorld.{IsMadeWorld};
ghost use Rattle.omp_model.specs.Members.{view_of};
ghost use Rattle.omp_model.specs.Turn as turns;
ghost use Rattle.omp_model.specs.declared.event.Arrival.TheVariants.{Steps};
ghost use Rattle.omp_model.specs.declared.limits.TheConstants.{STEPS_OF_A_TURN};
ghost use Rattle.omp_model.specs.Turn.{after_steps, called, enabled, state_past_masked, halted, stepped, turn, unlimited, walk};
ghost use Rattle.omp_model.specs.Words.{is_made};
ghost use Rattle.omp_board.specs.Board.{HasEvent, HasStep, HasStepsAhead, HasTurn, IsSilence};
ghost use Rattle.omp_board.specs.Tasks.{steps_ahead};
ghost use Rattle.omp_machine.specs.State.{HaveStepped, SameCounts, happened, run_in};
ghost use Rattle.omp_machine.specs.MachineView.{went_after};

use crate::settings::Settings;
use crate::went::{Went, told};
use c_check::Program;
use c_model::View;
use omp_board::{Board, Levels};
use omp_model::{
    Arrival, Callback, Event, Halt, Outcome, STEPS, STEPS_OF_A_TURN, STORE_LIMIT, TURN_LIMIT, TURNS,
};
use ompt_calls::Target;
use std::alloc::{AllocError, Global};
use std::marker::Model;

/// The silent steps of a turn.
#[derive(Clone, Copy)]
struct Walk {
    /// How many were made.
    made: u32,
    /// The trap or limit that stopped them.
    stop: Option<Halt>,
    /// What the thread comes to behind them, where that is known.
    next: Option<Arrival>,
}

/// A state of the machine. Contracts see beside it the program, and room for a turn.
#[derive(Drop)]
pub struct State {
    /// What turns change.
    board: Board,
    /// For each thread the callback that it is inside.
    pending: Vec<Option<Callback>>,
    /// How many silent steps were made so far.
    steps: u32,
    /// How many turns were begun so far.
    turns: u32,
    /// What halted the run.
    halt: Option<Halt>,
}

impl Model for State {
    ghost use Rattle.omp_machine.specs.State.{StateView, state_view_code};

    ghost Value = { StateView };

    ghost coded = { state_view_code };

    ghost view = { λ state. record {
      program = state.board.program;
      state = record {
        world = state.board.world;
        pending = state.pending.items;
        steps = state.steps;
        turns = state.turns;
        halt = state.halt;
      };
      room = state.board.room;
    } };
}

impl State {
    /// The first state of a program's run with these settings.
    pub fn new(alloc: Global, program: Program, settings: Settings) -> Result<State, AllocError>
        ensures program { IfOk result (λ state. state.program ≡ program) }
        ensures first { IfOk result (λ state. state.state ≡ first (run_in program settings)) }
    {
        let board = Board::new(alloc, program, settings.limits.threads)?;
        let pending = nobody(alloc, settings.limits.threads)?;
        Ok(State {
            board,
            pending,
            steps: 0,
            turns: 0,
            halt: None,
        })
    }

    /// The callback that the thread is inside.
    pub fn pending(&self, thread: u8) -> Option<Callback>
        ensures { result ≡ pending_at self.now.state thread }
    {
        match self.pending.get(thread as usize) {
            Some(callback) => *callback,
            None => None,
        }
    }

    /// What halted the run.
    pub fn halt(&self) -> Option<Halt>
        ensures { result ≡ self.now.state.halt }
    {
        self.halt
    }

    /// Main's value, where every thread that was made has ended and main returned.
    pub fn whole_value(&self) -> Option<i32>
        ensures { result ≡ whole_value self.now.state.world }
    {
        self.board.whole_value()
    }

    /// Whether no thread is inside a callback.
    pub fn none_pending(&self) -> bool
        ensures { result ≡ none_pending self.now.state }
    {
        self.pending.iter().all(|callback| callback.is_none())
    }

    /// Whether the thread may begin a turn.
    pub fn enabled(&self, thread: u8) -> bool
        ensures { result ≡ enabled self.now.state thread }
    {
        self.may_go(thread, self.arrival(thread))
    }

    /// Whether the thread is inside no callback.
    fn is_outside(&self, thread: u8) -> bool
        ensures { result ≡ is_none (pending_at self.now.state thread) }
    {
        match self.pending.get(thread as usize) {
            Some(callback) => callback.is_none(),
            None => true,
        }
    }

    /// Whether the thread, which comes to this, may begin a turn.
    #[tactic(auto, unfolding(omp_model::specs::Turn::enabled))]
    fn may_go(&self, thread: u8, next: Arrival) -> bool
        requires { next ≡ arrival self.now.state.world thread }
        ensures { result ≡ enabled self.now.state thread }
    {
        self.is_outside(thread) && self.halt.is_none() && goes_on(next)
    }

    /// What the thread comes to next, where it may begin a turn.
    pub fn ready(&self, thread: u8) -> Option<Arrival>
        ensures enabled { is_some result ≡ enabled self.now.state thread }
        ensures arrival { IfSome result (λ next. next ≡ arrival self.now.state.world thread) }
    {
        let next = self.arrival(thread);
        if self.may_go(thread, next) {
            Some(next)
        } else {
            None
        }
    }

    /// What the thread comes to next.
    pub fn arrival(&self, thread: u8) -> Arrival
        ensures { result ≡ arrival self.now.state.world thread }
    {
        self.board.arrival(thread)
    }

    /// Whether so many silent steps were made.
    fn is_spent(&self, limit: u32) -> bool
        ensures { result ≡ nat_le limit self.now.state.steps }
    {
        self.steps >= limit
    }

    /// How many silent steps may still be made in a turn that has made so many, where so many may be made in all.
    fn steps_left(&self, limit: u32, made: u32) -> u32
        requires within { made < STEPS_OF_A_TURN }
        requires unspent { self.now.state.steps < limit }
        ensures some { 0 < result }
        ensures turn { made + result ≤ STEPS_OF_A_TURN }
        ensures limit { self.now.state.steps + result ≤ limit }
    {
        (STEPS_OF_A_TURN - made).min(limit - self.steps)
    }

    /// What the code of the thread's current task sees.
    fn view(&self, thread: u8) -> View
        ensures view { result ≡ view_of self.now.state.world thread }
        ensures numbers { HasNumbers result }
    {
        self.board.view(thread)
    }

    /// Makes the silent step of the thread that stands next, or tells the trap or limit that it meets.
    fn step(&mut self, thread: u8, view: View) -> Result<(), Halt>
        requires next { arrival self.old.state.world thread ≡ Steps }
        requires view { view ≡ view_of self.old.state.world thread }
        requires numbers { HasNumbers view }
        requires room { HasStep self.old.room self.old.state.world thread }
        requires countable { self.old.state.steps + 1 < 2 ^ 32 }
        ensures silence { IsSilence self.old.program self.old.state.world thread result self.new.state.world }
        ensures counted { OnOk result (self.new.state ≡ stepped self.old.state self.new.state.world) }
        ensures halted { OnErr result (self.new.state ≡ state_past_masked self.old.state thread) }
        ensures program { self.new.program ≡ self.old.program }
        ensures room { self.new.room ≡ record self.old.room { steps = self.new.room.steps } }
        ensures steps { self.old.room.steps ≤ self.new.room.steps + 1 }
        ensures turn { HasTurn self.new.room self.new.state.world thread }
        ensures view { view ≡ view_of self.new.state.world thread }
    {
        self.board.step(thread, view)?;
        self.steps += 1;
        Ok(())
    }

    /// Makes silent steps of the thread one after another, at most so many, as long as each may be made without a look at what else the
    /// thread may come to, and answers how many it made.
    #[inline(always)]
    fn try_steps(&mut self, thread: u8, view: View, most: u32) -> u32
        requires view { view ≡ view_of self.old.state.world thread }
        requires numbers { HasNumbers view }
        requires room { HasStepsAhead self.old.room self.old.state.world thread most }
        requires countable { self.old.state.steps + most < 2 ^ 32 }
        ensures made { HaveStepped self.old thread result self.new }
        ensures most { result ≤ most }
    {
        let made = self.board.try_steps(thread, view, most);
        self.steps += made;
        made
    }

    /// Makes silent steps, at most as many as a turn may have.
    fn walk(&mut self, limit: u32, thread: u8) -> Walk
        requires room { HasEvent self.old.room self.old.state.world thread }
        requires steps { steps_ahead ≤ self.old.room.steps }
        ensures walk { (run : Run) → run.program ≡ self.old.program → run.steps ≡ limit →
            walk run STEPS_OF_A_TURN 0 self.old.state thread ≡ record {
              state = self.new.state;
              made = result.made;
              stop = result.stop;
            } }
        ensures next { IfSome result.next (λ next. next ≡ arrival self.new.state.world thread) }
        ensures room { HasEvent self.new.room self.new.state.world thread }
        ensures counts { SameCounts self.old.state self.new.state }
        ensures program { self.new.program ≡ self.old.program }
    {
        let view = self.view(thread);
        let mut made = 0;
        while made < STEPS_OF_A_TURN {
            if self.is_spent(limit) {
                return self.walk_spent(thread, made);
            }
            let most = self.steps_left(limit, made);
            let more = self.try_steps(thread, view, most);
            made += more;
            if more == most {
                continue;
            }
            match self.arrival(thread) {
                Arrival::Steps => {}
                next => {
                    return Walk {
                        made,
                        stop: None,
                        next: Some(next),
                    };
                }
            }
            if let Err(halt) = self.step(thread, view) {
                return Walk {
                    made,
                    stop: Some(halt),
                    next: None,
                };
            }
            made += 1;
        }
        Walk {
            made: STEPS_OF_A_TURN,
            stop: None,
            next: None,
        }
    }

    /// The end of a walk, after so many steps, where no more may be made in all.
    fn walk_spent(&self, thread: u8, made: u32) -> Walk
        ensures walk { (run : Run) (left : ℕ) → nat_le run.steps self.now.state.steps ≡ true →
            walk run (suc left) made self.now.state thread ≡ record {
              state = self.now.state;
              made = result.made;
              stop = result.stop;
            } }
        ensures next { IfSome result.next (λ next. next ≡ arrival self.now.state.world thread) }
    {
        match self.arrival(thread) {
            Arrival::Steps => Walk {
                made,
                stop: Some(Halt::Limit(STEPS)),
                next: None,
            },
            next => Walk {
                made,
                stop: None,
                next: Some(next),
            },
        }
    }

    /// The turn ends the run.
    fn halt_by(&mut self, halt: Halt) -> Outcome
        requires { self.old.state.turns < TURN_LIMIT }
        ensures halted { halted self.old.state halt ≡ record { outcome = result; state = self.new.state } }
        ensures program { self.new.program ≡ self.old.program }
    {
        self.turns += 1;
        self.halt = Some(halt);
        Outcome::Halts(halt)
    }

    /// The event has occurred, or met this trap or limit.
    fn happen(&mut self, thread: u8, went: Result<Event, Halt>) -> Outcome
        requires { self.old.state.turns < TURN_LIMIT }
        ensures happens { IfOk went (λ event. happened self.old.state thread event ≡ record {
          outcome = result;
          state = self.new.state;
        }) }
        ensures halts { IfErr went (λ halt. halted self.old.state halt ≡ record {
          outcome = result;
          state = self.new.state;
        }) }
        ensures program { self.new.program ≡ self.old.program }
    {
        match went {
            Ok(event) => {
                self.set_pending(thread, Some(called(event)));
                self.turns += 1;
                Outcome::Happens(event)
            }
            Err(halt) => self.halt_by(halt),
        }
    }

    /// The thread is inside this callback from now on, or inside none.
    fn set_pending(&mut self, thread: u8, callback: Option<Callback>)
        ensures { self.new ≡ record self.old
            { state = record self.old.state { pending = slice_set self.old.state.pending thread callback } } }
    {
        if let Some(place) = self.pending.get_mut(thread as usize) {
            *place = callback;
        }
    }

    /// What follows the silent steps of a turn, so many, where the thread comes to this.
    #[inline(always)]
    fn after_steps(&mut self, thread: u8, made: u32, next: Arrival) -> Outcome
        requires arrival { next ≡ arrival self.old.state.world thread }
        requires turns { self.old.state.turns < TURN_LIMIT }
        requires room { HasEvent self.old.room self.old.state.world thread }
        requires world { IsMadeWorld self.old.state.world }
        ensures turn { (run : Run) → run.program ≡ self.old.program →
            after_steps run self.old.state made thread (arrival self.old.state.world thread)
            ≡ record { outcome = result; state = self.new.state } }
        ensures program { self.new.program ≡ self.old.program }
    {
        match next {
            Arrival::Waits | Arrival::Steps => {
                if made > 0 {
                    self.turns += 1;
                    Outcome::Quiet
                } else {
                    Outcome::Idle
                }
            }
            Arrival::CodeEvent => {
                let went = self.board.begin_code_event(thread);
                self.happen(thread, went)
            }
            Arrival::RuntimeEvent(event) => {
                let went = self.board.begin_runtime_event(thread, event);
                self.happen(thread, went)
            }
        }
    }

    /// The turn of a thread that comes to this, but for the limit of turns.
    #[tactic(auto, unfolding(omp_model::specs::Turn::unlimited))]
    fn unlimited(&mut self, limit: u32, thread: u8, next: Arrival) -> Outcome
        requires arrival { next ≡ arrival self.old.state.world thread }
        requires turns { self.old.state.turns < TURN_LIMIT }
        requires room { HasEvent self.old.room self.old.state.world thread }
        requires steps { steps_ahead ≤ self.old.room.steps }
        requires world { IsMadeWorld self.old.state.world }
        ensures turn { (run : Run) → run.program ≡ self.old.program → run.steps ≡ limit →
            unlimited run self.old.state thread ≡ record { outcome = result; state = self.new.state } }
        ensures program { self.new.program ≡ self.old.program }
    {
        match next {
            Arrival::Steps => self.silent_first(limit, thread),
            Arrival::Waits | Arrival::CodeEvent | Arrival::RuntimeEvent(_) => {
                self.after_steps(thread, 0, next)
            }
        }
    }

    /// The same, where silent steps come first.
    #[tactic(auto, unfolding(omp_model::specs::Turn::unlimited))]
    fn silent_first(&mut self, limit: u32, thread: u8) -> Outcome
        requires turns { self.old.state.turns < TURN_LIMIT }
        requires room { HasEvent self.old.room self.old.state.world thread }
        requires steps { steps_ahead ≤ self.old.room.steps }
        requires world { IsMadeWorld self.old.state.world }
        ensures turn { (run : Run) → run.program ≡ self.old.program → run.steps ≡ limit →
            unlimited run self.old.state thread ≡ record { outcome = result; state = self.new.state } }
        ensures program { self.new.program ≡ self.old.program }
    {
        let walk = self.walk(limit, thread);
        match walk.stop {
            Some(halt) => self.halt_by(halt),
            None => {
                let next = match walk.next {
                    Some(next) => next,
                    None => self.arrival(thread),
                };
                self.after_steps(thread, walk.made, next)
            }
        }
    }

    /// Makes room for a turn of the thread.
    pub fn reserve(&mut self, thread: u8) -> Result<(), AllocError>
        ensures kept { self.new ≡ record self.old { room = self.new.room } }
        ensures room { OnOk result (HasEvent self.new.room self.new.state.world thread) }
        ensures steps { OnOk result (steps_ahead ≤ self.new.room.steps) }
    {
        self.board.reserve(thread)
    }

    /// Does one turn of the thread, which comes to this, where so many silent steps may be made in all.
    #[tactic(auto, unfolding(omp_model::specs::Turn::turn))]
    pub fn turn(&mut self, limit: u32, thread: u8, next: Arrival) -> Outcome
        requires arrival { next ≡ arrival self.old.state.world thread }
        requires turns { self.old.state.turns < TURN_LIMIT }
        requires room { HasEvent self.old.room self.old.state.world thread }
        requires steps { steps_ahead ≤ self.old.room.steps }
        requires world { IsMadeWorld self.old.state.world }
        ensures turn { (run : Run) → run.program ≡ self.old.program → run.steps ≡ limit →
            turn run self.old.state thread ≡ record { outcome = result; state = self.new.state } }
        ensures program { self.new.program ≡ self.old.program }
    {
        if self.turns + 1 >= TURN_LIMIT {
            self.halt_by(Halt::Limit(TURNS))
        } else {
            self.unlimited(limit, thread, next)
        }
    }

    /// What the turn of the thread that has just come to this tells its caller.
    pub fn went(&self, mask: u64, thread: u8, outcome: Outcome, levels: &mut Option<Levels>) -> Went
        requires { IsSome levels.old }
        ensures { (run : Run) → run.mask ≡ mask → result ≡ went_after run self.now.state thread outcome }
    {
        match outcome {
            Outcome::Idle | Outcome::Quiet => Went::Quiet,
            Outcome::Happens(event) => told(mask, &self.board, thread, event, levels),
            Outcome::Halts(Halt::Trap(number)) => Went::Trapped(number),
            Outcome::Halts(Halt::Limit(number)) => Went::Limit(number),
        }
    }

    /// The callback of the thread's event has returned, and what comes of the event takes hold.
    pub fn back(&mut self, thread: u8)
        ensures { self.new ≡ record self.old { state = back self.old.state thread } }
    {
        if let Some(callback) = self.pending(thread) {
            self.board.back(thread, callback.event);
            self.set_pending(thread, None);
        }
    }

    /// The tool of the thread's event stores this into the word.
    pub fn put(&mut self, thread: u8, target: Target, word: u64)
        requires { IfSome (pending_at self.old.state thread) (λ callback. callback.stores < STORE_LIMIT) }
        ensures { self.new ≡ record self.old { state = put self.old.state thread target word } }
    {
        if let Some(callback) = self.pending(thread) {
            self.board.store(target, word);
            self.set_pending(thread, Some(stored_once_more(callback)));
        }
    }

    /// Whether the thread, region or task whose word this is was made.
    pub fn is_made(&self, target: Target) -> bool
        ensures { result ≡ is_made self.now.state.world target }
    {
        self.board.is_made(target)
    }

    /// The bytes that were printed so far.
    pub fn text(&self) -> &[u8]
        ensures { result.now ≡ self.now.state.world.store.text }
    {
        self.board.text()
    }

    /// The bytes that were printed, and nothing else is kept.
    pub fn into_text(self) -> Vec<u8>
        ensures { result.items ≡ self.state.world.store.text }
    {
        self.board.into_text()
    }
}

/// Whether a thread that comes to this doesn't wait.
fn goes_on(arrival: Arrival) -> bool
    ensures { result ≡ turns.goes_on arrival }
{
    match arrival {
        Arrival::Waits => false,
        Arrival::Steps | Arrival::CodeEvent | Arrival::RuntimeEvent(_) => true,
    }
}

/// The callback of the event, before its tool has stored anything.
fn called(event: Event) -> Callback
    ensures { result ≡ called event }
{
    Callback { event, stores: 0 }
}

/// The callback after one more store of its tool.
fn stored_once_more(callback: Callback) -> Callback
    requires { callback.stores < STORE_LIMIT }
    ensures { result ≡ record callback { stores = callback.stores + 1 } }
{
    Callback {
        stores: callback.stores + 1,
        ..callback
    }
}

/// For so many threads, that none is inside a callback.
fn nobody(alloc: Global, threads: u8) -> Result<Vec<Option<Callback>>, AllocError>
    ensures { IfOk result (λ pending. pending.items ≡ replicate threads None) }
{
    let mut pending = Vec::new(alloc);
    for _thread in 0..threads {
        pending.push(None)?;
    }
    Ok(pending)
}
