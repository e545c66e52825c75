//! Events, of a task's code and beside all code: what happens at their Go. `event_at` is a table: an arm an event, with its numbers.

ghost use Rattle.std.specs.Prelude.{◌≡◌, ◌≤◌, ◌-◌, true};
ghost use Rattle.c_syntax.specs.language.Numbered.{tree_at};
ghost use Rattle.c_model.specs.declared.question.Answer.TheVariants as answer;
ghost use Rattle.c_model.specs.declared.question.Ask.TheVariants as ask;
ghost use Rattle.c_model.specs.Answers.{AnswersFirst};
ghost use Rattle.c_model.specs.AfterEvents.{settled_after_answer, settled_after_event};
ghost use Rattle.c_model.specs.Occurring.{IsAskOfNext};
ghost use Rattle.c_model.specs.Step.{silent};
ghost use Rattle.c_steps.specs.ControlView.{outcome_at};
ghost use Rattle.c_steps.specs.Passing.{IsEventOfNext};
ghost use Rattle.omp_model.specs.declared.event.Arrival.TheVariants.{CodeEvent, RuntimeEvent};
ghost use Rattle.omp_model.specs.Changes.{with_masked_skipped, gone_to, with_code};
ghost use Rattle.omp_model.specs.Gates.{arrival};
ghost use Rattle.omp_model.specs.EventEffects as effects;
ghost use Rattle.omp_model.specs.MadeWorld.{IsMadeWorld};
ghost use Rattle.omp_model.specs.Members.{code_of, current, moment_of, view_of};
ghost use Rattle.omp_board.specs.Answering.{IsSettled};
ghost use Rattle.omp_board.specs.Board.{HasEvent, HasStep, IsGoing, IsGoOfRuntime, IsGoingTo};
ghost use Rattle.omp_board.specs.Events.{HasComeTo, HasGo, HasPassing, place_of, work_event};
ghost use Rattle.omp_board.specs.Tasks.{IsNamedIn, IsStill};

use crate::board::Board;
use crate::board::meeting::work_met;
use c_model::{Answer, Ask, Point, Work, WorkKind};
use c_steps::Next;
use omp_model::{Endpoint, Event, Halt};

impl Board {
    /// The Go of the event of its code that the thread has come to. Where it meets a trap or a limit, nothing has changed, but that the task has left
    /// out what it goes past.
    pub fn begin_code_event(&mut self, thread: u8) -> Result<Event, Halt>
        requires comes { arrival self.old.world thread ≡ CodeEvent }
        requires made { IsMadeWorld self.old.world }
        requires room { HasEvent self.old.room self.old.world thread }
        ensures going { IsGoing self.old.program (with_masked_skipped self.old.world thread) thread result self.new.world }
        ensures program { self.new.program ≡ self.old.program }
    {
        match self.look(thread) {
            Next::Event(point, node) => self.come_to(thread, point, node),
            Next::Ask(Ask::LockFree(wait_id), node) => self.come_to_test(thread, wait_id, node),
            Next::Trap(number) => Err(Halt::Trap(number)),
            Next::Limit(number) => Err(Halt::Limit(number)),
            Next::Ask(Ask::Chunk, _) => unreachable!(),
            Next::Ask(Ask::Section, _) => unreachable!(),
            Next::Quiet => unreachable!(),
            Next::Ended(_) => unreachable!(),
        }
    }

    /// The Go of the event beside all code that the thread has come to. Where it meets a limit, nothing has changed.
    pub fn begin_runtime_event(&mut self, thread: u8, event: Event) -> Result<Event, Halt>
        requires meets { arrival self.old.world thread ≡ RuntimeEvent event }
        requires made { IsMadeWorld self.old.world }
        requires room { HasEvent self.old.room self.old.world thread }
        ensures going { IsGoOfRuntime self.old.world thread event result self.new.world }
        ensures program { self.new.program ≡ self.old.program }
    {
        if let Some(limit) = self.limit_met(thread, event) {
            return Err(limit);
        }
        self.occur(thread, event);
        Ok(event)
    }

    /// What stands next in the code of the thread's task, which leaves out what it goes past. It may be a silent step, and then that is made.
    #[inline(always)]
    fn look(&mut self, thread: u8) -> Next
        requires room { HasStep self.old.room self.old.world thread }
        ensures outcome { outcome_at self.old.program result (moment_of self.new.world thread) ≡
            silent self.old.program (view_of self.old.world thread) (moment_of self.old.world thread) }
        ensures still { IsStill result → self.new ≡ record self.old { world = with_masked_skipped self.old.world thread } }
        ensures named { IsNamedIn self.old.program result (code_of self.new.world thread).todo }
    {
        let view = self.view(thread);
        self.advance(thread, view)
    }

    /// The Go of the event with which an `omp_test_lock` comes to own the lock, which no task owns.
    fn come_to_test(&mut self, thread: u8, wait_id: u32, node: u32) -> Result<Event, Halt>
        requires asks { let tree = tree_at self.old.program.trees node in
            IsAskOfNext (ask.LockFree wait_id) tree (code_of self.old.world thread).todo }
        requires settled { IsSettled self.old.world thread }
        requires some { 1 ≤ current self.old.world thread }
        requires made { IsMadeWorld self.old.world }
        requires room { HasEvent self.old.room self.old.world thread }
        ensures going { IsGoing self.old.program self.old.world thread result self.new.world }
        ensures program { self.new.program ≡ self.old.program }
    {
        if let Err(halt) = self.may_acquire(wait_id) {
            return Err(halt);
        }
        self.tell_free(thread);
        match self.look(thread) {
            Next::Event(point, node) => self.come_to(thread, point, node),
            _ => unreachable!(),
        }
    }

    /// The code of the thread's task is told that the lock isn't owned for which it asks.
    fn tell_free(&mut self, thread: u8)
        requires asks { AnswersFirst (code_of self.old.world thread).todo (answer.Free true) }
        requires room { HasStep self.old.room self.old.world thread }
        ensures { self.new ≡ record self.old {
          world = gone_to self.old.world (current self.old.world thread)
              (settled_after_answer (answer.Free true) (moment_of self.old.world thread));
          room = record self.old.room { steps = self.old.room.steps - 1 };
        } }
    {
        let task = self.current(thread);
        self.give(task, Answer::Free(true));
    }

    /// The Go of the event at this point, which stands at this node.
    #[inline(always)]
    fn come_to(&mut self, thread: u8, point: Point, node: u32) -> Result<Event, Halt>
        requires comes { HasComeTo self.old.program self.old.world thread point node }
        requires made { IsMadeWorld self.old.world }
        requires room { HasGo self.old.room self.old.world thread }
        ensures going { IsGoingTo self.old.program self.old.world thread
            (moment_of self.old.world thread) point result self.new.world }
        ensures program { self.new.program ≡ self.old.program }
    {
        let executes = self.executes(thread, point);
        let event = self.event_at(thread, point, executes);
        match self.take_effect(thread, point) {
            Ok(()) => {
                self.go_past(thread, point, node, executes);
                Ok(event)
            }
            Err(halt) => Err(halt),
        }
    }

    /// The event at this point, with its numbers. `executes` counts at the begin of a `single` alone.
    #[inline(always)]
    fn event_at(&self, thread: u8, point: Point, executes: bool) -> Event
        requires { executes ≡ effects.executes_point self.now.world thread point }
        ensures { result ≡ effects.event_of_point self.now.world thread point }
    {
        let codeptr = codeptr_of(point);
        match point {
            Point::ParallelBegin { requested, .. } => Event::ParallelBegin {
                region: self.regions.next(),
                requested: requested.unsigned_abs(),
                codeptr,
            },
            Point::ParallelEnd { .. } => Event::ParallelEnd {
                region: self.tasks.forked(self.current(thread)),
                codeptr,
            },
            Point::TaskCreate { undeferred, .. } => Event::TaskCreate {
                task: self.tasks.next(),
                undeferred,
                codeptr,
            },
            Point::WorkBegin { work, .. } => work_begin(codeptr, work, executes),
            Point::WorkEnd { kind, count, .. } => Event::Work {
                endpoint: Endpoint::End,
                kind,
                count,
                codeptr,
            },
            Point::MaskedBegin { .. } => Event::Masked {
                endpoint: Endpoint::Begin,
                codeptr,
            },
            Point::MaskedEnd { .. } => Event::Masked {
                endpoint: Endpoint::End,
                codeptr,
            },
            Point::Sync { kind, stage, .. } => Event::Sync {
                kind,
                stage,
                codeptr,
            },
            Point::MutexAcquire { wait_id, kind, .. } => Event::MutexAcquire {
                kind,
                wait_id,
                codeptr,
            },
            Point::MutexAcquired { wait_id, kind, .. } => Event::MutexAcquired {
                kind,
                wait_id,
                codeptr,
            },
            Point::MutexReleased { wait_id, kind, .. } => Event::MutexReleased {
                kind,
                wait_id,
                codeptr,
            },
            Point::LockInit { wait_id, .. } => Event::LockInit { wait_id, codeptr },
            Point::LockDestroy { wait_id, .. } => Event::LockDestroy { wait_id, codeptr },
        }
    }

    /// Whether the thread is the first of its team at this begin of a worksharing construct. Of a `single` it executes the statement then.
    fn executes(&self, thread: u8, point: Point) -> bool
        ensures { result ≡ effects.executes_point self.now.world thread point }
    {
        match point {
            Point::WorkBegin { codeptr, work } => {
                match self.meeting_answer(thread, work_met(codeptr, work)) {
                    Ok(is_first) => is_first,
                    Err(_) => false,
                }
            }
            _ => false,
        }
    }

    /// The code of the thread's task goes past its event. `executes` counts at the begin of a `single` alone.
    #[inline(always)]
    fn go_past(&mut self, thread: u8, point: Point, node: u32, executes: bool)
        requires event { IsEventOfNext self.old.program point node (code_of self.old.world thread).todo }
        requires room { HasPassing self.old.room self.old.world thread }
        ensures world { let W = self.old.world in
            self.new.world ≡ with_code W (current W thread) (settled_after_event point executes (code_of W thread)) }
        ensures program { self.new.program ≡ self.old.program }
    {
        let task = self.current(thread);
        self.tasks.pass(task, point, node, executes);
    }
}

/// The place in the text of the event at this point.
fn codeptr_of(point: Point) -> u64
    ensures { result ≡ place_of point }
{
    match point {
        Point::ParallelBegin { codeptr, .. }
        | Point::ParallelEnd { codeptr }
        | Point::TaskCreate { codeptr, .. }
        | Point::WorkBegin { codeptr, .. }
        | Point::WorkEnd { codeptr, .. }
        | Point::MaskedBegin { codeptr }
        | Point::MaskedEnd { codeptr }
        | Point::Sync { codeptr, .. }
        | Point::MutexAcquire { codeptr, .. }
        | Point::MutexAcquired { codeptr, .. }
        | Point::MutexReleased { codeptr, .. }
        | Point::LockInit { codeptr, .. }
        | Point::LockDestroy { codeptr, .. } => codeptr,
    }
}

/// The event of a worksharing construct's begin.
fn work_begin(codeptr: u64, work: Work, executes: bool) -> Event
    ensures { result ≡ work_event codeptr work executes }
{
    let (kind, count) = match work {
        Work::Loop { count, .. } => (WorkKind::Loop, count),
        Work::Sections(count) => (WorkKind::Sections, u64::from(count)),
        Work::Single if executes => (WorkKind::SingleExecutor, 1),
        Work::Single => (WorkKind::SingleOther, 1),
    };
    Event::Work {
        endpoint: Endpoint::Begin,
        kind,
        count,
        codeptr,
    }
}
