//! What events change beside a task's code, and the traps and limits that they meet.

ghost use Rattle.std.specs.Prelude.{◌≡◌, ◌<◌, ◌≤◌, IsOk, Some, None, int_lt, length, nat_abs, pos};
ghost use Rattle.team_parts.specs.Meetings.{HasChunk};
ghost use Rattle.sync_objects.specs.Answers as answers;
ghost use Rattle.sync_objects.specs.Faults.{fault_number};
ghost use Rattle.task_pool.specs.Tasks.{MayBeParent};
ghost use Rattle.task_pool.specs.View.{answer_to_add};
ghost use Rattle.omp_model.specs.declared.event.Arrival.TheVariants.{RuntimeEvent};
ghost use Rattle.omp_model.specs.declared.event.Event.TheVariants as event;
ghost use Rattle.omp_model.specs.declared.event.Halt.TheVariants as halt;
ghost use Rattle.omp_model.specs.declared.limits.TheConstants.{STACK_LIMIT};
ghost use Rattle.omp_model.specs.Gates.{arrival};
ghost use Rattle.omp_model.specs.EventEffects.{effect_of, fault_of, stack_fault};
ghost use Rattle.omp_model.specs.declared.limits.TheConstants as limits;
ghost use Rattle.omp_model.specs.State.{region_at, task_at, thread_at};
ghost use Rattle.omp_model.specs.Changes as changes;
ghost use Rattle.omp_model.specs.EventEffects as effects;
ghost use Rattle.omp_model.specs.MadeWorld.{IsMadeWorld};
ghost use Rattle.omp_model.specs.Members.{code_of, current, is_explicit_task, moment_of};
ghost use Rattle.omp_board.specs.Board.{run_of};
ghost use Rattle.omp_board.specs.Events.{HasGo, IsCreator, IsEffect, KeepsPassing, MayCreate};

use crate::board::Board;
use crate::board::arrival::is_barrier;
use crate::board::meeting::{barrier_met, work_met};
use c_model::{MutexKind, Point, SyncKind, SyncStage};
use omp_model::{
    Event, Halt, IMPLICIT_REGION, INITIAL_TASK, MISMATCH, NESTING, STACK, STACK_LIMIT, TASKS,
    TEAM_SIZE, ThreadStage,
};
use sync_objects::LockFault;
use task_pool::TaskKind;
use team_parts::Meeting;

impl Board {
    /// The event at this point changes what it does beside the code: one line for each. Where it meets a trap or a limit, nothing has changed.
    #[inline(always)]
    #[tactic(auto, unfolding(omp_model::specs::EventEffects::fault_of_point, omp_model::specs::EventEffects::effect_of_point))]
    pub(super) fn take_effect(&mut self, thread: u8, point: Point) -> Result<(), Halt>
        requires made { IsMadeWorld self.old.world }
        requires creates { MayCreate self.old.program self.old.world thread point }
        requires room { HasGo self.old.room self.old.world thread }
        ensures effect { let W = self.old.world in IsEffect
            (effects.fault_of_point W thread (code_of W thread) point)
            (effects.effect_of_point (run_of self.old.program) W thread (moment_of W thread) point)
            result W self.new.world }
        ensures kept { KeepsPassing self.old self.new }
    {
        match point {
            Point::ParallelBegin { requested, .. } => self.fork(thread, requested),
            Point::ParallelEnd { .. } => {
                let region = self.tasks.forked(self.current(thread));
                let mut head = *self.regions.head(region);
                head.ended = true;
                self.regions.set_head(region, head);
                Ok(())
            }
            Point::TaskCreate { undeferred, .. } => self.create(thread, undeferred),
            Point::WorkBegin { codeptr, work } => self.meet_next(thread, work_met(codeptr, work)),
            Point::MaskedBegin { .. } => self.begin_masked(thread),
            Point::Sync {
                codeptr,
                kind,
                stage,
            } => self.synchronise(thread, codeptr, kind, stage),
            Point::MutexAcquire { wait_id, kind, .. } => self.ask_for(thread, wait_id, kind),
            Point::MutexAcquired { wait_id, .. } => {
                self.may_acquire(wait_id)?;
                let task = self.current(thread);
                self.locks.take(wait_id, task);
                Ok(())
            }
            Point::MutexReleased { wait_id, .. } => {
                let task = self.current(thread);
                self.locks.give(wait_id, task).map_err(trap)
            }
            Point::LockInit { wait_id, .. } => self.locks.init(wait_id).map_err(trap),
            Point::LockDestroy { wait_id, .. } => self.locks.destroy(wait_id).map_err(trap),
            _ => Ok(()),
        }
    }

    /// A region is forked.
    fn fork(&mut self, thread: u8, requested: i32) -> Result<(), Halt>
        requires room { HasGo self.old.room self.old.world thread }
        ensures effect { let W = self.old.world in IsEffect
            (effects.trap_if (int_lt requested (pos 1)) limits.TEAM_SIZE)
            (effects.after_fork W thread (nat_abs requested))
            result W self.new.world }
        ensures kept { KeepsPassing self.old self.new }
    {
        if requested < 1 {
            return Err(Halt::Trap(TEAM_SIZE));
        }
        let task = self.current(thread);
        let region = self.regions.next();
        let size = self.team_size(thread, requested.unsigned_abs());
        self.tasks.set_forked(task, region);
        self.regions.add(task, size);
        Ok(())
    }

    /// How many members a region has for which so many were asked.
    fn team_size(&self, thread: u8, requested: u32) -> u8
        requires { 1 ≤ requested }
        ensures size { result ≡ effects.team_size self.now.world thread requested }
        ensures some { 1 ≤ result }
        ensures few { result ≤ 16 }
    {
        if self.current_region(thread) == IMPLICIT_REGION {
            requested.min(self.threads.len() as u32) as u8
        } else {
            1
        }
    }

    /// An explicit task is made.
    fn create(&mut self, thread: u8, undeferred: bool) -> Result<(), Halt>
        requires made { IsMadeWorld self.old.world }
        requires creator { IsCreator self.old.program self.old.world thread }
        requires room { HasGo self.old.room self.old.world thread }
        ensures effect { let W = self.old.world in IsEffect
            (effects.task_fault W)
            (effects.after_creation (run_of self.old.program) W thread (moment_of W thread) undeferred)
            result W self.new.world }
        ensures kept { KeepsPassing self.old self.new }
    {
        if self.is_full() {
            return Err(Halt::Limit(TASKS));
        }
        let creator = self.current(thread);
        let region = self.region_of(creator);
        self.add_explicit(creator, region, undeferred);
        Ok(())
    }

    /// The thread meets this next, a worksharing construct or a barrier.
    #[inline(always)]
    fn meet_next(&mut self, thread: u8, what: Meeting) -> Result<(), Halt>
        requires chunk { HasChunk what }
        requires room { HasGo self.old.room self.old.world thread }
        ensures effect { let W = self.old.world in IsEffect
            (effects.meeting_fault W thread (code_of W thread) what)
            (effects.after_meeting_at W thread what)
            result W self.new.world }
        ensures kept { KeepsPassing self.old self.new }
    {
        match self.meeting_fault(thread, what) {
            Some(halt) => Err(halt),
            None => {
                let (region, member) = self.place_in_team(thread);
                self.regions.meet(region, member, what);
                Ok(())
            }
        }
    }

    /// The trap that the thread has where it meets this next.
    fn meeting_fault(&self, thread: u8, what: Meeting) -> Option<Halt>
        ensures { result ≡ effects.meeting_fault self.now.world thread (code_of self.now.world thread) what }
    {
        let task = self.current(thread);
        if self.is_explicit(task) {
            return Some(Halt::Trap(NESTING));
        }
        let (code, control) = self.tasks.code_of(task);
        match self.meeting_answer(thread, what) {
            Err(_) => Some(Halt::Trap(MISMATCH)),
            Ok(_) if control.is_in_exclusive(code) => Some(Halt::Trap(NESTING)),
            Ok(_) => None,
        }
    }

    /// The statement of a `masked` begins.
    fn begin_masked(&self, thread: u8) -> Result<(), Halt>
        ensures { let W = self.now.world in IsEffect
            (effects.masked_fault W thread (code_of W thread))
            W
            result W W }
    {
        let task = self.current(thread);
        let (code, control) = self.tasks.code_of(task);
        if self.is_explicit(task) || control.is_in_work(code) {
            Err(Halt::Trap(NESTING))
        } else {
            Ok(())
        }
    }

    /// One of the four events of a barrier or taskwait.
    fn synchronise(
        &mut self,
        thread: u8,
        codeptr: u64,
        kind: SyncKind,
        stage: SyncStage,
    ) -> Result<(), Halt>
        requires room { HasGo self.old.room self.old.world thread }
        ensures effect { let W = self.old.world in IsEffect
            (effects.sync_fault W thread (code_of W thread) codeptr kind stage)
            (effects.after_sync W thread codeptr kind stage)
            result W self.new.world }
        ensures kept { KeepsPassing self.old self.new }
    {
        if !is_barrier(kind) {
            return Ok(());
        }
        match stage {
            SyncStage::RegionBegin => self.meet_next(thread, barrier_met(codeptr, kind)),
            SyncStage::WaitEnd => {
                let (region, member) = self.place_in_team(thread);
                self.regions.pass(region, member);
                Ok(())
            }
            SyncStage::WaitBegin | SyncStage::RegionEnd => Ok(()),
        }
    }

    /// A lock or critical is asked for.
    fn ask_for(&self, thread: u8, wait_id: u32, kind: MutexKind) -> Result<(), Halt>
        ensures { let W = self.now.world in IsEffect
            (effects.acquire_fault W (code_of W thread) kind wait_id)
            W
            result W W }
    {
        match kind {
            MutexKind::Critical => {
                let (code, control) = self.tasks.code_of(self.current(thread));
                if control.is_in_critical(code, wait_id) {
                    Err(Halt::Trap(NESTING))
                } else {
                    Ok(())
                }
            }
            MutexKind::Lock | MutexKind::TestLock => self.may_acquire(wait_id),
        }
    }

    /// A lock or critical that is to be acquired is initialised.
    pub(super) fn may_acquire(&self, wait_id: u32) -> Result<(), Halt>
        ensures { let W = self.now.world in IsEffect
            (effects.lock_fault (answers.answer_to_may_take W.locks.locks wait_id))
            W
            result W W }
    {
        match self.locks.may_take(wait_id) {
            Ok(_) => Ok(()),
            Err(fault) => Err(trap(fault)),
        }
    }

    /// The limit that the event meets, if it meets one.
    #[tactic(auto, unfolding(omp_model::specs::EventEffects::fault_of))]
    pub(super) fn limit_met(&self, thread: u8, event: Event) -> Option<Halt>
        ensures { result ≡ fault_of self.now.world thread event }
    {
        match event {
            Event::InitialTaskBegin | Event::TaskBegin { .. } => self.stack_limit(thread),
            Event::MemberBegin { .. } => {
                if self.is_full() {
                    Some(Halt::Limit(TASKS))
                } else {
                    self.stack_limit(thread)
                }
            }
            _ => None,
        }
    }

    /// The limit that a task more on the thread's stack meets, if it meets one.
    fn stack_limit(&self, thread: u8) -> Option<Halt>
        ensures { result ≡ stack_fault self.now.world thread }
    {
        if self.depth(thread) >= STACK_LIMIT {
            Some(Halt::Limit(STACK))
        } else {
            None
        }
    }

    /// The event happens, which meets no limit.
    #[tactic(auto, unfolding(omp_model::specs::EventEffects::effect_of))]
    pub(super) fn occur(&mut self, thread: u8, event: Event)
        requires meets { arrival self.old.world thread ≡ RuntimeEvent event }
        requires made { IsMadeWorld self.old.world }
        requires fits { fault_of self.old.world thread event ≡ None }
        requires room { 0 < self.old.room.tasks }
        ensures { self.new ≡ record self.old { world = effect_of self.old.world thread event; room = self.new.room } }
    {
        match event {
            Event::ThreadBegin => self.set_stage(thread, ThreadStage::Begun),
            Event::InitialTaskBegin => {
                self.take_up(thread, INITIAL_TASK);
                self.start(INITIAL_TASK);
                self.begin_member(IMPLICIT_REGION, 0, INITIAL_TASK);
            }
            Event::InitialTaskEnd => {
                self.pop(thread);
                self.finish(INITIAL_TASK);
            }
            Event::MemberBegin { region, task } => self.join(thread, region, task),
            Event::MemberEnd { task, .. } => {
                self.pop(thread);
                self.finish(task);
                self.tasks.empty(task);
            }
            Event::TaskBegin { task, .. } => {
                self.take_up(thread, task);
                self.start(task);
            }
            Event::TaskEnd { task } => {
                self.pop(thread);
                self.tasks.empty(task);
            }
            Event::Dispatch(_) => self.share(thread, None),
            _ => {}
        }
    }

    /// A member's implicit task is made and begins.
    #[tactic(auto, unfolding(omp_model::specs::EventEffects::effect_of))]
    fn join(&mut self, thread: u8, region: u32, task: u32)
        requires place { region < length self.old.world.regions }
        requires parent { MayBeParent self.old.world.pool.tasks (region_at self.old.world region).head.task }
        requires few { IsOk (answer_to_add self.old.world.pool.tasks) }
        requires stack { length (thread_at self.old.world thread).stack < STACK_LIMIT }
        requires room { 0 < self.old.room.tasks }
        ensures { self.new ≡ record self.old {
          world = effect_of self.old.world thread (event.MemberBegin region task);
          room = record self.old.room { tasks = 0 };
        } }
    {
        let parent = self.regions.head(region).task;
        let member = self.member_index(thread, region);
        let _ = self.pool.add(parent, region, TaskKind::Implicit);
        self.tasks.add_member(parent);
        self.start(task);
        self.take_up(thread, task);
        self.begin_member(region, member, task);
    }

    /// Whether a task construct made the task.
    fn is_explicit(&self, task: u32) -> bool
        ensures { result ≡ is_explicit_task self.now.world task }
    {
        matches!(
            self.pool.task(task).kind,
            TaskKind::Explicit | TaskKind::Undeferred
        )
    }
}

/// A wrong use of a lock halts the run.
fn trap(fault: LockFault) -> Halt
    ensures { result ≡ halt.Trap (fault_number fault) }
{
    Halt::Trap(fault.number())
}
