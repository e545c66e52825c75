//! What a thread comes to next, and whether it has to wait for it. No expression is evaluated for that.

ghost use Rattle.std.specs.Prelude.{◌≡◌, ◌≤◌, length, reverse, take};
ghost use Rattle.omp_model.specs.State.{task_at};
ghost use Rattle.c_model.specs.Upcoming.{upcoming_of};
ghost use Rattle.omp_model.specs.Members.{code_of, current, current_region, view_of};
ghost use Rattle.c_model.specs.declared.point.SyncKind.TheVariants as sync;
ghost use Rattle.omp_model.specs.declared.limits.TheConstants.{STACK_LIMIT};
ghost use Rattle.omp_model.specs.Gates as gates;

use crate::board::Board;
use crate::head::all_left;
use c_model::{SyncKind, SyncStage, Upcoming};
use omp_model::{Arrival, Event, IMPLICIT_REGION, INITIAL_TASK, STACK_LIMIT, ThreadStage};
use task_pool::{Condition, TaskKind};

impl Board {
    /// What the thread comes to next.
    #[tactic(auto, unfolding(omp_model::specs::Gates::arrival))]
    pub fn arrival(&self, thread: u8) -> Arrival
        ensures { result ≡ gates.arrival self.now.world thread }
    {
        let Some(found) = self.threads.get(thread as usize) else {
            return Arrival::Waits;
        };
        match found.stage {
            ThreadStage::Unmade | ThreadStage::Ended => return Arrival::Waits,
            ThreadStage::Made => return Arrival::RuntimeEvent(Event::ThreadBegin),
            ThreadStage::Begun => {}
        }
        if found.invited != 0 {
            return Arrival::RuntimeEvent(Event::MemberBegin {
                region: found.invited,
                task: self.tasks.next(),
            });
        }
        let current = found.current();
        if found.undeferred != 0 {
            return Arrival::RuntimeEvent(Event::TaskBegin {
                prior: current,
                task: found.undeferred,
            });
        }
        if let Some(share) = found.taken {
            return Arrival::RuntimeEvent(Event::Dispatch(share));
        }
        if current == 0 {
            self.arrival_without_task(thread)
        } else {
            self.arrival_in(thread, current, self.upcoming(thread, current))
        }
    }

    /// What comes next in the code of the thread's current task.
    #[inline(always)]
    fn upcoming(&self, thread: u8, task: u32) -> Upcoming
        requires { task ≡ current self.now.world thread }
        ensures { result ≡ upcoming_of (view_of self.now.world thread) (code_of self.now.world thread) }
    {
        let (code, control) = self.tasks.code_of(task);
        match control.upcoming_at_once() {
            Some(upcoming) => upcoming,
            None => control.upcoming(code, self.view(thread)),
        }
    }

    /// What a thread without a task comes to next.
    fn arrival_without_task(&self, thread: u8) -> Arrival
        ensures { result ≡ gates.arrival_without_task self.now.world thread }
    {
        if thread == 0 {
            return match self.pool.task(INITIAL_TASK).condition {
                Condition::Made => Arrival::RuntimeEvent(Event::InitialTaskBegin),
                Condition::Ready | Condition::Started => Arrival::Waits,
                Condition::Finished => Arrival::RuntimeEvent(Event::ThreadEnd),
            };
        }
        if self.main_returned() && self.pool.unfinished(IMPLICIT_REGION) == 0 {
            Arrival::RuntimeEvent(Event::ThreadEnd)
        } else {
            Arrival::Waits
        }
    }

    /// What a thread comes to in its current task, where this comes next in the task's code.
    #[inline(always)]
    fn arrival_in(&self, thread: u8, task: u32, upcoming: Upcoming) -> Arrival
        requires { task ≡ current self.now.world thread }
        ensures { result ≡ gates.arrival_in self.now.world thread task upcoming }
    {
        match upcoming {
            Upcoming::Step => Arrival::Steps,
            Upcoming::Event => Arrival::CodeEvent,
            Upcoming::End => self.arrival_at_end(thread, task, self.pool.task(task).kind),
            Upcoming::RegionEnd => comes_if(all_left(self.regions.head(self.tasks.forked(task)))),
            Upcoming::Sync { kind, stage } => self.arrival_at_sync(thread, kind, stage),
            Upcoming::Acquire(wait_id) => comes_if(!self.is_owned(wait_id)),
            Upcoming::Test(wait_id) => {
                if self.is_owned(wait_id) {
                    Arrival::Steps
                } else {
                    Arrival::CodeEvent
                }
            }
        }
    }

    /// What a thread comes to at an event of a barrier or taskwait.
    #[inline(always)]
    fn arrival_at_sync(&self, thread: u8, kind: SyncKind, stage: SyncStage) -> Arrival
        ensures { result ≡ gates.arrival_at_sync self.now.world thread kind stage }
    {
        match stage {
            SyncStage::WaitEnd => {
                if self.may_end(thread, kind) {
                    Arrival::CodeEvent
                } else {
                    self.starts_if(thread)
                }
            }
            SyncStage::RegionBegin | SyncStage::WaitBegin | SyncStage::RegionEnd =>
                Arrival::CodeEvent,
        }
    }

    /// What a thread comes to at the end of its current task's code.
    fn arrival_at_end(&self, thread: u8, task: u32, kind: TaskKind) -> Arrival
        ensures { result ≡ gates.arrival_at_end self.now.world thread task kind }
    {
        match kind {
            TaskKind::Initial => self.arrival_behind_main(thread),
            TaskKind::Implicit => Arrival::RuntimeEvent(Event::MemberEnd {
                region: self.region_of(task),
                task,
            }),
            TaskKind::Explicit | TaskKind::Undeferred => Arrival::RuntimeEvent(Event::TaskEnd {
                task,
            }),
        }
    }

    /// What thread 0 comes to after main has returned.
    fn arrival_behind_main(&self, thread: u8) -> Arrival
        ensures { result ≡ gates.arrival_behind_main self.now.world thread }
    {
        if self.pool.unfinished(self.current_region(thread)) != 0 {
            return self.starts_if(thread);
        }
        if self.workers_over() {
            Arrival::RuntimeEvent(Event::InitialTaskEnd)
        } else {
            Arrival::Waits
        }
    }

    /// A thread that waits starts the newest task that it may start, if there is one.
    #[inline(always)]
    fn starts_if(&self, thread: u8) -> Arrival
        ensures { result ≡ gates.starts_if self.now.world thread (gates.next_task self.now.world thread) }
    {
        match self.next_allowed(thread) {
            Some(task) => Arrival::RuntimeEvent(Event::TaskBegin {
                prior: self.current(thread),
                task,
            }),
            None => Arrival::Waits,
        }
    }

    /// Whether the wait of the thread's current task may end.
    #[inline(always)]
    fn may_end(&self, thread: u8, kind: SyncKind) -> bool
        ensures { result ≡ gates.may_end self.now.world thread kind }
    {
        match kind {
            SyncKind::Taskwait => self.pool.open_children(self.current(thread)) == 0,
            SyncKind::Barrier | SyncKind::Worksharing | SyncKind::Parallel => {
                self.may_pass(thread)
            }
        }
    }

    /// Whether the thread may pass the barrier that its team met last.
    #[inline(always)]
    fn may_pass(&self, thread: u8) -> bool
        ensures { result ≡ gates.may_end self.now.world thread sync.Barrier }
    {
        let (region, member) = self.place_in_team(thread);
        self.regions
            .may_pass(region, member, self.pool.unfinished(region))
    }

    /// The newest task of the thread's region that descends from all tasks that the thread holds, if there is one.
    #[inline(always)]
    fn next_allowed(&self, thread: u8) -> Option<u32>
        ensures { result ≡ gates.next_task self.now.world thread }
    {
        let region = self.current_region(thread);
        if self.pool.newest_allowed(region, &[]).is_none() {
            return None;
        }
        self.newest_beyond_held(thread, region)
    }

    /// The same, in this region of the thread.
    #[inline(never)]
    fn newest_beyond_held(&self, thread: u8, region: u32) -> Option<u32>
        requires { region ≡ current_region self.now.world thread }
        ensures { result ≡ gates.next_task self.now.world thread }
    {
        let mut held = [0; STACK_LIMIT];
        let count = self.hold(thread, &mut held);
        self.pool.newest_allowed(region, &held[..count])
    }

    /// The tasks that the thread holds, from the front of the list on, the current one last. The answer is how many there are.
    fn hold(&self, thread: u8, held: &mut [u32]) -> usize
        requires { STACK_LIMIT ≤ length held.old }
        ensures tasks { take result held.new ≡ reverse (gates.held_tasks self.now.world thread) }
        ensures few { result ≤ length held.new }
    {
        let mut count = 0;
        for task in self.stack(thread) {
            if !self.is_in_barrier(*task) {
                held[count] = *task;
                count += 1;
            }
        }
        count
    }

    /// Whether the task is suspended in a barrier.
    fn is_in_barrier(&self, task: u32) -> bool
        ensures { result ≡ gates.is_in_barrier (task_at self.now.world task).code.todo }
    {
        match self.tasks.standing(task) {
            Upcoming::Sync {
                stage: SyncStage::RegionBegin,
                ..
            } => false,
            Upcoming::Sync { kind, .. } => is_barrier(kind),
            _ => false,
        }
    }

    /// Whether nothing is left of main's code.
    pub fn main_returned(&self) -> bool
        ensures { result ≡ gates.main_returned self.now.world }
    {
        matches!(self.tasks.standing(INITIAL_TASK), Upcoming::End)
    }

    /// Whether some task owns the lock or critical.
    #[inline(always)]
    pub fn is_owned(&self, wait_id: u32) -> bool
        ensures { result ≡ gates.is_owned self.now.world wait_id }
    {
        match self.locks.may_take(wait_id) {
            Ok(may) => !may,
            Err(_) => false,
        }
    }

    /// Whether each worker that was made has ended.
    fn workers_over(&self) -> bool
        ensures { result ≡ gates.workers_over self.now.world }
    {
        self.threads
            .iter()
            .skip(1)
            .all(|thread| is_out(thread.stage))
    }
}

/// An event of the code, where nothing keeps the thread from it.
fn comes_if(may: bool) -> Arrival
    ensures { result ≡ gates.comes_if may }
{
    if may {
        Arrival::CodeEvent
    } else {
        Arrival::Waits
    }
}

/// Whether a thread that has come so far wasn't made, or has ended.
pub(super) fn is_out(stage: ThreadStage) -> bool
    ensures { result ≡ gates.is_out stage }
{
    matches!(stage, ThreadStage::Unmade | ThreadStage::Ended)
}

/// Whether what is waited for is a barrier.
pub(super) fn is_barrier(kind: SyncKind) -> bool
    ensures { result ≡ gates.is_barrier kind }
{
    !matches!(kind, SyncKind::Taskwait)
}
