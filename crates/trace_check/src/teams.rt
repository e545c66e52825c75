//! The rules on the tasks of teams: their begins, their waits, and the ends of their regions.

ghost use Rattle.std.specs.Prelude.{◌≡◌, ◌==◌, ◌&&◌, ◌||◌, ◌<◌, ◌+◌, ◌*◌, not, ℕ, List, Some, true};
ghost use Rattle.std.specs.Ordering.{nat_cmp};
ghost use Rattle.std.specs.List.{list_all, range_with_len};
ghost use Rattle.std.specs.BTreeMap.{get};
ghost use Rattle.omp_codes.specs.declared.sync_kinds.TheConstants.{TASKWAIT};
ghost use Rattle.ompt_calls.specs.declared.event.EventRecord.{EventRecord};
ghost use Rattle.trace_check.specs.Before.{events_of, is_barrier, is_open_region, join_of, joins, joins_of, opened};
ghost use Rattle.trace_check.specs.Checking.{IsKnown, KnownThings, Unbroken, children_kept, children_of, fits_size, has_left_in, has_waited_in, running, team_size, thread_known};
ghost use Rattle.trace_check.specs.Rules.{begins_initial, has_no_child, have_waited, is_initial, keeps_brackets, keeps_tasks, keeps_teams, keeps_waits, may_join, may_pass};

use crate::kept::Kept;
use crate::keys::member_key;
use crate::rules::is_next;
use crate::things::{Current, Seat, Thread};
use omp_codes::endpoints::{BEGIN, END};
use omp_codes::sync_kinds::{
    BARRIER_EXPLICIT, BARRIER_IMPLICIT_PARALLEL, BARRIER_IMPLICIT_WORKSHARE, TASKWAIT,
};
use omp_codes::task_flags::INITIAL;
use ompt_calls::Call;

impl Kept {
    /// Rule 5: the second event of thread 0 is the begin of the initial task, which stands nowhere else, and an implicit task joins an open
    /// region.
    pub fn keeps_tasks(&self, number: u8, thread: Option<Thread>, call: &Call) -> bool
        ensures { (past : List EventRecord) → IsKnown self.now past → Unbroken past →
            thread ≡ thread_known number past →
            result ≡ keeps_tasks past number call.now }
    {
        let begins = if number == 0 && had_one_event(thread) {
            is_initial(call)
        } else {
            !begins_initial(call)
        };
        begins && self.may_join(call)
    }

    /// Whether the begin of an implicit task is of an open region, is the next task, and has an index below its team's size, which is that of
    /// the others, that none of them had.
    fn may_join(&self, call: &Call) -> bool
        ensures { (past : List EventRecord) → IsKnown self.now past → Unbroken past →
            result ≡ may_join past (join_of call.now) }
    {
        match call {
            Call::ImplicitTask {
                endpoint,
                region,
                task,
                actual,
                index,
                flags,
            } if *endpoint == BEGIN && *flags != INITIAL => {
                let seat = Seat {
                    region: region.identity,
                    index: *index,
                };
                self.may_sit(seat, task.identity, *actual)
            }
            _ => true,
        }
    }

    /// Whether this task may join a team of this size at this place.
    fn may_sit(&self, seat: Seat, task: u32, actual: u32) -> bool
        ensures { (past : List EventRecord) → IsKnown self.now past → Unbroken past →
            result ≡ may_join past (Some (record {
              region = seat.region;
              task = task;
              actual = actual;
              index = seat.index;
            })) }
    {
        let Some(open) = self.regions.get(&seat.region) else {
            return false;
        };
        if !is_next(self.greatest_task, task) {
            return false;
        }
        if seat.index >= actual {
            return false;
        }
        if !is_size(open.actual, actual) {
            return false;
        }
        !self
            .members
            .contains_key(&member_key(seat.region, seat.index))
    }

    /// Rule 7: at its end a region had as many implicit tasks as its team's size, one at least, and each has its end. Where the region isn't
    /// open its end breaks rule 6.
    pub fn keeps_teams(&self, call: &Call) -> bool
        ensures { (past : List EventRecord) → (t : ℕ) → IsKnown self.now past → Unbroken past →
            keeps_brackets past t call.now ≡ true →
            result ≡ keeps_teams past call.now }
    {
        match call {
            Call::ParallelEnd { region, .. } => match self.regions.get(&region.identity) {
                Some(open) => match open.actual {
                    Some(actual) => {
                        open.had == u64::from(actual) && self.have_left(region.identity, actual)
                    }
                    None => false,
                },
                None => false,
            },
            _ => true,
        }
    }

    /// Whether each index below this one has had its implicit task in the region, and that has its end.
    fn have_left(&self, region: u32, actual: u32) -> bool
        ensures each { result ≡ list_all
            (λ (index : ℕ). has_left_in (get nat_cmp self.now.members (region * 4294967296 + index)))
            (range_with_len 0 actual) }
        ensures fits { actual < 4294967296 }
    {
        (0..actual).all(|index| self.has_left(member_key(region, index)))
    }

    /// Whether the implicit task is there and has its end.
    fn has_left(&self, key: u64) -> bool
        ensures { result ≡ has_left_in (get nat_cmp self.now.members key) }
    {
        match self.members.get(&key) {
            Some(member) => member.left,
            None => false,
        }
    }

    /// Rule 12: at the end of a wait at a barrier each index of the task's open region has begun, with at least as many such waits as the
    /// task; at the end of a taskwait each task that the task created is complete. Where the task isn't the thread's current one the end
    /// breaks rule 6.
    pub fn keeps_waits(&self, thread: Option<Thread>, call: &Call) -> bool
        ensures { (past : List EventRecord) → (t : ℕ) → IsKnown self.now past → Unbroken past →
            thread ≡ thread_known t past →
            keeps_brackets past t call.now ≡ true → result ≡ keeps_waits past call.now }
    {
        match call {
            Call::SyncRegionWait { kind, endpoint, .. } if *endpoint == END => {
                match current_of(thread) {
                    Some(current) => self.may_end_wait(current, *kind),
                    None => false,
                }
            }
            _ => true,
        }
    }

    /// Whether the task that a thread runs may end a wait of this kind.
    fn may_end_wait(&self, current: Current, kind: u32) -> bool
        ensures { (past : List EventRecord) → (t : ℕ) → IsKnown self.now past → Unbroken past →
            running (joins past) (opened t past) ≡ Some current →
            result ≡ ((not (is_barrier kind) || may_pass past current.task) &&
            (not (kind == TASKWAIT) || has_no_child past current.task)) }
    {
        if is_barrier(kind) && !self.may_pass(current) {
            return false;
        }
        if kind != TASKWAIT {
            return true;
        }
        self.has_no_child(current)
    }

    /// Whether each task that this one created is complete.
    fn has_no_child(&self, current: Current) -> bool
        ensures { (past : List EventRecord) → (t : ℕ) → IsKnown self.now past → Unbroken past →
            running (joins past) (opened t past) ≡ Some current →
            result ≡ has_no_child past current.task }
    {
        self.children_of(current) == 0
    }

    /// Whether the task that a thread runs may pass the barrier that it waits at.
    fn may_pass(&self, current: Current) -> bool
        ensures { (past : List EventRecord) → (t : ℕ) → IsKnown self.now past → Unbroken past →
            running (joins past) (opened t past) ≡ Some current →
            result ≡ may_pass past current.task }
    {
        if current.task == INITIAL_TASK {
            return true;
        }
        let Some(seat) = current.seat else {
            return false;
        };
        match self.members.get(&member_key(seat.region, seat.index)) {
            Some(member) => self.have_waited(seat.region, member.waits),
            None => false,
        }
    }

    /// Whether each index of the open region has begun, with at least so many waits at barriers.
    fn have_waited(&self, region: u32, waits: u64) -> bool
        ensures { (past : List EventRecord) → (actual : ℕ) → IsKnown self.now past → Unbroken past →
            is_open_region region past ≡ true →
            team_size (joins_of region past) ≡ Some actual → result ≡ have_waited past region actual waits }
    {
        let Some(open) = self.regions.get(&region) else {
            return false;
        };
        let Some(actual) = open.actual else {
            return false;
        };
        if 0 < waits && waits <= open.waited {
            return true;
        }
        self.each_has_waited(region, actual, waits)
    }

    /// The same, index by index.
    fn each_has_waited(&self, region: u32, actual: u32, waits: u64) -> bool
        ensures each { result ≡ list_all
            (λ (index : ℕ). has_waited_in waits (get nat_cmp self.now.members (region * 4294967296 + index)))
            (range_with_len 0 actual) }
        ensures fits { actual < 4294967296 }
    {
        (0..actual).all(|index| self.has_waited(member_key(region, index), waits))
    }

    /// Whether the implicit task is there and has begun at least so many waits at barriers.
    fn has_waited(&self, key: u64, waits: u64) -> bool
        ensures { result ≡ has_waited_in waits (get nat_cmp self.now.members key) }
    {
        match self.members.get(&key) {
            Some(member) => waits <= member.waits,
            None => false,
        }
    }

    /// How many of the tasks that this one created aren't complete.
    pub fn children_of(&self, current: Current) -> u64
        ensures kept { result ≡ children_kept self.now current }
        ensures counted { (past : List EventRecord) → (t : ℕ) → KnownThings self.now past → Unbroken past →
            running (joins past) (opened t past) ≡ Some current →
            result ≡ children_of current.task past }
    {
        if current.task == INITIAL_TASK {
            return self.children;
        }
        match current.seat {
            Some(seat) => match self.members.get(&member_key(seat.region, seat.index)) {
                Some(member) => member.children,
                None => 0,
            },
            None => match self.created.get(&current.task) {
                Some(created) => created.children,
                None => 0,
            },
        }
    }
}

/// The number of the initial task.
pub(crate) const INITIAL_TASK: u32 = 1;

/// The task that the thread runs.
fn current_of(thread: Option<Thread>) -> Option<Current>
    ensures { (past : List EventRecord) → (t : ℕ) → thread ≡ thread_known t past →
        result ≡ running (joins past) (opened t past) }
{
    match thread {
        Some(thread) => thread.current,
        None => None,
    }
}

/// Whether the thread had its begin and nothing else.
fn had_one_event(thread: Option<Thread>) -> bool
    ensures { (past : List EventRecord) → (t : ℕ) → thread ≡ thread_known t past → result ≡ (events_of t past == 1) }
{
    match thread {
        Some(thread) => !thread.later,
        None => false,
    }
}

/// Whether a team may have this size, where it has this one or none yet.
fn is_size(size: Option<u32>, actual: u32) -> bool
    ensures { result ≡ fits_size size actual }
{
    match size {
        Some(size) => size == actual,
        None => true,
    }
}

/// Whether it is the begin of the initial task, as it has to be.
fn is_initial(call: &Call) -> bool
    ensures { result ≡ is_initial call.now }
{
    match call {
        Call::ImplicitTask {
            endpoint,
            region,
            task,
            actual,
            index,
            flags,
        } => {
            *endpoint == BEGIN
                && *flags == INITIAL
                && region.identity == 1
                && task.identity == INITIAL_TASK
                && *actual == 1
                && *index == 1
        }
        _ => false,
    }
}

/// Whether it begins an initial task.
fn begins_initial(call: &Call) -> bool
    ensures { result ≡ begins_initial call.now }
{
    match call {
        Call::ImplicitTask {
            endpoint,
            flags,
            ..
        } => *endpoint == BEGIN && *flags == INITIAL,
        _ => false,
    }
}

/// Whether a wait of this kind is at a barrier: an explicit one, or an implicit one of worksharing or of a region.
pub(crate) fn is_barrier(kind: u32) -> bool
    ensures { result ≡ is_barrier kind }
{
    kind == BARRIER_EXPLICIT
        || kind == BARRIER_IMPLICIT_WORKSHARE
        || kind == BARRIER_IMPLICIT_PARALLEL
}
