//! The levels of tasks and regions that a tool can inquire during a callback.

ghost use Rattle.std.specs.Prelude.{◌≡◌, ◌≤◌, ◌<◌, ◌+◌, ◌++◌, length, reverse, vec_capacity, vec_len};
ghost use Rattle.omp_model.specs.Snapshots as snapshots;
ghost use Rattle.omp_board.specs.Levels.{GoesOn, unless_again};

use crate::board::Board;
use crate::frames::frame_of;
use omp_codes::task_flags::{EXPLICIT, EXPLICIT_UNDEFERRED, IMPLICIT, INITIAL};
use omp_model::{Event, INITIAL_TASK, STACK_LIMIT};
use ompt_calls::{RegionLevel, RegionLevels, Sequence, TaskLevel, TaskLevels, Word};
use std::alloc::{AllocError, Global};
use std::marker::Model;
use task_pool::TaskKind;

/// The most levels of a snapshot: a thread's own stack, and a part of the stack of thread 0.
const LEVEL_LIMIT: usize = 2 * STACK_LIMIT;

/// The levels of a snapshot before there are any. There is room for the most that a snapshot has, so that they take no
/// memory later.
#[derive(Drop)]
pub struct Levels {
    /// The tasks.
    tasks: Vec<TaskLevel>,
    /// The regions.
    regions: Vec<RegionLevel>,
}

impl Model for Levels {
    ghost use Rattle.std.specs.Prelude.{◌≡◌, ◌≤◌, [], vec_capacity};
    ghost use Rattle.omp_board.specs.declared.levels.TheConstants.{LEVEL_LIMIT};

    ghost Value = { Unit {0} };

    ghost view = { λ levels. tt };

    ghost invariant = { λ levels. (levels.tasks.items ≡ []) × (LEVEL_LIMIT ≤ vec_capacity levels.tasks)
        × (levels.regions.items ≡ []) × (LEVEL_LIMIT ≤ vec_capacity levels.regions) };
}

impl Levels {
    /// The room for them.
    pub fn new(alloc: Global) -> Result<Levels, AllocError> {
        let tasks = Vec::with_capacity(alloc, LEVEL_LIMIT)?;
        let regions = Vec::with_capacity(alloc, LEVEL_LIMIT)?;
        Ok(Levels { tasks, regions })
    }

    /// The room of a snapshot's levels for those of the next one, where it is room for as many.
    pub fn again(tasks: TaskLevels, regions: RegionLevels) -> Option<Levels> {
        let Sequence(mut tasks) = tasks;
        let Sequence(mut regions) = regions;
        tasks.clear();
        regions.clear();
        if tasks.capacity() >= LEVEL_LIMIT && regions.capacity() >= LEVEL_LIMIT {
            Some(Levels { tasks, regions })
        } else {
            None
        }
    }

    /// The levels at the event of the thread. They take no memory.
    pub fn fill(self, board: &Board, thread: u8, event: Event) -> (TaskLevels, RegionLevels)
        ensures tasks { result.0 ≡ snapshots.task_levels board.now.world thread event }
        ensures regions { result.1 ≡ snapshots.region_levels board.now.world
            (snapshots.task_levels board.now.world thread event) }
    {
        let Levels { tasks, regions } = self;
        let mut filling = Filling {
            tasks,
            regions,
            last: 0,
        };
        filling.push_stack(board, thread, event, thread, board.stack(thread));
        let outer = outer_tasks(board, board.lowest(thread));
        filling.push_stack(board, thread, event, 0, outer);
        let Filling { tasks, regions, .. } = filling;
        (Sequence(tasks), Sequence(regions))
    }
}

/// The levels of a snapshot so far. Those of regions follow those of tasks.
#[derive(Drop)]
struct Filling {
    /// The tasks.
    tasks: Vec<TaskLevel>,
    /// The regions, each once where it repeats directly.
    regions: Vec<RegionLevel>,
    /// The region of the last level, or 0.
    last: u32,
}

impl Filling {
    /// Adds the levels of these tasks of the owner, which are the lowest of its stack, from top to bottom, and those of their regions.
    #[inline(always)]
    fn push_stack(&mut self, board: &Board, thread: u8, event: Event, owner: u8, stack: &[u32])
        requires limit { length stack.now ≤ STACK_LIMIT }
        requires tasks { vec_len self.old.tasks + length stack.now ≤ vec_capacity self.old.tasks }
        requires regions { vec_len self.old.regions + length stack.now ≤ vec_capacity self.old.regions }
        ensures items { self.new.tasks.items ≡ self.old.tasks.items ++
            snapshots.levels_from board.now.world thread event owner (reverse stack.now) }
        ensures regions { GoesOn board.now.world self.old.regions.items self.old.last
            (snapshots.levels_from board.now.world thread event owner (reverse stack.now))
            self.new.regions.items self.new.last }
        ensures len { vec_len self.new.tasks ≡ vec_len self.old.tasks + length stack.now }
        ensures few { vec_len self.new.regions ≤ vec_len self.old.regions + length stack.now }
        ensures capacity { vec_capacity self.old.tasks ≤ vec_capacity self.new.tasks }
        ensures enough { vec_capacity self.old.regions ≤ vec_capacity self.new.regions }
    {
        let mut below = stack.len();
        while below > 0 {
            below -= 1;
            let level = task_level(board, thread, event, owner, stack[below], below);
            push_region(&mut self.regions, board, self.last, level.region);
            self.last = level.region.identity;
            self.tasks.push(level).unwrap();
        }
    }
}

/// The flags of a task of this kind.
pub fn task_flags(kind: TaskKind) -> u32
    ensures { result ≡ snapshots.task_flags kind }
{
    match kind {
        TaskKind::Initial => INITIAL,
        TaskKind::Implicit => IMPLICIT,
        TaskKind::Explicit => EXPLICIT,
        TaskKind::Undeferred => EXPLICIT_UNDEFERRED,
    }
}

/// The level of a task of the owner, with so many below it, at the event of the thread.
#[inline(always)]
fn task_level(
    board: &Board,
    thread: u8,
    event: Event,
    owner: u8,
    task: u32,
    below: usize,
) -> TaskLevel
    requires { below ≤ STACK_LIMIT }
    ensures { result ≡ snapshots.task_level board.now.world thread event owner task below }
{
    let pooled = board.pool.task(task);
    TaskLevel {
        flags: task_flags(pooled.kind),
        word: board.task_word(task),
        frame: frame_of(board, thread, event, owner, task, below),
        region: board.region_word(pooled.region),
        index: u32::from(board.member_index(owner, pooled.region)),
    }
}

/// The lowest tasks of a stack, up to this one; none where it isn't there.
fn up_to(stack: &[u32], task: u32) -> &[u32]
    ensures tasks { reverse result.now ≡ snapshots.down_from task (reverse stack.now) }
    ensures few { length result.now ≤ length stack.now }
{
    let mut lowest = stack;
    while let Some((top, below)) = lowest.split_last() {
        if *top == task {
            return lowest;
        }
        lowest = below;
    }
    lowest
}

/// The tasks beyond a stack with this lowest task: those of thread 0 up to the encountering task of its region, unless it is the initial task.
fn outer_tasks(board: &Board, lowest: u32) -> &[u32]
    ensures tasks { reverse result.now ≡ snapshots.outer_tasks board.now.world lowest }
    ensures few { length result.now ≤ STACK_LIMIT }
{
    if lowest == 0 || lowest == INITIAL_TASK {
        return &[];
    }
    let region = board.regions.head(board.region_of(lowest));
    up_to(board.stack(0), region.task)
}

/// Adds the level of the region with this word, unless it is the last one again.
#[inline(always)]
fn push_region(levels: &mut Vec<RegionLevel>, board: &Board, last: u32, word: Word)
    requires { vec_len levels.old < vec_capacity levels.old }
    ensures items { levels.new.items ≡ levels.old.items ++ unless_again board.now.world last word }
    ensures len { vec_len levels.new ≤ vec_len levels.old + 1 }
    ensures capacity { vec_capacity levels.old ≤ vec_capacity levels.new }
{
    if word.identity != last {
        let team = u32::from(board.regions.head(word.identity).size);
        levels.push(RegionLevel { word, team }).unwrap();
    }
}
