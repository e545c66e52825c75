//! The board of a run: what its turns change.

ghost use Rattle.std.specs.Prelude.{◌≡◌, ◌≤◌, ◌-◌, ◌∷◌, IfOk, OnOk, length, replicate, reverse};
ghost use Rattle.omp_model.specs.declared.limits.TheConstants.{STACK_LIMIT};
ghost use Rattle.omp_model.specs.State.{first_world, initial_thread, thread_at, unmade};
ghost use Rattle.omp_model.specs.Snapshots.{lowest_of};
ghost use Rattle.omp_model.specs.Members.{current, current_index, current_region, is_outermost, member_index, region_of, view_of};
ghost use Rattle.omp_board.specs.Board.{HasEvent, run_in};
ghost use Rattle.omp_board.specs.Tasks.{steps_ahead};
ghost use Rattle.c_steps.specs.Scopes.{HasNumbers};

mod arrival;
mod coming;
mod effects;
mod meeting;
mod returning;
mod silent;
mod tasks;
mod threads;
mod words;

use crate::regions::Regions;
use crate::tasks::Tasks;
use crate::thread::Thread;
use c_check::Program;
use c_model::View;
pub use meeting::sync_number;
use omp_model::{IMPLICIT_REGION, ThreadStage};
use std::alloc::{AllocError, Global};
use std::marker::Model;
use sync_objects::Locks;
use task_pool::{Pool, TaskKind};

/// The threads, tasks and regions of a run, its cells with the text, and its locks. Contracts see the program, the world of the definitions, and room
/// for a turn.
#[derive(Drop)]
pub struct Board {
    /// The threads, by number.
    threads: Vec<Thread>,
    /// The tasks with their code, and what all code shares.
    pub(crate) tasks: Tasks,
    /// The tasks' parents, regions and conditions, and the ready order.
    pub(crate) pool: Pool,
    /// The regions with their teams.
    pub(crate) regions: Regions,
    /// The locks and criticals that are initialised.
    locks: Locks,
}

impl Model for Board {
    ghost use Rattle.omp_board.specs.Board.{BoardView, IsJoined, board_code, room_with, world_with};

    ghost Value = { BoardView };

    ghost coded = { board_code };

    ghost view = { λ board. record {
      program = board.tasks.program;
      world = world_with board.threads.items board.tasks board.pool board.regions board.locks;
      room = room_with board.tasks board.regions board.locks;
    } };

    ghost invariant = { λ board. IsJoined board.threads.items board.tasks board.pool board.regions };
}

impl Board {
    /// The board of a program before its first turn, with so many threads, of which thread 0 is made.
    pub fn new(alloc: Global, program: Program, threads: u8) -> Result<Board, AllocError>
        requires some { 1 ≤ threads }
        requires few { threads ≤ 16 }
        ensures program { IfOk result (λ board. board.program ≡ program) }
        ensures world { IfOk result (λ board. board.world ≡ first_world (run_in program threads)) }
    {
        let criticals = program.critical_count();
        let threads = all_threads(alloc, threads)?;
        let tasks = Tasks::new(alloc, program)?;
        let mut pool = Pool::new(alloc)?;
        pool.reserve(IMPLICIT_REGION)?;
        let _ = pool.add(0, IMPLICIT_REGION, TaskKind::Initial);
        let regions = Regions::new(alloc)?;
        let locks = Locks::new(alloc, criticals)?;
        Ok(Board {
            threads,
            tasks,
            pool,
            regions,
            locks,
        })
    }

    /// Makes room for a turn of the thread. Where it finds no memory, nothing but room has changed.
    pub fn reserve(&mut self, thread: u8) -> Result<(), AllocError>
        ensures kept { self.new ≡ record self.old { room = self.new.room } }
        ensures turn { OnOk result (HasEvent self.new.room self.new.world thread) }
        ensures steps { OnOk result (steps_ahead ≤ self.new.room.steps) }
    {
        let task = self.current(thread);
        let region = self.region_of(task);
        self.pool.reserve(self.regions.next())?;
        self.locks.reserve()?;
        self.regions.reserve(region)?;
        self.tasks.reserve(task)
    }

    /// How many threads there may be.
    pub fn threads(&self) -> u8
        ensures { result ≡ length self.now.world.threads }
    {
        self.threads.len() as u8
    }

    /// The current task of the thread, or 0.
    #[inline(always)]
    pub fn current(&self, thread: u8) -> u32
        ensures { result ≡ current self.now.world thread }
    {
        match self.threads.get(thread as usize) {
            Some(thread) => thread.current(),
            None => 0,
        }
    }

    /// The region of the task, or 0.
    #[inline(always)]
    pub fn region_of(&self, task: u32) -> u32
        ensures { result ≡ region_of self.now.world task }
    {
        self.pool.task(task).region
    }

    /// The region of the thread's current task, or 0.
    #[inline(always)]
    pub fn current_region(&self, thread: u8) -> u32
        ensures { result ≡ current_region self.now.world thread }
    {
        self.region_of(self.current(thread))
    }

    /// Whether the region was forked in the implicit region of the initial task.
    #[inline(always)]
    pub fn is_outermost(&self, region: u32) -> bool
        ensures { result ≡ is_outermost self.now.world region }
    {
        self.region_of(self.regions.head(region).task) == IMPLICIT_REGION
    }

    /// The number of the thread in the region's team.
    #[inline(always)]
    pub fn member_index(&self, thread: u8, region: u32) -> u8
        ensures { result ≡ member_index self.now.world thread region }
    {
        if self.is_outermost(region) { thread } else { 0 }
    }

    /// The region of the thread's current task, or 0, and the number of the thread in its team.
    #[inline(always)]
    fn place_in_team(&self, thread: u8) -> (u32, u8)
        ensures region { result.0 ≡ current_region self.now.world thread }
        ensures member { result.1 ≡ current_index self.now.world thread }
    {
        let region = self.current_region(thread);
        (region, self.member_index(thread, region))
    }

    /// The tasks that the thread has taken up, the current one last.
    pub fn stack(&self, thread: u8) -> &[u32]
        ensures tasks { reverse result.now ≡ (thread_at self.now.world thread).stack }
        ensures few { length result.now ≤ STACK_LIMIT }
    {
        match self.threads.get(thread as usize) {
            Some(thread) => &thread.stack,
            None => &[],
        }
    }

    /// The lowest task of the thread's stack, or 0.
    pub fn lowest(&self, thread: u8) -> u32
        ensures { result ≡ lowest_of (thread_at self.now.world thread).stack }
    {
        match self.stack(thread).first() {
            Some(task) => *task,
            None => 0,
        }
    }

    /// What the code of the thread's current task sees.
    #[inline(always)]
    pub fn view(&self, thread: u8) -> View
        ensures view { result ≡ view_of self.now.world thread }
        ensures numbers { HasNumbers result }
    {
        let (region, member) = self.place_in_team(thread);
        View {
            index: u32::from(member),
            team: u32::from(self.regions.head(region).size),
            max: u32::from(self.threads()),
        }
    }
}

/// Thread 0, and the others that may be made.
fn all_threads(alloc: Global, threads: u8) -> Result<Vec<Thread>, AllocError>
    requires { 1 ≤ threads }
    ensures { IfOk result (λ all. all.items ≡ initial_thread ∷ replicate (threads - 1) unmade) }
{
    let mut all = Vec::new(alloc);
    all.push(Thread::new(alloc, ThreadStage::Made)?)?;
    for _made in 0..threads - 1 {
        all.push(Thread::new(alloc, ThreadStage::Unmade)?)?;
    }
    Ok(all)
}
