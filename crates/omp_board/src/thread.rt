//! A thread: how far it has come, and the tasks that it has taken up.

ghost use Rattle.std.specs.Prelude.{◌≡◌, ◌<◌, ◌∷◌, [], None, drop, length, slice_index_or, IfOk};
ghost use Rattle.omp_model.specs.Changes.{with_invitation};

use omp_model::{STACK_LIMIT, Share, ThreadStage};
use std::alloc::{AllocError, Global};
use std::marker::Model;

/// A thread of the machine. Its stack has room for as many tasks as the limit allows, so that a push takes no memory.
#[derive(Drop)]
pub struct Thread {
    /// How far it has come.
    pub stage: ThreadStage,
    /// The identities of the tasks that it has taken up, the current one last.
    pub stack: Vec<u32>,
    /// The region that it is to join next, or 0.
    pub invited: u32,
    /// The undeferred task that it starts next, or 0.
    pub undeferred: u32,
    /// The share of work that it has taken and that no event has followed.
    pub taken: Option<Share>,
    /// What a tool last stored into its data word, or 0.
    pub word: u64,
}

impl Model for Thread {
    ghost use Rattle.std.specs.Prelude.{reverse, vec_capacity};
    ghost use Rattle.omp_model.specs.State.{Thread as Seen};
    ghost use Rattle.omp_board.specs.Threads.{IsStack};

    ghost Value = { Seen };

    ghost view = { λ thread. record {
      stage = thread.stage;
      stack = reverse thread.stack.items;
      invited = thread.invited;
      undeferred = thread.undeferred;
      taken = thread.taken;
      word = thread.word;
    } };

    ghost invariant = { λ thread. IsStack thread.stack.items (vec_capacity thread.stack) };
}

impl Thread {
    /// A thread that has come so far, with no task.
    pub fn new(alloc: Global, stage: ThreadStage) -> Result<Thread, AllocError>
        ensures { IfOk result (λ thread. thread ≡ record {
          stage = stage;
          stack = [];
          invited = 0;
          undeferred = 0;
          taken = None;
          word = 0;
        }) }
    {
        let stack = Vec::with_capacity(alloc, STACK_LIMIT)?;
        Ok(Thread {
            stage,
            stack,
            invited: 0,
            undeferred: 0,
            taken: None,
            word: 0,
        })
    }

    /// The current task, or 0.
    pub fn current(&self) -> u32
        ensures { result ≡ slice_index_or self.now.stack 0 0 }
    {
        match self.stack.last() {
            Some(task) => *task,
            None => 0,
        }
    }

    /// The thread takes a task up: it is to join no region and to start no undeferred task any more.
    pub fn push(&mut self, task: u32)
        requires { length self.old.stack < STACK_LIMIT }
        ensures { self.new ≡ record self.old { stack = task ∷ self.old.stack; invited = 0; undeferred = 0 } }
    {
        self.stack.push(task).unwrap();
        self.invited = 0;
        self.undeferred = 0;
    }

    /// The current task, if there is one, is taken off.
    pub fn pop(&mut self)
        ensures { self.new ≡ record self.old { stack = drop 1 self.old.stack } }
    {
        let _ = self.stack.pop();
    }

    /// The thread is to join the region next. It is made, if it wasn't.
    pub fn invite(&mut self, region: u32)
        ensures { self.new ≡ with_invitation region self.old }
    {
        if let ThreadStage::Unmade = self.stage {
            self.stage = ThreadStage::Made;
        }
        self.invited = region;
    }
}
