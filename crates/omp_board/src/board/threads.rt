//! What changes of threads.

ghost use Rattle.std.specs.Prelude.{◌≡◌, ◌<◌, ◌≤◌, length};
ghost use Rattle.omp_model.specs.declared.limits.TheConstants.{STACK_LIMIT};
ghost use Rattle.omp_model.specs.State.{thread_at};
ghost use Rattle.omp_model.specs.Changes as changes;
ghost use Rattle.omp_model.specs.Changes.{with_invitations};

use crate::board::Board;
use crate::thread::Thread;
use omp_model::{Share, ThreadStage};

impl Board {
    /// How many tasks are on the thread's stack.
    pub fn depth(&self, thread: u8) -> usize
        ensures counted { result ≡ length (thread_at self.now.world thread).stack }
        ensures few { result ≤ STACK_LIMIT }
    {
        match self.threads.get(thread as usize) {
            Some(thread) => thread.stack.len(),
            None => 0,
        }
    }

    /// The thread has come so far.
    pub(super) fn set_stage(&mut self, thread: u8, stage: ThreadStage)
        ensures { self.new ≡ record self.old { world = changes.with_stage self.old.world thread stage } }
    {
        if let Some(thread) = self.threads.get_mut(thread as usize) {
            thread.stage = stage;
        }
    }

    /// The thread takes a task up: it is to join no region and to start no undeferred task any more.
    pub(super) fn take_up(&mut self, thread: u8, task: u32)
        requires { length (thread_at self.old.world thread).stack < STACK_LIMIT }
        ensures { self.new ≡ record self.old { world = changes.taken_up self.old.world thread task } }
    {
        if let Some(thread) = self.threads.get_mut(thread as usize) {
            thread.push(task);
        }
        self.tasks.set_thread(task, thread);
    }

    /// The thread's current task is taken off its stack.
    pub(super) fn pop(&mut self, thread: u8)
        ensures { self.new ≡ record self.old { world = changes.without_current_task self.old.world thread } }
    {
        if let Some(thread) = self.threads.get_mut(thread as usize) {
            thread.pop();
        }
    }

    /// The thread has taken a share of work, or that was told.
    pub(super) fn share(&mut self, thread: u8, share: Option<Share>)
        ensures { self.new ≡ record self.old { world = changes.with_taken_share self.old.world thread share } }
    {
        if let Some(thread) = self.threads.get_mut(thread as usize) {
            thread.taken = share;
        }
    }

    /// The members of a region are to join it, which this thread has forked.
    pub(super) fn open(&mut self, thread: u8, region: u32)
        ensures { self.new ≡ record self.old { world = changes.with_members_invited self.old.world thread region } }
    {
        if self.is_outermost(region) {
            let size = self.regions.head(region).size;
            invite(&mut self.threads, region, size as usize);
        } else if let Some(thread) = self.threads.get_mut(thread as usize) {
            thread.invite(region);
        }
    }
}

/// The first threads, so many, are to join the region.
fn invite(threads: &mut [Thread], region: u32, size: usize)
    ensures { threads.new ≡ with_invitations region size threads.old }
{
    let size = size.min(threads.len());
    for thread in &mut threads[..size] {
        thread.invite(region);
    }
}
