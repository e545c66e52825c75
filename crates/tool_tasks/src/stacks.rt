//! The stacks of tasks of all threads.

ghost use Rattle.std.specs.Prelude.{◌≡◌, ◌∷◌, ◌++◌, ◌+◌, ◌<◌, [], List, IfOk, OnOk, option_map, get_or, set, length};
ghost use Rattle.ompt_calls.specs.declared.event.EventRecord.{EventRecord as EventOf};
ghost use Rattle.tool_tasks.specs.Charge.{charged_task};
ghost use Rattle.tool_tasks.specs.Holding.{HoldsStacks, frame_at, tops_below};

use crate::stack_step::{StackStep, stack_step};
use ompt_calls::EventRecord;
use std::alloc::{AllocError, Global};

/// How many numbers a thread may have: they are bytes.
const THREADS: usize = 256;

/// A task on a stack.
#[derive(Clone, Copy)]
pub(crate) struct StackFrame {
    /// The task.
    pub task: u32,
    /// The number of the frame below it, or 0 where there is none.
    pub below: usize,
}

/// The stacks of tasks of all threads. A frame is kept when its task is popped.
#[derive(Drop)]
pub(crate) struct Stacks {
    /// A frame for each task that was pushed. They are numbered from 1 on.
    pub frames: Vec<StackFrame>,
    /// The number of the top frame of each thread, or 0 where its stack is empty.
    pub tops: [usize; THREADS],
}

impl Stacks {
    /// No thread runs a task yet.
    pub fn new(alloc: Global) -> Stacks
        ensures { HoldsStacks result [] }
    {
        Stacks {
            frames: Vec::new(alloc),
            tops: [0; THREADS],
        }
    }

    /// Takes the next event, and says which task it is charged to.
    pub fn take(&mut self, event: &EventRecord) -> Result<Option<u32>, AllocError>
        ensures charged { IfOk result (λ task. (past : List EventOf) → HoldsStacks self.old past →
            task ≡ charged_task past event.now) }
        ensures taken { OnOk result ((past : List EventOf) → HoldsStacks self.old past →
            HoldsStacks self.new (event.now ∷ past)) }
    {
        match stack_step(&event.call) {
            StackStep::Push(task) => {
                self.push(event.thread, task)?;
                Ok(Some(task))
            }
            StackStep::Pop => Ok(self.pop(event.thread)),
            StackStep::Stay => Ok(self.top(event.thread).map(|frame| frame.task)),
        }
    }

    /// The frame on top of a thread's stack.
    fn top(&self, thread: u8) -> Option<StackFrame>
        ensures { result ≡ frame_at self.now.frames.items (get_or self.now.tops thread 0) }
    {
        let place = self.tops[thread as usize].checked_sub(1)?;
        self.frames.get(place).copied()
    }

    /// A thread goes to a task.
    fn push(&mut self, thread: u8, task: u32) -> Result<(), AllocError>
        ensures frames { OnOk result (self.new.frames.items
            ≡ self.old.frames.items ++ (record { task = task; below = get_or self.old.tops thread 0 }) ∷ []) }
        ensures fits { thread < length self.old.tops }
        ensures tops { OnOk result (self.new.tops ≡ set self.old.tops thread (length self.old.frames.items + 1)) }
    {
        let below = self.tops[thread as usize];
        self.frames.push(StackFrame { task, below })?;
        self.tops[thread as usize] = self.frames.len();
        Ok(())
    }

    /// A thread leaves the task on top.
    fn pop(&mut self, thread: u8) -> Option<u32>
        ensures task { result ≡ option_map (λ frame.
            frame.task) (frame_at self.old.frames.items (get_or self.old.tops thread 0)) }
        ensures frames { self.new.frames ≡ self.old.frames }
        ensures tops { self.new.tops ≡ tops_below self.old.tops thread
            (frame_at self.old.frames.items (get_or self.old.tops thread 0)) }
    {
        let frame = self.top(thread)?;
        self.tops[thread as usize] = frame.below;
        Some(frame.task)
    }
}
