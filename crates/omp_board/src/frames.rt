//! The frames of tasks, right after the Go of an event.

ghost use Rattle.std.specs.Prelude.{◌≡◌, ◌≤◌, ◌+◌, ◌*◌};
ghost use Rattle.omp_model.specs.Frames as frames;

use crate::board::Board;
use omp_model::{Event, INITIAL_TASK, STACK_LIMIT};
use ompt_calls::Frame;
use task_pool::Condition;

/// How many numbers a thread's frames have.
const FRAMES_OF_A_THREAD: u32 = 65536;

/// How far the number of a frame inside the runtime is from that of its task's code.
const INSIDE: u32 = 32768;

/// Whether a started task of the owner, with so many below it, is inside the runtime, at the event of the thread.
#[inline(always)]
fn is_inside(board: &Board, thread: u8, event: Event, owner: u8, task: u32, below: usize) -> bool
    requires { below ≤ STACK_LIMIT }
    ensures { result ≡ frames.is_inside board.now.world thread event owner task below }
{
    below + 1 != board.depth(owner)
        || board.tasks.forked(task) != 0
        || (owner == thread
            && !matches!(
                event,
                Event::InitialTaskBegin | Event::MemberBegin { .. } | Event::TaskBegin { .. }
            ))
}

/// The number of the place on the owner's stack with so many tasks below it.
#[inline(always)]
fn frame_base(owner: u8, below: usize) -> u32
    requires { below ≤ STACK_LIMIT }
    ensures base { result ≡ frames.frame_base owner below }
    ensures bounded { result ≤ 255 * 65536 + 257 }
{
    u32::from(owner) * FRAMES_OF_A_THREAD + below as u32 + 1
}

/// The frame of a task of the owner, with so many below it, at the event of the thread. The initial task's code has no frame outside of it.
#[inline(always)]
pub fn frame_of(
    board: &Board,
    thread: u8,
    event: Event,
    owner: u8,
    task: u32,
    below: usize,
) -> Frame
    requires { below ≤ STACK_LIMIT }
    ensures { result ≡ frames.frame_of board.now.world thread event owner task below }
{
    let is_under_way = matches!(board.pool.task(task).condition, Condition::Started);
    let exit = if is_under_way && task != INITIAL_TASK {
        frame_base(owner, below)
    } else {
        0
    };
    let enter = if is_under_way && is_inside(board, thread, event, owner, task, below) {
        frame_base(owner, below) + INSIDE
    } else {
        0
    };
    Frame { exit, enter }
}

/// The frame of the thread's current task, at its event.
pub fn current_frame(board: &Board, thread: u8, event: Event) -> Frame
    ensures { result ≡ frames.current_frame board.now.world thread event }
{
    let below = board.depth(thread).saturating_sub(1);
    frame_of(board, thread, event, thread, board.current(thread), below)
}
