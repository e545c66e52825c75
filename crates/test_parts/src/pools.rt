//! A small pool and a full one, and long lists of calls beside plain lists.

use crate::draws::Draws;
use crate::plain_pool::PlainPool;
use std::alloc::{AllocError, Global};
use std::test::Fail;
use task_pool::{Condition, Full, Pool, TaskId, TaskKind};

/// A pool with its first task, of this region.
fn first_task(alloc: Global, region: u32) -> Result<Pool, AllocError> {
    let mut pool = Pool::new(alloc)?;
    pool.reserve(region)?;
    let _ = pool.add(0, region, TaskKind::Initial);
    Ok(pool)
}

/// One more task, of a parent that was made. Tells its identity; 0 where there is none.
fn add_child(
    pool: &mut Pool,
    parent: TaskId,
    region: u32,
    kind: TaskKind,
) -> Result<Result<TaskId, Full>, AllocError> {
    pool.reserve(region)?;
    if 1 <= parent && parent as usize <= pool.made_count() {
        return Ok(pool.add(parent, region, kind));
    }
    Ok(Ok(0))
}

/// The task is ready, where it was made and no more.
fn ready(pool: &mut Pool, task: TaskId) -> bool {
    match pool.task(task).condition {
        Condition::Made => {
            pool.ready(task);
            true
        }
        Condition::Ready | Condition::Started | Condition::Finished => false,
    }
}

/// The task starts, where it is made or ready.
fn start(pool: &mut Pool, task: TaskId) -> bool {
    match pool.task(task).condition {
        Condition::Made | Condition::Ready => {
            pool.start(task);
            true
        }
        Condition::Started | Condition::Finished => false,
    }
}

/// The task finishes, where it has started.
fn finish(pool: &mut Pool, task: TaskId) -> bool {
    match pool.task(task).condition {
        Condition::Started => {
            pool.finish(task);
            true
        }
        Condition::Made | Condition::Ready | Condition::Finished => false,
    }
}

/// What is done with a pool or asked of it, and where it answers, the answer.
enum Step {
    /// A task of region 1 is made, of this parent and with this identity.
    Adds(TaskId, TaskId),
    Readies(TaskId),
    Starts(TaskId),
    Finishes(TaskId),
    /// The newest ready task of the region that descends from these.
    Newest(u32, &'static [TaskId], Option<TaskId>),
    OpenChildren(TaskId, u32),
    Unfinished(u32, u32),
    ReadyList(&'static [TaskId]),
}

/// Tasks 1 to 4 of region 1, of which 4 is a child of 2 and the others are children of 1; 4, 2, 3 become ready in this order.
const STEPS: &[Step] = &[
    Step::Adds(1, 2),
    Step::Adds(1, 3),
    Step::Adds(2, 4),
    Step::Readies(4),
    Step::Readies(2),
    Step::Readies(3),
    Step::Newest(1, &[1], Some(3)),
    Step::Newest(1, &[1, 2], Some(4)),
    Step::Newest(1, &[2, 1], Some(4)),
    Step::Newest(1, &[3], None),
    Step::Newest(2, &[], None),
    Step::OpenChildren(1, 2),
    Step::Unfinished(1, 3),
    Step::ReadyList(&[4, 2, 3]),
    Step::Starts(2),
    Step::ReadyList(&[4, 3]),
    Step::Newest(1, &[2], Some(4)),
    Step::Starts(3),
    Step::Starts(4),
    Step::ReadyList(&[]),
    Step::Finishes(4),
    Step::OpenChildren(2, 0),
    Step::Unfinished(1, 2),
];

#[test]
fn newest_allowed_and_ready_list(rt: HostRuntime) -> Result<(), Fail> {
    let mut pool = first_task(rt.alloc(), 1)?;
    for (number, step) in STEPS.iter().enumerate() {
        let is_as_told = goes(&mut pool, step)?;
        assert!(rt; is_as_told, "at {number}");
    }
    Ok(())
}

/// Whether the pool does and answers what the step has.
fn goes(pool: &mut Pool, step: &Step) -> Result<bool, AllocError> {
    Ok(match step {
        Step::Adds(parent, task) => add_child(pool, *parent, 1, TaskKind::Explicit)? == Ok(*task),
        Step::Readies(task) => ready(pool, *task),
        Step::Starts(task) => start(pool, *task),
        Step::Finishes(task) => finish(pool, *task),
        Step::Newest(region, held, newest) => pool.newest_allowed(*region, held) == *newest,
        Step::OpenChildren(task, count) => pool.open_children(*task) == *count,
        Step::Unfinished(region, count) => pool.unfinished(*region) == *count,
        Step::ReadyList(tasks) => has_ready(pool, tasks)?,
    })
}

/// Whether these are the ready tasks, in this order.
fn has_ready(pool: &Pool, tasks: &[TaskId]) -> Result<bool, AllocError> {
    Ok(pool.ready_list()?.as_slice() == tasks)
}

#[test]
fn full_pool(rt: HostRuntime) -> Result<(), Fail> {
    let mut pool = first_task(rt.alloc(), 1)?;
    for task in 2..65_536u32 {
        let made = add_child(&mut pool, 1, 1, TaskKind::Explicit)?;
        assert!(rt; made == Ok(task), "at {task}");
    }
    let made = add_child(&mut pool, 1, 1, TaskKind::Explicit)?;
    assert!(rt; made == Err(Full));
    assert!(rt; pool.open_children(1) == 65_534);
    assert!(rt; pool.made_count() == 65_535);
    Ok(())
}

/// A pool beside plain lists, and how many tasks were made.
#[derive(Drop)]
struct Both {
    pool: Pool,
    plain: PlainPool,
    made: u32,
}

/// A pool with its first task, which is of region 0.
fn both_of(alloc: Global) -> Result<Both, AllocError> {
    let mut plain = PlainPool {
        tasks: Vec::new(alloc),
        ready: Vec::new(alloc),
    };
    plain.add(0, 0, TaskKind::Initial)?;
    let pool = first_task(alloc, 0)?;
    Ok(Both {
        pool,
        plain,
        made: 1,
    })
}

#[test]
fn agrees_with_plain_lists(rt: HostRuntime) -> Result<(), Fail> {
    let mut draws = Draws { state: 7 };
    let mut both = both_of(rt.alloc())?;
    for call in 0..8_000u32 {
        let agree = both.agree_at(call, &mut draws)?;
        assert!(rt; agree, "at {call}");
    }
    Ok(())
}

impl Both {
    /// A task may go on, where at each twentieth call one more is made before. Tells whether both answer the same then.
    fn agree_at(&mut self, call: u32, draws: &mut Draws) -> Result<bool, AllocError> {
        let task = self.task(draws);
        let region = draws.below(3);
        if call % 20 == 0 && self.made < 400 {
            let kind = kind_of(draws.below(5));
            if !self.add(task, region, kind)? {
                return Ok(false);
            }
        }
        self.go_on(draws.below(6), task)?;
        let held = [task, self.task(draws)];
        self.agree(task, region, held)
    }

    /// One of the tasks.
    fn task(&self, draws: &mut Draws) -> TaskId {
        draws.below(self.made).saturating_add(1)
    }

    /// A task of this parent is made. Tells whether it is the next one.
    fn add(&mut self, parent: TaskId, region: u32, kind: TaskKind) -> Result<bool, AllocError> {
        self.made = self.made.saturating_add(1);
        self.plain.add(parent, region, kind)?;
        Ok(add_child(&mut self.pool, parent, region, kind)? == Ok(self.made))
    }

    /// The task goes on, where this draw says so and it can.
    fn go_on(&mut self, draw: u32, task: TaskId) -> Result<(), AllocError> {
        if draw < 2 && ready(&mut self.pool, task) {
            self.plain.make_ready(task)?;
        }
        if draw == 2 && start(&mut self.pool, task) {
            self.plain.start(task);
        }
        if draw == 3 && finish(&mut self.pool, task) {
            self.plain.set_condition(task, Condition::Finished);
        }
        Ok(())
    }

    /// Whether both answer the same of this task, region and two tasks that are held.
    fn agree(&self, task: TaskId, region: u32, held: [TaskId; 2]) -> Result<bool, AllocError> {
        let is_same = self.agree_on(task, region)
            && self.agree_on_newest(region, &held)
            && self.agree_on_newest(region, &held[..1]);
        Ok(is_same && has_ready(&self.pool, &self.plain.ready)?)
    }

    /// Whether both answer the same of this task and region.
    fn agree_on(&self, task: TaskId, region: u32) -> bool {
        self.pool.open_children(task) == self.plain.open_children(task)
            && self.pool.unfinished(region) == self.plain.unfinished(region)
            && self.pool.task(task) == self.plain.task(task)
    }

    /// Whether both answer the same of this region where these tasks are held.
    fn agree_on_newest(&self, region: u32, held: &[TaskId]) -> bool {
        self.pool.newest_allowed(region, held) == self.plain.newest_allowed(region, held)
    }
}

/// The kind that this draw stands for.
fn kind_of(draw: u32) -> TaskKind {
    match draw {
        0 => TaskKind::Implicit,
        1 => TaskKind::Undeferred,
        _ => TaskKind::Explicit,
    }
}
