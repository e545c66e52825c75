//! The tasks of a run, and the order in which they became ready.

ghost use Rattle.std.specs.Prelude.{◌≡◌, ◌≢◌, ◌≤◌, IfOk, OnOk, OnErr, length, true};
ghost use Rattle.task_pool.specs.Tasks.{task_at, IsMade, open_children, unfinished, is_explicit, is_ready, MayBeParent};
ghost use Rattle.task_pool.specs.View.{no_pool, HasRoom, with_room, answer_to_add, with_added, with_ready, with_started, with_finished};
ghost use Rattle.task_pool.specs.Allowed.{parent_of, descends, descends_from_all, newest_allowed};
ghost use Rattle.task_pool.specs.Links.{tasks_of, rings_of, with_task_last, with_task_out, AreInOrder, IsLinked};
ghost use Rattle.task_pool.specs.Walking.{IsReached};
ghost use Rattle.task_pool.specs.declared.task.Condition.TheVariants as condition;

use crate::chain::Chain;
use crate::node::Links;
use crate::task::{Condition, Full, TASK_LIMIT, Task, TaskId, TaskKind};
use std::alloc::Global;
use std::marker::Model;

/// The error of a call that found no memory.
pub type Memory = std::alloc::AllocError;

/// The tasks of a run.
///
/// Contracts see the list of the tasks by identity, the identities of the ready ones in the order in which they became
/// ready, for how many regions there are places, and how many more tasks there is room for. Only [`Pool::new`],
/// [`Pool::reserve`] and [`Pool::ready_list`] take memory.
#[derive(Drop)]
pub struct Pool {
    /// Where its memory comes from.
    alloc: Global,
    /// The tasks and regions with their links.
    chain: Chain,
}

impl Model for Pool {
    ghost use Rattle.task_pool.specs.View.{PoolView};
    ghost use Rattle.task_pool.specs.Links.{pool_view, IsLinked};

    ghost Value = { PoolView };

    ghost view = { λ pool. pool_view pool.chain };

    ghost invariant = { λ pool. IsLinked pool.chain };
}

impl Pool {
    /// A pool without tasks.
    pub fn new(alloc: Global) -> Result<Pool, Memory>
        ensures { IfOk result (λ pool. pool ≡ no_pool) }
    {
        let chain = Chain::new(alloc)?;
        Ok(Pool { alloc, chain })
    }

    /// Makes room for one task of the region, which stays until the next [`Pool::add`].
    pub fn reserve(&mut self, region: u32) -> Result<(), Memory>
        ensures room { OnOk result (self.new ≡ with_room self.old region) }
        ensures memory { OnErr result (self.new ≡ self.old) }
    {
        self.chain.reserve(region)
    }

    /// Makes a task, and tells its identity. Where 65,535 tasks were made there is no further one, and nothing changes.
    pub fn add(&mut self, parent: TaskId, region: u32, kind: TaskKind) -> Result<TaskId, Full>
        requires room { HasRoom self.old region }
        requires parent { MayBeParent self.old.tasks parent }
        ensures answer { result ≡ answer_to_add self.old.tasks }
        ensures added { OnOk result (self.new ≡ with_added self.old parent region kind) }
        ensures full { OnErr result (self.new ≡ self.old) }
    {
        if self.chain.len() == TASK_LIMIT {
            return Err(Full);
        }
        self.chain.push(Task {
            parent,
            region,
            kind,
            condition: Condition::Made,
        });
        if is_explicit(kind) {
            self.chain.count_up(parent, region);
        }
        Ok(self.chain.len() as TaskId)
    }

    /// The task is ready, and the last in the ready order.
    pub fn ready(&mut self, task: TaskId)
        requires { (task_at self.old.tasks task).condition ≡ condition.Made }
        ensures { self.new ≡ with_ready self.old task }
    {
        link_last(&mut self.chain, task);
        self.chain.set_condition(task, Condition::Ready);
    }

    /// The task has started. If it was in the ready order it is so no longer.
    pub fn start(&mut self, task: TaskId)
        requires { (task_at self.old.tasks task).condition ≢ condition.Finished }
        ensures { self.new ≡ with_started self.old task }
    {
        if is_ready(self.chain.node(task).task.condition) {
            unlink(&mut self.chain, task);
        }
        self.chain.set_condition(task, Condition::Started);
    }

    /// The task has finished.
    pub fn finish(&mut self, task: TaskId)
        requires unfinished { (task_at self.old.tasks task).condition ≢ condition.Finished }
        requires taken { (task_at self.old.tasks task).condition ≢ condition.Ready }
        ensures { self.new ≡ with_finished self.old task }
    {
        let ended = self.chain.node(task).task;
        self.chain.set_condition(task, Condition::Finished);
        if is_explicit(ended.kind) {
            self.chain.count_down(ended.parent, ended.region);
        }
    }

    /// The newest ready task of the region that descends from every task of `held`: the one that became ready last. A
    /// task descends from its parent, and from each task that its parent descends from (OpenMP 5.2, 12.9).
    ///
    /// It costs, for each ready task of the region that isn't allowed, and for the one that is, a walk up its parents,
    /// as far as the least identity that is held. The walk is shortest where `held` is by rising identity.
    pub fn newest_allowed(&self, region: u32, held: &[TaskId]) -> Option<TaskId>
        ensures { result ≡ newest_allowed self.now.tasks self.now.ready region held.now }
    {
        let mut task = self.chain.region(region).last_ready;
        while task != 0 {
            if descends_from_all(&self.chain, task, held) {
                return Some(task);
            }
            task = self.chain.node(task).in_region.previous;
        }
        None
    }

    /// How many explicit children of the task are unfinished.
    pub fn open_children(&self, task: TaskId) -> u32
        ensures { result ≡ open_children self.now.tasks task }
    {
        self.chain.node(task).open_children
    }

    /// How many explicit tasks of the region are unfinished.
    pub fn unfinished(&self, region: u32) -> u32
        ensures { result ≡ unfinished self.now.tasks region }
    {
        self.chain.region(region).unfinished
    }

    /// The ready tasks, in the order in which they became ready.
    pub fn ready_list(&self) -> Result<Vec<TaskId>, Memory>
        ensures { IfOk result (λ list. list.items ≡ self.now.ready) }
    {
        let mut list = Vec::new(self.alloc);
        let mut task = self.chain.first();
        while task != 0 {
            list.push(task)?;
            task = self.chain.node(task).in_order.next;
        }
        Ok(list)
    }

    /// The task with this identity. One that wasn't made reads as one that has finished, of region 0.
    pub fn task(&self, task: TaskId) -> Task
        ensures { result ≡ task_at self.now.tasks task }
    {
        self.chain.node(task).task
    }

    /// How many tasks were made.
    pub fn made_count(&self) -> usize
        ensures { result ≡ length self.now.tasks }
    {
        self.chain.len()
    }
}

/// Whether a task construct made the task.
fn is_explicit(kind: TaskKind) -> bool
    ensures { result ≡ is_explicit kind }
{
    match kind {
        TaskKind::Explicit | TaskKind::Undeferred => true,
        TaskKind::Initial | TaskKind::Implicit => false,
    }
}

/// Whether a task that has come so far waits in the ready order.
fn is_ready(condition: Condition) -> bool
    ensures { result ≡ is_ready condition }
{
    match condition {
        Condition::Ready => true,
        Condition::Made | Condition::Started | Condition::Finished => false,
    }
}

/// The task is put last in the ready order, and last among the ready ones of its region.
fn link_last(chain: &mut Chain, task: TaskId)
    requires made { IsMade (tasks_of chain.old) task }
    requires linked { IsLinked chain.old }
    ensures { rings_of chain.new ≡ with_task_last (rings_of chain.old) task }
{
    let region = chain.node(task).task.region;
    let last = chain.last();
    let last_of_region = chain.region(region).last_ready;
    let in_order = Links {
        previous: last,
        next: 0,
    };
    let in_region = Links {
        previous: last_of_region,
        next: 0,
    };
    chain.set_links(task, in_order, in_region);
    chain.set_next(last, task);
    chain.set_previous(0, task);
    chain.set_next_in_region(region, last_of_region, task);
    chain.set_previous_in_region(region, 0, task);
}

/// The neighbours of the task become neighbours of one another, in the ready order and in its region.
fn unlink(chain: &mut Chain, task: TaskId)
    requires ready { is_ready (task_at (tasks_of chain.old) task).condition ≡ true }
    requires linked { IsLinked chain.old }
    ensures { rings_of chain.new ≡ with_task_out (rings_of chain.old) task }
{
    let node = chain.node(task);
    let region = node.task.region;
    let order = node.in_order;
    let beside = node.in_region;
    chain.set_next(order.previous, order.next);
    chain.set_previous(order.next, order.previous);
    chain.set_next_in_region(region, beside.previous, beside.next);
    chain.set_previous_in_region(region, beside.next, beside.previous);
}

/// The parent of the task, or 0.
fn parent_of(chain: &Chain, task: TaskId) -> TaskId
    ensures { result ≡ parent_of (tasks_of chain.now) task }
{
    chain.node(task).task.parent
}

/// The first of a task, its parent, its parent's parent and so on whose identity is at or below the other one.
fn ancestor_within(chain: &Chain, task: TaskId, bound: TaskId) -> TaskId
    requires { AreInOrder (tasks_of chain.now) (length chain.now.regions) }
    ensures { IsReached (tasks_of chain.now) task bound result }
{
    let mut ancestor = task;
    while ancestor > bound {
        ancestor = parent_of(chain, ancestor);
    }
    ancestor
}

/// Whether the task descends from the other one. Parents are made before their children.
fn descends(chain: &Chain, task: TaskId, from: TaskId) -> bool
    requires order { AreInOrder (tasks_of chain.now) (length chain.now.regions) }
    requires made { 1 ≤ task }
    ensures { result ≡ descends (tasks_of chain.now) task from }
{
    ancestor_within(chain, parent_of(chain, task), from) == from
}

/// Whether the task descends from each of these. One walk serves all of them where they come by rising identity.
fn descends_from_all(chain: &Chain, task: TaskId, held: &[TaskId]) -> bool
    requires order { AreInOrder (tasks_of chain.now) (length chain.now.regions) }
    requires made { 1 ≤ task }
    ensures { result ≡ descends_from_all (tasks_of chain.now) task held.now }
{
    let mut ancestor = parent_of(chain, task);
    for from in held.iter().rev() {
        ancestor = ancestor_within(chain, ancestor, *from);
        if ancestor != *from && !descends(chain, task, *from) {
            return false;
        }
    }
    true
}
