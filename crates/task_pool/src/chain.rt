//! The tasks and regions of the pool with their links, one change a call. What the links spell is the pool's matter.

ghost use Rattle.std.specs.Prelude.{◌≡◌, ◌≢◌, ◌<◌, ◌+◌, ◌^◌, IfOk, OnOk, OnErr, length};
ghost use Rattle.task_pool.specs.Chain.{no_chain, node_at, region_at, with_regions, node_made, next_set, previous_set, next_in_region_set, previous_in_region_set, links_set, condition_set, counted_up, counted_down};

use crate::node::{Links, Node, RegionTasks, fresh_node, no_node, no_region};
use crate::task::{Condition, Task, TaskId};
use std::alloc::{AllocError, Global};
use std::marker::Model;

/// How many tasks there is room for at first.
const FIRST_ROOM: usize = 64;

/// The tasks by identity, the regions by number, and the ends of the ready order. A task or a region that isn't there
/// reads as one without anything.
#[derive(Drop)]
pub struct Chain {
    /// The tasks: the one with identity `k` at `k - 1`.
    nodes: Vec<Node>,
    /// The regions, by number.
    regions: Vec<RegionTasks>,
    /// The first task of the ready order, or 0.
    first: TaskId,
    /// The last task of the ready order, or 0.
    last: TaskId,
    /// How many more tasks there is room for.
    room: usize,
}

impl Model for Chain {
    ghost use Rattle.std.specs.Prelude.{◌+◌, ◌≤◌, vec_len, vec_capacity};
    ghost use Rattle.task_pool.specs.Chain.{ChainView};

    ghost Value = { ChainView };

    ghost view = { λ chain. record {
      nodes = chain.nodes.items;
      regions = chain.regions.items;
      first = chain.first;
      last = chain.last;
      room = chain.room;
    } };

    ghost invariant = { λ chain. vec_len chain.nodes + chain.room ≤ vec_capacity chain.nodes };
}

impl Chain {
    /// No task.
    pub fn new(alloc: Global) -> Result<Chain, AllocError>
        ensures { IfOk result (λ chain. chain ≡ no_chain) }
    {
        Ok(Chain {
            nodes: Vec::with_capacity(alloc, FIRST_ROOM)?,
            regions: Vec::new(alloc),
            first: 0,
            last: 0,
            room: 0,
        })
    }

    /// Makes room for one task, and a place for the region.
    pub fn reserve(&mut self, region: u32) -> Result<(), AllocError>
        ensures room { OnOk result (self.new ≡ with_regions self.old region) }
        ensures memory { OnErr result (self.new ≡ self.old) }
    {
        if self.room == 1 && (region as usize) < self.regions.len() {
            return Ok(());
        }
        let regions = (region as usize + 1).max(self.regions.len());
        self.nodes.reserve(1)?;
        self.regions.resize(regions, no_region())?;
        self.room = 1;
        Ok(())
    }

    /// How many tasks there are.
    pub fn len(&self) -> usize
        ensures { result ≡ length self.now.nodes }
    {
        self.nodes.len()
    }

    /// The task with this identity.
    pub fn node(&self, task: TaskId) -> Node
        ensures { result ≡ node_at self.now.nodes task }
    {
        if task == 0 {
            return no_node();
        }
        match self.nodes.get(task as usize - 1) {
            Some(node) => *node,
            None => no_node(),
        }
    }

    /// The region with this number.
    pub fn region(&self, region: u32) -> RegionTasks
        ensures { result ≡ region_at self.now.regions region }
    {
        match self.regions.get(region as usize) {
            Some(region) => *region,
            None => no_region(),
        }
    }

    /// The first task of the ready order, or 0.
    pub fn first(&self) -> TaskId
        ensures { result ≡ self.now.first }
    {
        self.first
    }

    /// The last task of the ready order, or 0.
    pub fn last(&self) -> TaskId
        ensures { result ≡ self.now.last }
    {
        self.last
    }

    /// One more task, alone.
    pub fn push(&mut self, task: Task)
        requires { 0 < self.old.room }
        ensures { self.new ≡ node_made self.old task }
    {
        self.nodes.push(fresh_node(task)).unwrap();
        self.room -= 1;
    }

    /// The task has come so far.
    pub fn set_condition(&mut self, task: TaskId, condition: Condition)
        ensures { self.new ≡ condition_set self.old task condition }
    {
        if task != 0 && task as usize <= self.nodes.len() {
            self.nodes[task as usize - 1].task.condition = condition;
        }
    }

    /// The parent and the region have one more unfinished explicit task.
    pub fn count_up(&mut self, parent: TaskId, region: u32)
        requires parent { (node_at self.old.nodes parent).open_children + 1 < 2 ^ 32 }
        requires region { (region_at self.old.regions region).unfinished + 1 < 2 ^ 32 }
        ensures { self.new ≡ counted_up self.old parent region }
    {
        if parent != 0 && parent as usize <= self.nodes.len() {
            self.nodes[parent as usize - 1].open_children += 1;
        }
        if (region as usize) < self.regions.len() {
            self.regions[region as usize].unfinished += 1;
        }
    }

    /// The parent and the region have one unfinished explicit task less.
    pub fn count_down(&mut self, parent: TaskId, region: u32)
        requires parent { parent ≢ 0 → 0 < (node_at self.old.nodes parent).open_children }
        requires region { 0 < (region_at self.old.regions region).unfinished }
        ensures { self.new ≡ counted_down self.old parent region }
    {
        if parent != 0 && parent as usize <= self.nodes.len() {
            self.nodes[parent as usize - 1].open_children -= 1;
        }
        if (region as usize) < self.regions.len() {
            self.regions[region as usize].unfinished -= 1;
        }
    }

    /// These are the task's neighbours.
    pub fn set_links(&mut self, task: TaskId, in_order: Links, in_region: Links)
        ensures { self.new ≡ links_set self.old task in_order in_region }
    {
        if task != 0 && task as usize <= self.nodes.len() {
            let node = &mut self.nodes[task as usize - 1];
            node.in_order = in_order;
            node.in_region = in_region;
        }
    }

    /// After the task, in the ready order, comes this one. Where there is no task before it, it is the first.
    pub fn set_next(&mut self, task: TaskId, next: TaskId)
        ensures { self.new ≡ next_set self.old task next }
    {
        if task == 0 {
            self.first = next;
        } else if task as usize <= self.nodes.len() {
            self.nodes[task as usize - 1].in_order.next = next;
        }
    }

    /// Before the task, in the ready order, comes this one. Where there is no task after it, it is the last.
    pub fn set_previous(&mut self, task: TaskId, previous: TaskId)
        ensures { self.new ≡ previous_set self.old task previous }
    {
        if task == 0 {
            self.last = previous;
        } else if task as usize <= self.nodes.len() {
            self.nodes[task as usize - 1].in_order.previous = previous;
        }
    }

    /// After the task, among the ready ones of the region, comes this one. Where there is no task before it, it is the
    /// first.
    pub fn set_next_in_region(&mut self, region: u32, task: TaskId, next: TaskId)
        ensures { self.new ≡ next_in_region_set self.old region task next }
    {
        if task != 0 {
            if task as usize <= self.nodes.len() {
                self.nodes[task as usize - 1].in_region.next = next;
            }
        } else if (region as usize) < self.regions.len() {
            self.regions[region as usize].first_ready = next;
        }
    }

    /// Before the task, among the ready ones of the region, comes this one. Where there is no task after it, it is the
    /// last.
    pub fn set_previous_in_region(&mut self, region: u32, task: TaskId, previous: TaskId)
        ensures { self.new ≡ previous_in_region_set self.old region task previous }
    {
        if task != 0 {
            if task as usize <= self.nodes.len() {
                self.nodes[task as usize - 1].in_region.previous = previous;
            }
        } else if (region as usize) < self.regions.len() {
            self.regions[region as usize].last_ready = previous;
        }
    }
}
