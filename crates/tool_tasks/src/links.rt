//! Linking the children of each task.

ghost use Rattle.std.specs.Prelude.{◌≡◌, ◌<◌, ◌+◌, ◌==◌, ℕ, List, length, slice_get};
ghost use Rattle.ompt_calls.specs.declared.event.EventRecord.{EventRecord as EventOf};
ghost use Rattle.trace_check.specs.Checking.{Unbroken};
ghost use Rattle.tool_tasks.specs.Holding.{HoldsLinks, HoldsNodes, with_child, with_sibling};

use crate::forest::TaskNode;

/// Sets the links of tasks that have none yet: from the last one down, each goes before the children that its parent has so far.
pub(crate) fn link_all(nodes: &mut [TaskNode])
    ensures { (past : List EventOf) → Unbroken past → HoldsNodes nodes.old past past → HoldsLinks nodes.new past 0 }
{
    let mut rest = nodes.len();
    while rest > 0 {
        rest -= 1;
        link(nodes, rest);
    }
}

/// Puts a task before the children that its parent has so far.
fn link(nodes: &mut [TaskNode], place: usize)
    requires { place < length nodes.old }
    ensures { (past : List EventOf) → Unbroken past → HoldsLinks nodes.old past (place + 1) →
        HoldsLinks nodes.new past place }
{
    let node = nodes[place];
    let Some(above) = node.parent.checked_sub(1) else {
        return;
    };
    let above = above as usize;
    if above < nodes.len() {
        let sibling = nodes[above].first_child;
        set_sibling(nodes, place, sibling);
        set_child(nodes, above, node.identity);
    }
}

/// Sets the next sibling of the task at this place.
fn set_sibling(nodes: &mut [TaskNode], place: usize, sibling: u32)
    requires { place < length nodes.old }
    ensures { (other : ℕ) → slice_get nodes.new other ≡
        with_sibling (other == place) sibling (slice_get nodes.old other) }
{
    nodes[place].next_sibling = sibling;
}

/// Sets the first child of the task at this place.
fn set_child(nodes: &mut [TaskNode], place: usize, child: u32)
    requires { place < length nodes.old }
    ensures { (other : ℕ) → slice_get nodes.new other ≡ with_child (other == place) child (slice_get nodes.old other) }
{
    nodes[place].first_child = child;
}
