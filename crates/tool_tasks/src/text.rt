//! What is written of a forest.

ghost use Rattle.std.specs.Prelude.{◌≡◌, ◌++◌, List, IfOk, OnOk, string_bytes};
ghost use Rattle.ompt_calls.specs.declared.event.EventRecord.{EventRecord as EventOf};
ghost use Rattle.trace_check.specs.Checking.{Unbroken};
ghost use Rattle.tool_tasks.specs.Holding.{AreNodes, later, node_at};
ghost use Rattle.tool_tasks.specs.Text.{kind_text, lines_of, number_lines, task_line, tasks_in_order};

use crate::chain_keys::node_at;
use crate::forest::TaskNode;
use omp_codes::task_flags::{IMPLICIT, INITIAL};
use std::alloc::{AllocError, Global};

/// The lines with how many tasks there are, the work and the span.
pub(crate) fn number_lines(
    alloc: Global,
    tasks: usize,
    work: u32,
    span: u32,
) -> Result<Vec<u8>, AllocError>
    ensures { IfOk result (λ lines. lines.items ≡ number_lines tasks work span) }
{
    let lines = format!(in alloc; "tasks {tasks}\nwork {work}\nspan {span}\n")?;
    Ok(lines.into_bytes())
}

/// Adds the lines of the tasks: a task, then the trees of its children.
pub(crate) fn put_trees(
    alloc: Global,
    nodes: &[TaskNode],
    text: &mut Vec<u8>,
) -> Result<(), AllocError>
    ensures { OnOk result ((past : List EventOf) → Unbroken past → AreNodes nodes.now past →
        text.new.items ≡ text.old.items ++ lines_of past (tasks_in_order past)) }
{
    // Each stands for its tree, and for those of its later siblings.
    let mut pending = Vec::new(alloc);
    pending.push(1)?;
    while let Some(task) = pending.pop() {
        if let Some(node) = node_at(nodes, task) {
            visit(alloc, task, &node, &mut pending, text)?;
        }
    }
    Ok(())
}

/// Adds the line of a task. Its children come next, and then its later siblings.
fn visit(
    alloc: Global,
    task: u32,
    node: &TaskNode,
    pending: &mut Vec<u32>,
    text: &mut Vec<u8>,
) -> Result<(), AllocError>
    ensures text { OnOk result (text.new.items ≡ text.old.items ++ task_line node.now) }
    ensures pending { OnOk result (pending.new.items ≡ (pending.old.items ++ later task node.now.next_sibling) ++
        later task node.now.first_child) }
{
    let line = task_line(alloc, node)?;
    text.extend_from_slice(line.as_bytes())?;
    push_later(pending, task, node.next_sibling)?;
    push_later(pending, task, node.first_child)
}

/// The line of a task.
fn task_line(alloc: Global, node: &TaskNode) -> Result<String, AllocError>
    ensures { IfOk result (λ line. string_bytes line ≡ task_line node.now) }
{
    let kind = kind_text(node.flags);
    format!(in alloc;
        "{} {kind} {} {}\n",
        node.identity, node.parent, node.events
    )
}

/// What a task with these flags is called.
fn kind_text(flags: u32) -> &'static str
    ensures { result.now ≡ kind_text flags }
{
    match flags {
        INITIAL => "initial",
        IMPLICIT => "implicit",
        _ => "explicit",
    }
}

/// Adds the task to which a link leads. A link leads to a task that was made later, or is 0 and leads to none.
fn push_later(pending: &mut Vec<u32>, task: u32, link: u32) -> Result<(), AllocError>
    ensures { OnOk result (pending.new.items ≡ pending.old.items ++ later task link) }
{
    if link > task {
        pending.push(link)?;
    }
    Ok(())
}
