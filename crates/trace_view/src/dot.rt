//! The task tree of a trace for Graphviz.

ghost use Rattle.std.specs.Prelude.{ℕ, ◌≡◌, ◌++◌, ◌&&◌, IfOk, List, OnOk, reverse};
ghost use Rattle.std.specs.Ordering.{nat_cmp};
ghost use Rattle.std.specs.BTreeSet.{contains};
ghost use Rattle.ompt_calls.specs.declared.event.EventRecord.{EventRecord};
ghost use Rattle.tool_tasks.specs.Holding.{IsForest};
ghost use Rattle.tool_tasks.specs.Text.{kind_text};
ghost use Rattle.tool_tasks.specs.Tree.{tasks_from};
ghost use Rattle.trace_check.specs.Nested.{Nested};
ghost use Rattle.trace_format.specs.Validity.{IsTrace};
ghost use Rattle.trace_view.specs.Bold.{HasNumbers};
ghost use Rattle.trace_view.specs.Dot.{IsDot, box_line, edge_line, head_lines, lines_of_tasks, picture_of, stroke_text};

use crate::bold::crossed_tasks;
use omp_codes::task_flags::{IMPLICIT, INITIAL};
use std::alloc::{AllocError, Global};
use std::collections::BTreeSet;
use tool_tasks::{Forest, TaskNode};
use trace_format::Trace;

/// The picture of the tasks of a trace that is valid and nested, with a longest chain in bold.
pub fn dot_text(alloc: Global, trace: &Trace) -> Result<Vec<u8>, AllocError>
    requires valid { IsTrace trace.now }
    requires nested { Nested trace.now.header trace.now.events trace.now.end }
    ensures { IfOk result (λ text. IsDot trace.now.events text.items) }
{
    let forest = Forest::of(alloc, trace)?;
    let chain = forest.chain(alloc)?;
    let bold = crossed_tasks(alloc, chain.as_slice(), trace.events.0.as_slice())?;
    picture(alloc, &forest, &bold, chain.len())
}

/// The picture of a forest, where these tasks are bold.
fn picture(
    alloc: Global,
    forest: &Forest,
    bold: &BTreeSet<u32>,
    span: usize,
) -> Result<Vec<u8>, AllocError>
    ensures { IfOk result (λ text. (events : List EventRecord) (numbers : List ℕ) → IsForest forest.now events →
        HasNumbers bold.now numbers →
        text.items ≡ picture_of (reverse events) numbers span) }
{
    let mut text = head_lines(alloc, forest.work(), span)?;
    put_tasks(alloc, forest, bold, &mut text)?;
    text.extend_from_slice(b"}\n")?;
    Ok(text)
}

/// How a picture begins.
fn head_lines(alloc: Global, work: u32, span: usize) -> Result<Vec<u8>, AllocError>
    ensures { IfOk result (λ text. text.items ≡ head_lines work span) }
{
    let head = format!(in alloc;
        "digraph tasks {{\nlabel=<work {work}, span {span}>;\nnode [shape=box];\n"
    )?;
    Ok(head.into_bytes())
}

/// Adds the lines of all tasks. That there is one with the greatest number is told as want of memory, which no trace comes to.
fn put_tasks(
    alloc: Global,
    forest: &Forest,
    bold: &BTreeSet<u32>,
    text: &mut Vec<u8>,
) -> Result<(), AllocError>
    ensures { OnOk result ((events : List EventRecord) (numbers : List ℕ) → IsForest forest.now events →
        HasNumbers bold.now numbers →
        text.new.items ≡ text.old.items ++ lines_of_tasks numbers (reverse events) (tasks_from 1 (reverse events))) }
{
    for identity in 1..u32::MAX {
        match forest.node(identity) {
            Some(task) => put_task(alloc, &task, bold, text)?,
            None => return Ok(()),
        }
    }
    Err(AllocError)
}

/// Adds the lines of a task.
fn put_task(
    alloc: Global,
    task: &TaskNode,
    bold: &BTreeSet<u32>,
    text: &mut Vec<u8>,
) -> Result<(), AllocError>
    ensures { OnOk result (text.new.items ≡ text.old.items ++
        (box_line (contains nat_cmp bold.now task.now.identity) task.now
        ++ edge_line (contains nat_cmp bold.now task.now.parent && contains nat_cmp bold.now task.now.identity)
        task.now)) }
{
    let is_bold = bold.contains(&task.identity);
    put_box(alloc, task, is_bold, text)?;
    let is_bold = bold.contains(&task.parent) && is_bold;
    put_edge(alloc, task, is_bold, text)
}

/// Adds the line of a task alone.
fn put_box(
    alloc: Global,
    task: &TaskNode,
    is_bold: bool,
    text: &mut Vec<u8>,
) -> Result<(), AllocError>
    ensures { OnOk result (text.new.items ≡ text.old.items ++ box_line is_bold task.now) }
{
    let kind = kind_text(task.flags);
    let stroke = stroke_text(is_bold);
    let line = format!(in alloc;
        "{} [label=<{} {kind}<BR/>work {}>, style={stroke}];\n",
        task.identity, task.identity, task.events
    )?;
    text.extend_from_slice(line.as_bytes())
}

/// Adds the line from its parent to a task, if it has one.
fn put_edge(
    alloc: Global,
    task: &TaskNode,
    is_bold: bool,
    text: &mut Vec<u8>,
) -> Result<(), AllocError>
    ensures { OnOk result (text.new.items ≡ text.old.items ++ edge_line is_bold task.now) }
{
    if task.parent == 0 {
        return Ok(());
    }
    let stroke = stroke_text(is_bold);
    let line = format!(in alloc; "{} -> {} [style={stroke}];\n", task.parent, task.identity)?;
    text.extend_from_slice(line.as_bytes())
}

/// The kind of a task with these flags.
fn kind_text(flags: u32) -> &'static str
    ensures { result.now ≡ kind_text flags }
{
    match flags {
        INITIAL => "initial",
        IMPLICIT => "implicit",
        _ => "explicit",
    }
}

/// How a line is drawn.
fn stroke_text(is_bold: bool) -> &'static str
    ensures { result.now ≡ stroke_text is_bold }
{
    if is_bold { "bold" } else { "solid" }
}
