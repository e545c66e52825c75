//! What a trace comes to.

use run_edges::MemSource;
use std::alloc::{AllocError, Global};
use test_rows::RowFault;
use tool_tasks::{Forest, TaskNode, Unread, read_nested};

/// What the trace of this source comes to, with a line on each of these tasks.
pub(crate) fn answer(
    alloc: Global,
    source: &mut MemSource,
    asked: &[u32],
) -> Result<String, RowFault> {
    match read_nested(alloc, source) {
        Ok(trace) => {
            let forest = Forest::of(alloc, &trace)?;
            account(alloc, &forest, asked)
        }
        Err(unread) => why(alloc, unread),
    }
}

/// Why there is no forest.
fn why(alloc: Global, unread: Unread) -> Result<String, RowFault> {
    let line = match unread {
        Unread::Refused(refusal) => format!(in alloc; "{refusal}\n")?,
        Unread::Broken(breach) => format!(in alloc; "breach {} at {}\n", breach.rule, breach.seq)?,
        Unread::ReadFault => String::from_str(alloc, "a read failed\n")?,
        Unread::Memory => return Err(RowFault::Memory(AllocError)),
    };
    Ok(line)
}

/// The text of a forest, what its chain is, and a line on each of these tasks.
fn account(alloc: Global, forest: &Forest, asked: &[u32]) -> Result<String, RowFault> {
    let mut text = String::from_utf8(forest.text(alloc)?).map_err(|_| RowFault::NoSuchLine)?;
    add_chain(alloc, forest, &mut text)?;
    for identity in asked {
        add_node(alloc, *identity, forest.node(*identity), &mut text)?;
    }
    Ok(text)
}

/// Adds how many positions the chain has, the first one and the last one.
fn add_chain(alloc: Global, forest: &Forest, text: &mut String) -> Result<(), RowFault> {
    let chain = forest.chain(alloc)?;
    let count = chain.len();
    match (chain.first(), chain.last()) {
        (Some(first), Some(last)) => write!(text, "chain {count} from {first} to {last}\n")?,
        _ => write!(text, "chain {count}\n")?,
    }
    Ok(())
}

/// Adds the line on a task.
fn add_node(
    alloc: Global,
    identity: u32,
    node: Option<TaskNode>,
    text: &mut String,
) -> Result<(), RowFault> {
    match node {
        Some(node) => {
            let line = format!(in alloc;
                "node {} flags {} events {} parent {} child {} sibling {}\n",
                node.identity,
                node.flags,
                node.events,
                node.parent,
                node.first_child,
                node.next_sibling
            )?;
            text.push_str(line.as_str())?;
        }
        None => write!(text, "node {identity} none\n")?,
    }
    Ok(())
}
