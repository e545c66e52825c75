//! A tree as a line of text.
//!
//! A node is written as its kind, `@` and its place, `#` and its name, `=` and its number, its text in quotes, and in brackets its
//! children, with `-` for one that is absent. A name and a number that are 0, a text without a byte and no children at all aren't shown. Of
//! an `if` three children are shown and of a `for` four, and of other nodes those up to the last that is there.

ghost use Rattle.std.specs.Prelude.{◌<◌, length};

use crate::place::write_spot;
use c_syntax::{NodeKind, Tree};
use std::alloc::AllocError;
use std::str::from_utf8;

/// More children than a node of the tables has.
const MANY: u32 = 64;

/// Writes a node and all below it.
pub(crate) fn write_node(line: &mut String, tree: &Tree, node: u32) -> Result<(), AllocError>
    requires { node < length tree.now.trees }
{
    write_label(line, tree, node)?;
    let count = count_of(tree, node);
    for place in 0..count {
        line.push(if place == 0 { '[' } else { ' ' })?;
        match tree.child(node, place) {
            Some(child) => write_node(line, tree, child)?,
            None => line.push('-')?,
        }
    }
    if count > 0 {
        line.push(']')?;
    }
    Ok(())
}

/// Writes what a node says of itself.
fn write_label(line: &mut String, tree: &Tree, node: u32) -> Result<(), AllocError>
    requires { node < length tree.now.trees }
{
    let kind = tree.kind(node);
    write!(line, "{kind:?}@")?;
    write_spot(line, tree.spot(node))?;
    let name = tree.name(node);
    if name != 0 {
        write!(line, "#{name}")?;
    }
    let number = tree.number(node);
    if number != 0 {
        write!(line, "={number}")?;
    }
    let text = tree.text(node);
    if text.is_empty() {
        return Ok(());
    }
    let text = from_utf8(text).unwrap_or("bytes");
    write!(line, "\"{text}\"")
}

/// How many places of children are shown.
fn count_of(tree: &Tree, node: u32) -> u32
    requires { node < length tree.now.trees }
{
    let mut count = match tree.kind(node) {
        NodeKind::If => 3,
        NodeKind::For => 4,
        _ => 0,
    };
    for place in count..MANY {
        if tree.child(node, place).is_some() {
            count = place + 1;
        }
    }
    count
}
