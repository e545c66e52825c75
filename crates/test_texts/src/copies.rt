//! What tasks copy by rule.

ghost use Rattle.std.specs.Prelude.{◌≤◌, length};

use crate::construct::construct_at;
use crate::place::{before, spot_of};
use crate::row_fault::RowFault;
use c_check::Program;
use c_tokens::{Spot, Token, tokens};
use std::alloc::Global;
use std::str::from_utf8;

/// What the task of an answer copies: its place, and `NAME:SLOT` for each variable.
pub(crate) fn copies(
    alloc: Global,
    program: &Program,
    text: &[u8],
    want: &str,
) -> Result<String, RowFault>
    requires { length text.now ≤ 65536 }
{
    let place = before(want, ' ');
    let spot = spot_of(place).ok_or(RowFault::NoPlace)?;
    let mut told = String::from_str(alloc, place)?;
    let Some(task) = construct_at(program, spot) else {
        told.push_str(" no construct")?;
        return Ok(told);
    };
    let slots = program.task_copies(task);
    if slots.is_empty() {
        told.push_str(" none")?;
    }
    let found = tokens(alloc, text).map_err(|_| RowFault::Memory)?;
    for slot in slots {
        told.push(' ')?;
        if let Some(named) = name_with(program, *slot) {
            write_name(&mut told, text, &found, named)?;
        }
        write!(told, ":{slot}")?;
    }
    Ok(told)
}

/// The place of a name with a slot.
fn name_with(program: &Program, slot: u32) -> Option<Spot> {
    let tree = program.tree();
    for node in 0..=tree.root() {
        if tree.name(node) != 0 && program.slot(node) == slot {
            return Some(tree.spot(node));
        }
    }
    None
}

/// Writes the name that stands at a place of a text.
fn write_name(
    told: &mut String,
    text: &[u8],
    tokens: &[Token],
    spot: Spot,
) -> Result<(), RowFault> {
    for token in tokens {
        if token.spot == spot {
            let name = text.get(token.start as usize..token.end as usize);
            told.push_str(from_utf8(name.unwrap_or_default()).unwrap_or("bytes"))?;
        }
    }
    Ok(())
}
