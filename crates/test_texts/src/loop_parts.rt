//! The parts of loops that are shared out.

ghost use Rattle.std.specs.Prelude.{◌<◌, length};
ghost use Rattle.c_check.specs.SharedLoops.{IsBefore};

use crate::construct::construct_at;
use crate::place::{before, spot_of, write_spot};
use crate::row_fault::RowFault;
use c_check::{Program, SharedLoop};
use c_syntax::Tree;
use std::alloc::{AllocError, Global};

/// The parts of the loop that the construct of an answer shares out, behind its place.
pub(crate) fn loop_parts(alloc: Global, program: &Program, want: &str) -> Result<String, RowFault> {
    let place = before(want, ' ');
    let spot = spot_of(place).ok_or(RowFault::NoPlace)?;
    let mut told = String::from_str(alloc, place)?;
    let Some(construct) = construct_at(program, spot) else {
        told.push_str(" no construct")?;
        return Ok(told);
    };
    match program.shared_loop(construct) {
        Some(parts) => write_parts(&mut told, program.tree(), construct, parts)?,
        None => told.push_str(" none")?,
    }
    Ok(told)
}

/// Writes the parts of the loop of a construct.
fn write_parts(
    told: &mut String,
    tree: &Tree,
    construct: u32,
    parts: SharedLoop,
) -> Result<(), AllocError>
    requires construct { construct < length tree.now.trees }
    requires parts { IsBefore construct parts }
{
    told.push_str(" variable=")?;
    write_spot(told, tree.spot(parts.variable))?;
    told.push_str(" start=")?;
    write_spot(told, tree.spot(parts.start))?;
    told.push_str(" end=")?;
    write_spot(told, tree.spot(parts.end))?;
    told.push_str(" body=")?;
    write_spot(told, tree.spot(parts.body))?;
    let SharedLoop {
        comparison,
        step,
        ..
    } = parts;
    write!(told, " {comparison:?} step={step}")
}
