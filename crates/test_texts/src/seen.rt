//! What a program says of names and variables, as far as an answer speaks of them.

use crate::construct::construct_at;
use crate::place::{before, spot_of};
use crate::row_fault::RowFault;
use c_check::Program;
use c_tokens::Spot;
use std::alloc::Global;

/// The slots of the names of an answer: `NAME@PLACE=SLOT` for each.
pub(crate) fn slots(alloc: Global, program: &Program, want: &str) -> Result<String, RowFault> {
    let mut told = String::new(alloc);
    for item in want.split(' ') {
        let asked = before(item, '=');
        let (_, place) = asked.split_once('@').ok_or(RowFault::NoPlace)?;
        let spot = spot_of(place).ok_or(RowFault::NoPlace)?;
        part(&mut told, asked)?;
        match slot_at(program, spot) {
            Some(slot) => write!(told, "{slot}")?,
            None => told.push_str("no name")?,
        }
    }
    Ok(told)
}

/// How a construct sees the variables of an answer: its place, and `NAME:SLOT=SHARING` for each variable.
pub(crate) fn sharing(alloc: Global, program: &Program, want: &str) -> Result<String, RowFault> {
    let (place, variables) = want.split_once(' ').ok_or(RowFault::NoPlace)?;
    let spot = spot_of(place).ok_or(RowFault::NoPlace)?;
    let mut told = String::from_str(alloc, place)?;
    for item in variables.split(' ') {
        let asked = before(item, '=');
        let (_, slot) = asked.split_once(':').ok_or(RowFault::NoPlace)?;
        let slot = slot.parse::<u32>().map_err(|_| RowFault::NoPlace)?;
        part(&mut told, asked)?;
        write_sharing(&mut told, program, spot, slot)?;
    }
    Ok(told)
}

/// Begins the next part of an answer.
fn part(told: &mut String, asked: &str) -> Result<(), RowFault> {
    if !told.is_empty() {
        told.push(' ')?;
    }
    told.push_str(asked)?;
    told.push('=')?;
    Ok(())
}

/// The slot of the name that stands at a place.
fn slot_at(program: &Program, spot: Spot) -> Option<u32> {
    let tree = program.tree();
    for node in 0..=tree.root() {
        if tree.name(node) != 0 && tree.spot(node) == spot {
            return Some(program.slot(node));
        }
    }
    None
}

/// Writes how the construct at a place sees the variable with a slot.
fn write_sharing(
    told: &mut String,
    program: &Program,
    spot: Spot,
    slot: u32,
) -> Result<(), RowFault> {
    match construct_at(program, spot) {
        Some(construct) => {
            let sharing = program.sharing(construct, slot);
            write!(told, "{sharing:?}")?;
        }
        None => told.push_str("no construct")?,
    }
    Ok(())
}
