//! The slots of the names of a program, by the numbers of its nodes.

ghost use Rattle.std.specs.Prelude.{◌≡◌, map, IfOk};
ghost use Rattle.c_check.specs.Seen.{slot_of_name};

use c_check::Program;
use std::alloc::{AllocError, Global};

/// For each node, the slot of the name that stands where it begins.
#[tactic(auto, using(crate::proofs::SlotsOfNodes::slots_more))]
pub(crate) fn slots(alloc: Global, program: &Program) -> Result<Vec<u32>, AllocError>
    ensures { IfOk result (λ slots. slots.items ≡ map (slot_of_name program.now) program.now.trees) }
{
    let count = program.tree().len();
    let mut slots = Vec::with_capacity(alloc, count)?;
    for node in 0..count {
        let Ok(node) = u32::try_from(node) else {
            return Err(AllocError);
        };
        slots.push(program.slot(node))?;
    }
    Ok(slots)
}
