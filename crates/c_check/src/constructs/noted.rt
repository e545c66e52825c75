//! What is noted of the constructs around.

ghost use Rattle.std.specs.Prelude.{◌≡◌, ◌++◌, OnOk};
ghost use Rattle.c_check.specs.Constructs.{loops_in, unlisted_in};

use crate::constructs::around::Around;
use crate::constructs::inner_loops::InnerLoops;
use crate::constructs::parts::{LoopInside, Unlisted};
use c_tokens::Spot;
use std::alloc::AllocError;

/// A variable is used in constructs. Noted is each that would have to list it and doesn't.
#[tactic(auto, unfolding(crate::specs::Constructs::unlisted_in))]
pub fn note_use(
    unlisted: &mut Vec<Unlisted>,
    mut around: Around<'_>,
    spot: Spot,
    slot: u32,
) -> Result<(), AllocError>
    ensures { OnOk result (unlisted.new.items ≡ unlisted.old.items ++ unlisted_in around.entry spot slot) }
{
    while let Some((first, outer)) = around.split() {
        if first.leaves_out(slot) {
            unlisted.push(Unlisted {
                spot,
                slot,
                construct: first.head().spot,
            })?;
        }
        around = outer;
    }
    Ok(())
}

/// A loop that is shared out stands in constructs, and has this variable.
#[tactic(auto, unfolding(crate::specs::Constructs::loops_in))]
pub fn note_loop(
    loops: &mut InnerLoops,
    mut around: Around<'_>,
    slot: u32,
) -> Result<(), AllocError>
    ensures { OnOk result (loops.new ≡ loops.old ++ loops_in around.entry slot) }
{
    while let Some((first, outer)) = around.split() {
        loops.add(LoopInside {
            slot,
            construct: first.head().spot,
        })?;
        around = outer;
    }
    Ok(())
}
