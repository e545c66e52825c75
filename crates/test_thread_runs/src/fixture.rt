//! What both tests need: programs, an answer, and passes in order.

ghost use Rattle.std.specs.Prelude.{◌≡◌, ◌<◌, ℕ, IsTrue, length, get_or};
ghost use Rattle.step_book.specs.Sharing.{PassView};

use c_check::{Program, check};
use c_syntax::read_program;
use c_tokens::tokens;
use std::alloc::Global;
use std::process::Abort;
use std::test::Fail;
use step_book::{BookName, Pass};

/// How many silent steps a run may have.
pub(crate) const STEPS: u32 = 1_000_000;

/// The most bytes of a text.
const TEXT_LIMIT: usize = 65_536;

/// The program of a text.
pub(crate) fn program_of(rt: &impl Abort, alloc: Global, text: &[u8]) -> Result<Program, Fail> {
    assert!(rt; text.len() <= TEXT_LIMIT);
    let found = tokens(alloc, text)?;
    let tree = read_program(alloc, text, &found)?;
    Ok(check(alloc, tree)?)
}

/// Whether these are passes of so many threads, in order.
pub(crate) fn are_in_order<K: BookName>(passes: &[Pass<K>], threads: usize) -> bool
    ensures count { IsTrue result → length passes.now ≡ threads }
    ensures order { IsTrue result → (k : ℕ) (d : PassView) → k < threads → (get_or passes.now k d).thread ≡ k }
{
    if passes.len() != threads {
        return false;
    }
    for place in 0..threads {
        if usize::from(passes[place].thread()) != place {
            return false;
        }
    }
    true
}
