//! How far a text comes: its tokens, its tree, its program, or its fault.

ghost use Rattle.std.specs.Prelude.{◌≤◌, length};

use c_check::{CheckFault, Program, check};
use c_syntax::{SyntaxFault, Tree, read_program};
use c_tokens::{NOWHERE, Spot, TokenFault, tokens};
use std::alloc::{AllocError, Global};

/// Why a text has no tokens, no tree or no program.
#[derive(Clone, Copy)]
pub(crate) struct Refusal {
    /// The number of the fault, or 0 where no memory was left.
    pub number: u32,
    /// The place of the fault.
    pub spot: Spot,
}

impl From<AllocError> for Refusal {
    fn from(_error: AllocError) -> Refusal {
        Refusal {
            number: 0,
            spot: NOWHERE,
        }
    }
}

impl From<TokenFault> for Refusal {
    fn from(fault: TokenFault) -> Refusal {
        Refusal {
            number: fault.number(),
            spot: fault.spot(),
        }
    }
}

impl From<SyntaxFault> for Refusal {
    fn from(fault: SyntaxFault) -> Refusal {
        Refusal {
            number: fault.number(),
            spot: fault.spot(),
        }
    }
}

impl From<CheckFault> for Refusal {
    fn from(fault: CheckFault) -> Refusal {
        Refusal {
            number: fault.number(),
            spot: fault.spot(),
        }
    }
}

/// The tree of a text.
pub(crate) fn tree_of(alloc: Global, text: &[u8]) -> Result<Tree, Refusal>
    requires { length text.now ≤ 65536 }
{
    let found = tokens(alloc, text)?;
    Ok(read_program(alloc, text, &found)?)
}

/// The program of a text.
pub(crate) fn program_of(alloc: Global, text: &[u8]) -> Result<Program, Refusal>
    requires { length text.now ≤ 65536 }
{
    let tree = tree_of(alloc, text)?;
    Ok(check(alloc, tree)?)
}
