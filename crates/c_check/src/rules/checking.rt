//! The check of a program.

ghost use Rattle.std.specs.Prelude.{◌≡◌, ◌≢◌, None, Some, IfOk, IfErr};
ghost use Rattle.c_check.specs.Checked.{Checked, end_of, rule_fault};
ghost use Rattle.c_check.specs.Standing.{Stands};

use crate::acts::walk::Walk;
use crate::fault::CheckFault;
use crate::program::Program;
use crate::rules::checker::Checker;
use c_syntax::Tree;
use std::alloc::{AllocError, Global};

/// The program of a tree that breaks no rule. Or the first fault of the tree, which is dropped: the first by its place in the text, and of
/// those at one place the one with the least number.
pub fn check(alloc: Global, tree: Tree) -> Result<Program, CheckFault>
    // It is the program of this tree, and no rule is broken.
    ensures tree { IfOk result (λ program. program ≡ tree) }
    ensures checked { IfOk result (λ program. Checked tree) }
    ensures unbroken { IfOk result (λ program. rule_fault tree ≡ None) }

    // Otherwise this is its fault.
    ensures fault { IfErr result (λ fault. fault ≢ CheckFault.Memory → rule_fault tree ≡ Some fault) }
{
    let Ok(checker) = checked(alloc, &tree) else {
        return Err(CheckFault::Memory);
    };
    match checker.found {
        Some(fault) => Err(fault),
        None => Ok(Program::new(tree, checker)),
    }
}

/// Does all acts of a program.
fn checked(alloc: Global, tree: &Tree) -> Result<Checker, AllocError>
    ensures stands { IfOk result (λ checker. Stands checker (end_of tree.now)) }
    ensures found { IfOk result (λ checker. checker.found ≡ rule_fault tree.now) }
{
    let mut walk = Walk::new(alloc, tree)?;
    let mut checker = Checker::new(alloc, tree.main());
    while let Some(act) = walk.next(alloc, tree)? {
        checker.does(act)?;
    }
    Ok(checker)
}
