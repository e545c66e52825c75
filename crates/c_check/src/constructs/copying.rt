//! Which of the tasks around a use have a copy of the variable by rule.

ghost use Rattle.std.specs.Prelude.{◌≡◌, ◌++◌, ◌||◌, List, length, reverse, IfOk, OnOk};
ghost use Rattle.c_check.specs.Around.{AreBelow, numbered};
ghost use Rattle.c_check.specs.Copies.{AreCopies};
ghost use Rattle.c_check.specs.Rules.{is_some_copy};
ghost use Rattle.c_check.specs.Shares.{TaskCopy, copies_around, copies_by_rule, copy_by_rule, shared_by_rule, shared_inside};

use crate::constructs::construct::Construct;
use crate::constructs::shares::{copies_by_rule, shared_inside};
use crate::constructs::task_copies::TaskCopies;
use std::alloc::AllocError;

/// What a construct finds around it.
#[derive(Clone, Copy)]
pub struct Found {
    /// Whether a task that says nothing of the variable shares it there.
    pub by_rule: bool,
    /// Whether one of the tasks around has a copy of it by rule.
    pub copied: bool,
}

/// Notes the copies of the tasks with some numbers, the innermost last.
pub fn note_older(
    copies: &mut TaskCopies,
    older: &[Construct],
    numbers: &[usize],
    of_file: bool,
    slot: u32,
) -> Result<Found, AllocError>
    requires { AreBelow (length older.now) (reverse numbers.now) }
    ensures by_rule { IfOk result (λ found.
        found.by_rule ≡ shared_by_rule (numbered older.now (reverse numbers.now)) of_file slot) }
    ensures copied { IfOk result (λ found.
        found.copied ≡ is_some_copy (copies_around (numbered older.now (reverse numbers.now)) of_file slot)) }
    ensures noted { OnOk result ((before : List TaskCopy) → AreCopies before copies.old →
        AreCopies (before ++ copies_around (numbered older.now (reverse numbers.now)) of_file slot) copies.new) }
{
    let mut found = Found {
        by_rule: of_file,
        copied: false,
    };
    for number in numbers {
        let Some(construct) = older.get(*number) else {
            return Err(AllocError);
        };
        found = note_one(copies, construct, found, slot)?;
    }
    Ok(found)
}

/// Notes the copy of a construct inside of others, if it is a task that has one.
pub fn note_one(
    copies: &mut TaskCopies,
    construct: &Construct,
    around: Found,
    slot: u32,
) -> Result<Found, AllocError>
    ensures by_rule { IfOk result (λ found. found.by_rule ≡ shared_inside construct.now around.by_rule slot) }
    ensures copied { IfOk result (λ found.
        found.copied ≡ (around.copied || copies_by_rule construct.now around.by_rule slot)) }
    ensures noted { OnOk result ((before : List TaskCopy) → AreCopies before copies.old →
        AreCopies (before ++ copy_by_rule construct.now around.by_rule slot) copies.new) }
{
    let copied = copies_by_rule(construct, around.by_rule, slot);
    if copied {
        copies.add(construct.head().spot, slot)?;
    }
    Ok(Found {
        by_rule: shared_inside(construct, around.by_rule, slot),
        copied: around.copied || copied,
    })
}
