//! The functions of a program by the numbers of their names.

ghost use Rattle.std.specs.Prelude.{◌≡◌, ◌<◌, ◌==◌, None, Some, ℕ, if◌then◌else◌, length, slice_index_or, IfOk, OnOk};
ghost use Rattle.std.specs.Option.{option_or};
ghost use Rattle.c_syntax.specs.language.Numbered.{tree_at};
ghost use Rattle.c_steps.specs.Functions.{named_part, AreFunctions};

use crate::parts::{child_of_part, name_of_part, next_part};
use c_syntax::{NodeKind, Tree};
use std::alloc::{AllocError, Global};
use std::marker::Model;

/// The functions of a program by the numbers of their names. Contracts see the list of them; of a number past its end there is none.
#[derive(Drop)]
pub(crate) struct Functions {
    by_name: Vec<Option<u32>>,
}

impl Model for Functions {
    ghost use Rattle.std.specs.Prelude.{List, Option, ℕ};

    ghost Value = { List (Option ℕ) };

    ghost view = { λ functions. functions.by_name.items };
}

impl Functions {
    /// The functions of a program. Of two with one name the first counts.
    #[tactic(auto, using(crate::proofs::FirstFunctions::first_functions_cases))]
    pub(crate) fn new(alloc: Global, tree: &Tree) -> Result<Functions, AllocError>
        ensures { IfOk result (AreFunctions tree.now) }
    {
        let mut functions = Functions {
            by_name: Vec::new(alloc),
        };
        let root = tree.root();
        let mut place = 0;
        while let Some(part) = next_part(tree, Some(root), place) {
            functions.add_part(tree, part)?;
            place += 1;
        }
        Ok(functions)
    }

    /// The function with a name, if there is one.
    pub(crate) fn get(&self, name: u32) -> Option<u32>
        ensures { result ≡ slice_index_or self.now name None }
    {
        match self.by_name.get(name as usize) {
            Some(function) => *function,
            None => None,
        }
    }

    /// A part of the file counts for its name, if it is the first function with it.
    fn add_part(&mut self, tree: &Tree, part: u32) -> Result<(), AllocError>
        requires { part < length tree.now.trees }
        ensures { OnOk result ((name : ℕ) →
            slice_index_or self.new name None ≡
            option_or (slice_index_or self.old name None) (named_part name (tree_at tree.now.trees part) part)) }
    {
        match tree.kind(part) {
            NodeKind::Function(_) => {
                let name = name_of_part(tree, child_of_part(tree, Some(part), 0));
                self.reach(name as usize)?;
                self.keep_first(name as usize, part);
                Ok(())
            }
            _ => Ok(()),
        }
    }

    /// The list reaches past this number.
    fn reach(&mut self, name: usize) -> Result<(), AllocError>
        ensures reached { OnOk result (name < length self.new) }
        ensures same { (other : ℕ) → slice_index_or self.new other None ≡ slice_index_or self.old other None }
    {
        if name < self.by_name.len() {
            return Ok(());
        }
        let Some(count) = name.checked_add(1) else {
            return Err(AllocError);
        };
        self.by_name.resize(count, None)?;
        Ok(())
    }

    /// A function stands at this number, if none does yet.
    fn keep_first(&mut self, name: usize, function: u32)
        requires { name < length self.old }
        ensures { (other : ℕ) → slice_index_or self.new other None ≡
            option_or (slice_index_or self.old other None) (if name == other then Some function else None) }
    {
        if self.by_name[name].is_none() {
            self.by_name[name] = Some(function);
        }
    }
}
