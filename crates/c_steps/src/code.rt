//! A checked program that is made ready to run.

ghost use Rattle.std.specs.Prelude.{◌≡◌, ◌<◌, ◌+◌, length, is_some, pos, IfOk, IfSome};
ghost use Rattle.c_syntax.specs.language.Tree.{kind_of, name_of, number_of};
ghost use Rattle.c_syntax.specs.language.Numbered.{root_tree, tree_at};
ghost use Rattle.c_check.specs.Loops.{child_at};
ghost use Rattle.c_check.specs.Seen.{slot_of_name};
ghost use Rattle.c_model.specs.Calls.{file_bound};
ghost use Rattle.c_model.specs.Parts.{has_child, parts};
ghost use Rattle.c_model.specs.Program.{function_named, place_of};
ghost use Rattle.c_model.specs.Width.{most_of_functions};
ghost use Rattle.c_steps.specs.Widths.{step_names};
ghost use Rattle.c_steps.specs.Nodes.{IsPart, part_at};
ghost use Rattle.c_steps.specs.Rooming.{AreEntries};
ghost use Rattle.c_steps.specs.Rests.{parts_from, with_part};

use crate::file::FileNames;
use crate::functions::Functions;
use crate::parts::{child_of_part, kind_of_part, name_of_part, next_part};
use crate::slots::slots;
use crate::widths::{inner_names, most_of_functions, step_names};
use c_check::Program;
use c_model::{Entry, LINE_UNIT};
use c_syntax::{NodeKind, Tree};
use std::alloc::{AllocError, Global};
use std::marker::Model;

/// A checked program that is made ready to run. Contracts see the program's tree.
#[derive(Drop)]
pub struct Code {
    program: Program,
    file: FileNames,
    functions: Functions,
    /// The slot of the name that stands where each node begins.
    slots: Vec<u32>,
    /// No function has more names in scope beside those of the file.
    width: usize,
    /// No silent step brings more names into scope.
    step_names: usize,
}

impl Model for Code {
    ghost use Rattle.c_syntax.specs.language.Numbered.{TreeView};
    ghost use Rattle.c_syntax.specs.workings.Codes.{tree_view_code};

    ghost Value = { TreeView };

    ghost coded = { tree_view_code };

    ghost use Rattle.c_steps.specs.Prepared.{IsPrepared};

    ghost view = { λ code. code.program };

    ghost invariant = { λ code. IsPrepared code.program code.file code.functions code.slots.items code.width
        code.step_names };
}

impl Code {
    /// Makes a program ready to run. Numbers that pass a `usize`, and more cells than there may be, are want of memory too.
    pub fn new(alloc: Global, program: Program) -> Result<Code, AllocError>
        ensures { IfOk result (λ code. code ≡ program) }
    {
        let file = FileNames::new(alloc, &program)?;
        let functions = Functions::new(alloc, program.tree())?;
        let slots = slots(alloc, &program)?;
        let inner = inner_names(alloc, &program)?;
        let width = most_of_functions(&program, &inner)?;
        let step_names = step_names(program.tree())?;
        Ok(Code {
            program,
            file,
            functions,
            slots,
            width,
            step_names,
        })
    }

    /// The names of the file.
    #[inline(always)]
    pub fn file(&self) -> &[Entry]
        ensures names { result.now ≡ (file_bound self.now).env }
        ensures entries { AreEntries result.now }
    {
        self.file.names()
    }

    /// What the cells of the file hold at first.
    pub fn file_numbers(&self) -> &[i32]
        ensures { result.now ≡ (file_bound self.now).cells }
    {
        self.file.numbers()
    }

    /// The function with a name, if there is one.
    #[inline(always)]
    pub fn function(&self, name: u32) -> Option<u32>
        ensures function { part_at self.now.trees result ≡ function_named self.now name }
        ensures there { IsPart self.now.trees result }
    {
        self.functions.get(name)
    }

    /// No function has more names in scope beside those of the file: its parameters, and what its statements bring along their nesting.
    pub fn width(&self) -> usize
        ensures { result ≡ most_of_functions self.now (parts (root_tree self.now)) }
    {
        self.width
    }

    /// No silent step brings more names into scope: one more than the most parts that a node has, or variables that its clauses list.
    pub fn step_names(&self) -> usize
        ensures { result ≡ step_names self.now }
    {
        self.step_names
    }

    /// The program's tree.
    #[inline(always)]
    pub fn tree(&self) -> &Tree
        ensures { result.now ≡ self.now }
    {
        self.program.tree()
    }

    /// The program.
    pub fn program(&self) -> &Program
        ensures { result.now ≡ self.now }
    {
        &self.program
    }

    /// What a part is.
    #[inline(always)]
    pub fn kind(&self, part: Option<u32>) -> NodeKind
        requires { IsPart self.now.trees part }
        ensures { result ≡ kind_of (part_at self.now.trees part) }
    {
        kind_of_part(self.tree(), part)
    }

    /// The child of a part at a place.
    #[inline(always)]
    pub fn child(&self, part: Option<u32>, place: u32) -> Option<u32>
        requires { IsPart self.now.trees part }
        ensures child { part_at self.now.trees result ≡ child_at (part_at self.now.trees part) place }
        ensures some { is_some result ≡ has_child (part_at self.now.trees part) place }
        ensures there { IsPart self.now.trees result }
    {
        child_of_part(self.tree(), part, place)
    }

    /// The number of a part's name, 0 where it has none.
    #[inline(always)]
    pub fn name(&self, part: Option<u32>) -> u32
        requires { IsPart self.now.trees part }
        ensures { result ≡ name_of (part_at self.now.trees part) }
    {
        name_of_part(self.tree(), part)
    }

    /// The value of a part's number, 0 where it has none.
    #[inline(always)]
    pub fn number(&self, part: Option<u32>) -> i32
        requires { IsPart self.now.trees part }
        ensures { result ≡ pos (number_of (part_at self.now.trees part)) }
    {
        match part {
            Some(node) => self.tree().number(node),
            None => 0,
        }
    }

    /// The place of a node as tools are told it.
    pub fn place(&self, node: u32) -> u64
        requires { node < length self.now.trees }
        ensures { result ≡ place_of (tree_at self.now.trees node) }
    {
        let spot = self.tree().spot(node);
        u64::from(spot.line) * LINE_UNIT + u64::from(spot.column)
    }

    /// The slot of the name that stands where a node begins.
    #[tactic(auto, using(crate::proofs::SlotsOfNodes::slot_there))]
    #[inline(always)]
    pub fn slot(&self, node: u32) -> u32
        requires { node < length self.now.trees }
        ensures { result ≡ slot_of_name self.now (tree_at self.now.trees node) }
    {
        self.slots[node as usize]
    }

    /// The child of a part at a place, where those from there on are what is left.
    #[inline(always)]
    pub(crate) fn part(&self, whole: Option<u32>, place: u32) -> Option<u32>
        requires { IsPart self.now.trees whole }
        ensures parts { parts_from (part_at self.now.trees whole) place ≡
            with_part self.now.trees (part_at self.now.trees whole) place result }
        ensures there { IfSome result (λ child. child < length self.now.trees) }
        ensures is_part { IsPart self.now.trees result }
        ensures fits { IfSome result (λ child. place + 1 < 4294967295) }
    {
        next_part(self.tree(), whole, place)
    }
}
