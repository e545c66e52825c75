//! The names and the cells of a file.

ghost use Rattle.std.specs.Prelude.{◌≡◌, ◌<◌, ◌≤◌, ◌++◌, [], ◌∷◌, length, pos, replicate, IfOk, OnOk};
ghost use Rattle.c_syntax.specs.language.Numbered.{tree_at};
ghost use Rattle.c_model.specs.Calls.{file_bound};
ghost use Rattle.c_model.specs.Cells as cells;
ghost use Rattle.c_model.specs.Cells.{with_declarator, with_declarators};
ghost use Rattle.c_model.specs.Parts.{parts};
ghost use Rattle.c_steps.specs.FileNames.{declared_by};
ghost use Rattle.c_steps.specs.Rooming.{AreEntries};

use crate::parts::next_part;
use c_check::Program;
use c_model::{CELL_LIMIT, Entry};
use c_syntax::{NodeKind, Sign};
use std::alloc::{AllocError, Global};
use std::marker::Model;

/// The names of a file, and the numbers that its cells hold at first.
#[derive(Drop)]
pub(crate) struct FileNames {
    names: Vec<Entry>,
    numbers: Vec<i32>,
}

impl Model for FileNames {
    ghost use Rattle.c_model.specs.Cells.{Bound};

    ghost Value = { Bound };

    ghost view = { λ file. record { env = file.names.items; cells = file.numbers.items } };

    ghost use Rattle.c_steps.specs.Rooming.{AreEntries};

    ghost invariant = { λ file. AreEntries file.names.items };
}

impl FileNames {
    /// The names of a program's file. More cells than there may be are want of memory too.
    #[tactic(auto, using(crate::proofs::FileNames::declared_more), unfolding(c_check::specs::Tasks::from_place))]
    pub(crate) fn new(alloc: Global, program: &Program) -> Result<FileNames, AllocError>
        ensures { IfOk result (λ file. file ≡ file_bound program.now) }
    {
        let mut file = FileNames {
            names: Vec::new(alloc),
            numbers: Vec::new(alloc),
        };
        let root = program.tree().root();
        let mut place = 0;
        while let Some(part) = next_part(program.tree(), Some(root), place) {
            file.declare_part(program, part)?;
            place += 1;
        }
        Ok(file)
    }

    /// The names.
    pub(crate) fn names(&self) -> &[Entry]
        ensures names { result.now ≡ self.now.env }
        ensures entries { AreEntries result.now }
    {
        &self.names
    }

    /// What the cells hold at first.
    pub(crate) fn numbers(&self) -> &[i32]
        ensures { result.now ≡ self.now.cells }
    {
        &self.numbers
    }

    /// A part of the file declares its variables or locks, if it is a declaration of those.
    #[tactic(auto, using(crate::proofs::FileNames::declared_first))]
    fn declare_part(&mut self, program: &Program, part: u32) -> Result<(), AllocError>
        requires { part < length program.now.trees }
        ensures { OnOk result (self.new ≡ declared_by program.now self.old (tree_at program.now.trees part ∷ [])) }
    {
        match program.tree().kind(part) {
            NodeKind::Globals | NodeKind::Locks => self.declare_all(program, part),
            _ => Ok(()),
        }
    }

    /// All parts of a declaration come into scope.
    #[tactic(auto, unfolding(c_model::specs::Cells::with_declarators, c_check::specs::Tasks::from_place))]
    fn declare_all(&mut self, program: &Program, declaration: u32) -> Result<(), AllocError>
        requires { declaration < length program.now.trees }
        ensures { OnOk result (self.new ≡
            with_declarators program.now self.old (parts (tree_at program.now.trees declaration))) }
    {
        let mut place = 0;
        while let Some(declarator) = next_part(program.tree(), Some(declaration), place) {
            self.declare(program, declarator)?;
            place += 1;
        }
        Ok(())
    }

    /// A declarator comes into scope.
    fn declare(&mut self, program: &Program, declarator: u32) -> Result<(), AllocError>
        requires { declarator < length program.now.trees }
        ensures { OnOk result (self.new ≡ with_declarator program.now self.old (tree_at program.now.trees declarator)) }
    {
        let tree = program.tree();
        let Ok(first) = u32::try_from(self.numbers.len()) else {
            return Err(AllocError);
        };
        let number = tree.number(declarator) as u32;
        let size = push_first(&mut self.numbers, tree.kind(declarator), number)?;
        if self.numbers.len() > CELL_LIMIT {
            return Err(AllocError);
        }
        let entry = Entry {
            name: tree.name(declarator),
            first,
            size,
            slot: program.slot(declarator),
        };
        self.names.push(entry)?;
        Ok(())
    }
}

/// New cells hold what those of a declarator of this kind with this number hold at first. Tells how many they are.
fn push_first(numbers: &mut Vec<i32>, kind: NodeKind, number: u32) -> Result<u32, AllocError>
    requires { number ≤ 2147483647 }
    ensures numbers { OnOk result (numbers.new.items ≡ numbers.old.items ++ cells.first_numbers kind number) }
    ensures size { IfOk result (λ size. size ≡ length (cells.first_numbers kind number)) }
{
    match kind {
        NodeKind::GlobalArray | NodeKind::LocalArray => push_zeros(numbers, number),
        NodeKind::GlobalSet(sign) => match sign {
            Sign::Plus => push_one(numbers, number as i32),
            Sign::Minus => push_one(numbers, -(number as i32)),
        },
        _ => push_one(numbers, 0),
    }
}

/// So many new cells hold 0. Tells how many they are.
fn push_zeros(numbers: &mut Vec<i32>, count: u32) -> Result<u32, AllocError>
    ensures numbers { OnOk result (numbers.new.items ≡ numbers.old.items ++ replicate count (pos 0)) }
    ensures size { IfOk result (λ size. size ≡ count) }
{
    let Some(all) = numbers.len().checked_add(count as usize) else {
        return Err(AllocError);
    };
    numbers.resize(all, 0)?;
    Ok(count)
}

/// A new cell holds this number. Tells how many cells that is.
fn push_one(numbers: &mut Vec<i32>, number: i32) -> Result<u32, AllocError>
    ensures numbers { OnOk result (numbers.new.items ≡ numbers.old.items ++ number ∷ []) }
    ensures size { IfOk result (λ size. size ≡ 1) }
{
    numbers.push(number)?;
    Ok(1)
}
