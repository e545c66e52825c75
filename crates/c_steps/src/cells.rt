//! What all tasks of a run share.

ghost use Rattle.std.specs.Prelude.{◌≡◌, ◌+◌, ◌<◌, ◌≤◌, [], ◌∷◌, ◌++◌, length, drop, nat_lt, not, replicate, slice_set, take, IfOk};
ghost use Rattle.c_model.specs.Calls.{file_bound};
ghost use Rattle.c_model.specs.Cells.{cell_at};
ghost use Rattle.c_model.specs.declared.limits.TheConstants.{CELL_LIMIT};

use crate::code::Code;
use crate::evaluate::number_in;
use c_model::{CELL_LIMIT, TEXT_LIMIT};
use std::alloc::{AllocError, Global};
use std::marker::Model;

/// What all tasks of a run share: the cells by number, and the bytes that were printed. It has room for as many as there may be, so that
/// only [`Cells::new`] takes memory.
#[derive(Drop)]
pub struct Cells {
    pub(crate) cells: Vec<i32>,
    pub(crate) text: Vec<u8>,
}

impl Model for Cells {
    ghost use Rattle.std.specs.Prelude.{vec_len, vec_capacity};
    ghost use Rattle.c_model.specs.Task.{Store};
    ghost use Rattle.c_model.specs.declared.limits.TheConstants.{CELL_LIMIT, TEXT_LIMIT};
    ghost use Rattle.c_steps.specs.Rooms.{HasRoom};

    ghost Value = { Store };

    ghost view = { λ all. record { cells = all.cells.items; text = all.text.items } };

    ghost invariant = { λ all. HasRoom CELL_LIMIT (vec_len all.cells) (vec_capacity all.cells)
        × HasRoom TEXT_LIMIT (vec_len all.text) (vec_capacity all.text) };
}

impl Cells {
    /// The cells of a program's file, and nothing printed. More cells than there may be are want of memory too.
    pub fn new(alloc: Global, code: &Code) -> Result<Cells, AllocError>
        ensures { IfOk result (λ all. all ≡ record { cells = (file_bound code.now).cells; text = [] }) }
    {
        let numbers = code.file_numbers();
        if numbers.len() > CELL_LIMIT {
            return Err(AllocError);
        }
        let mut cells = Vec::with_capacity(alloc, CELL_LIMIT)?;
        cells.extend_from_slice(numbers)?;
        let text = Vec::with_capacity(alloc, TEXT_LIMIT)?;
        Ok(Cells { cells, text })
    }

    /// How many cells there are.
    #[inline(always)]
    pub(crate) fn count(&self) -> usize
        ensures { result ≡ length self.now.cells }
    {
        self.cells.len()
    }

    /// For how many more cells there is room.
    pub(crate) fn room(&self) -> usize
        ensures { length self.now.cells + result ≡ CELL_LIMIT }
    {
        CELL_LIMIT - self.cells.len()
    }

    /// The numbers in the cells.
    #[inline(always)]
    pub(crate) fn items(&self) -> &[i32]
        ensures { result.now ≡ self.now.cells }
    {
        &self.cells
    }

    /// The number in a cell that was made.
    pub fn get(&self, cell: u32) -> i32
        requires { cell < length self.now.cells }
        ensures { result ≡ cell_at self.now.cells cell }
    {
        self.cells[cell as usize]
    }

    /// The number in a cell, 0 where it wasn't made.
    #[inline(always)]
    pub(crate) fn number(&self, cell: usize) -> i32
        ensures { result ≡ cell_at self.now.cells cell }
    {
        number_in(&self.cells, cell)
    }

    /// Whether there may be so many more cells.
    #[inline(always)]
    pub(crate) fn has_room(&self, count: usize) -> bool
        ensures { nat_lt CELL_LIMIT (length self.now.cells + count) ≡ not result }
    {
        count <= CELL_LIMIT - self.cells.len()
    }

    /// The bytes that were printed.
    pub fn text(&self) -> &[u8]
        ensures { result.now ≡ self.now.text }
    {
        &self.text
    }

    /// The bytes that were printed. It takes no memory.
    pub fn into_text(self) -> Vec<u8>
        ensures { result.items ≡ self.text }
    {
        self.text
    }

    /// A new cell holds this number.
    #[inline(always)]
    pub(crate) fn push(&mut self, number: i32)
        requires { length self.old.cells < CELL_LIMIT }
        ensures { self.new ≡ record self.old { cells = self.old.cells ++ number ∷ [] } }
    {
        self.cells.push_reserved(number);
    }

    /// So many new cells hold this number.
    pub(crate) fn push_copies(&mut self, number: i32, count: usize)
        requires { length self.old.cells + count ≤ CELL_LIMIT }
        ensures { self.new ≡ record self.old { cells = self.old.cells ++ replicate count number } }
    {
        let count = self.cells.len() + count;
        self.cells.resize(count, number).unwrap();
    }

    /// New cells hold what so many cells hold from the first one on. Cells that weren't made give none.
    pub(crate) fn push_range(&mut self, first: usize, size: usize)
        requires { length self.old.cells + length (take size (drop first self.old.cells)) ≤ CELL_LIMIT }
        ensures { self.new ≡ record self.old { cells = self.old.cells ++ take size (drop first self.old.cells) } }
    {
        let start = first.min(self.cells.len());
        let end = start + size.min(self.cells.len() - start);
        self.cells.extend_from_within(start..end).unwrap();
    }

    /// A cell holds this number from now on. Nothing changes where it wasn't made.
    #[inline(always)]
    pub(crate) fn set(&mut self, cell: usize, number: i32)
        ensures { self.new ≡ record self.old { cells = slice_set self.old.cells cell number } }
    {
        if let Some(held) = self.cells.get_mut(cell) {
            *held = number;
        }
    }
}
