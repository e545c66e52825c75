//! A construct's own copies of variables: how many cells they have, and how they are made.

ghost use Rattle.std.specs.Prelude.{◌≡◌, ◌+◌, ◌-◌, ◌≤◌, length, min, take};
ghost use Rattle.c_model.specs.Cells.{entry_at_slot, entry_of, new_entry};
ghost use Rattle.c_model.specs.Clauses.Copying.{First};
ghost use Rattle.c_model.specs.Copies as copies;
ghost use Rattle.c_model.specs.Copies.{copied_numbers, listed_variables};
ghost use Rattle.c_model.specs.declared.limits.TheConstants.{CELL_LIMIT};
ghost use Rattle.c_steps.specs.ListedNames.{copying_of};
ghost use Rattle.c_steps.specs.NodeTrees.{tree_of};
ghost use Rattle.c_steps.specs.OwnCells.{around_of, copy_cells, listed_cells, room_behind, slot_cells, with_numbers};
ghost use Rattle.c_steps.specs.Rooming.{IsEntry};

use crate::cells::Cells;
use crate::listed::{Copying, ListedName, first_listed, next_listed};
use crate::node::Node;
use crate::scope::Scope;
use c_model::Entry;
use c_syntax::ReductionOp;

/// The room for cells that copies of the variables leave that a construct's clauses list. `None` where it isn't enough for them.
#[tactic(auto, using(crate::proofs::Counting::room_one_more), unfolding(crate::specs::OwnCells::listed_cells))]
pub(crate) fn room_behind_listed(scope: &Scope, construct: Node, room: usize) -> Option<usize>
    ensures { result ≡ room_behind (listed_cells (around_of scope.now)
        (listed_variables (tree_of construct.entry))) room }
{
    let (mut left, mut place) = (room, first_listed());
    while let Some(found) = next_listed(construct, place) {
        match left.checked_sub(copy_size(scope, found.listed)) {
            None => return None,
            Some(rest) => {
                left = rest;
                place = found.next;
            }
        }
    }
    Some(left)
}

/// The room for cells that copies of what a task copies by rule leave. `None` where it isn't enough for them.
#[tactic(auto, using(crate::proofs::Counting::no_slot))]
pub(crate) fn room_behind_slots(scope: &Scope, slots: &[u32], room: usize) -> Option<usize>
    ensures { result ≡ room_behind (slot_cells (around_of scope.now) slots.now) room }
{
    let mut left = room;
    for slot in slots {
        match room_behind_slot(scope, *slot, left) {
            None => return None,
            Some(rest) => left = rest,
        }
    }
    Some(left)
}

/// The room for cells that the copy of a variable leaves that a task copies by rule.
#[tactic(auto, using(crate::proofs::Counting::numbers_made))]
fn room_behind_slot(scope: &Scope, slot: u32, room: usize) -> Option<usize>
    ensures { result ≡ room_behind (copy_cells (around_of scope.now)
        (entry_at_slot (around_of scope.now).env slot) First) room }
{
    room.checked_sub(cells_made(scope.cells.len(), scope.entry_at_slot(slot)))
}

/// How many cells a construct's copy of a variable has.
#[tactic(auto, using(crate::proofs::Counting::numbers_made))]
fn copy_size(scope: &Scope, listed: ListedName) -> usize
    ensures { result ≡ copy_cells (around_of scope.now) (entry_of (around_of scope.now).env listed.name)
        (copying_of listed.copying) }
{
    let entry = scope.entry(listed.name);
    match listed.copying {
        Copying::Private => entry.size as usize,
        Copying::First => cells_made(scope.cells.len(), entry),
        Copying::Reduced(_) => 1,
    }
}

/// How many cells of an entry there are, among so many in all.
fn cells_made(count: usize, entry: Entry) -> usize
    ensures { result ≡ min (count - entry.first) entry.size }
{
    let behind = count.saturating_sub(entry.first as usize);
    behind.min(entry.size as usize)
}

/// A construct's copy of a variable is made, where so many cells were there before its copies. Tells the copy's entry.
pub(crate) fn make_copy(cells: &mut Cells, count: usize, entry: Entry, copying: Copying) -> Entry
    requires before { count ≤ length cells.old.cells }
    requires room { length cells.old.cells + length
        (copied_numbers (copying_of copying) (take count cells.old.cells) entry) ≤ CELL_LIMIT }
    ensures cells { cells.new ≡ with_numbers (copied_numbers (copying_of copying) (take count cells.old.cells) entry)
        cells.old }
    ensures entry { result ≡ new_entry cells.old.cells entry.name entry.slot
        (copied_numbers (copying_of copying) (take count cells.old.cells) entry) }
    ensures is_entry { IsEntry result }
{
    let first = cells.count() as u32;
    let size = fill_copy(cells, count, entry, copying);
    Entry {
        name: entry.name,
        first,
        size: size as u32,
        slot: entry.slot,
    }
}

/// New cells hold what a construct's copy of a variable holds at first. Tells how many they are.
fn fill_copy(cells: &mut Cells, count: usize, entry: Entry, copying: Copying) -> usize
    requires before { count ≤ length cells.old.cells }
    requires room { length cells.old.cells + length
        (copied_numbers (copying_of copying) (take count cells.old.cells) entry) ≤ CELL_LIMIT }
    ensures cells { cells.new ≡ with_numbers (copied_numbers (copying_of copying) (take count cells.old.cells) entry)
        cells.old }
    ensures size { result ≡ length (copied_numbers (copying_of copying) (take count cells.old.cells) entry) }
{
    match copying {
        Copying::Private => {
            let size = entry.size as usize;
            cells.push_copies(0, size);
            size
        }
        Copying::First => {
            let size = cells_made(count, entry);
            cells.push_range(entry.first as usize, size);
            size
        }
        Copying::Reduced(operator) => {
            cells.push(neutral_number(operator));
            1
        }
    }
}

/// The number with which a reduction begins.
fn neutral_number(operator: ReductionOp) -> i32
    ensures { result ≡ copies.neutral_number operator }
{
    match operator {
        ReductionOp::Add => 0,
        ReductionOp::Multiply => 1,
        ReductionOp::Max => i32::MIN,
        ReductionOp::Min => i32::MAX,
    }
}
