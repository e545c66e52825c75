//! The cells that constructs and tasks make of their own.

ghost use Rattle.std.specs.Prelude.{◌≡◌, ◌+◌, ◌<◌, ◌≤◌, ◌∷◌, ◌++◌, [], if◌then◌else◌, length, not, pos, slice_range};
ghost use Rattle.c_syntax.specs.language.Tree.{kind_of, name_of};
ghost use Rattle.c_check.specs.Seen.{slot_of_name, task_copies};
ghost use Rattle.c_model.specs.declared.limits.TheConstants.{CELL_LIMIT};
ghost use Rattle.c_model.specs.Cells.{entry_of, has_too_many, new_entry};
ghost use Rattle.c_model.specs.Constructs as constructs;
ghost use Rattle.c_model.specs.Copies.{listed_variables, loop_slot, with_own_cells, with_task_cells};
ghost use Rattle.c_model.specs.Loops.{is_declared, loop_of};
ghost use Rattle.c_steps.specs.ControlView.{bound_in};
ghost use Rattle.c_steps.specs.Forms.{AdvancesBy};
ghost use Rattle.c_steps.specs.Items.{file_names};
ghost use Rattle.c_steps.specs.ListedNames.{listed_of};
ghost use Rattle.c_steps.specs.Moves.{bound};
ghost use Rattle.c_steps.specs.NodeTrees.{tree_of};
ghost use Rattle.c_steps.specs.Nodes.{IsPart, part_at};
ghost use Rattle.c_steps.specs.OwnCells.{around_at, copy_numbers_at, listed_copy_at, listed_made_at, own_made_at, slot_copy_at, slots_made_at, task_made_at, with_copy_at, with_made, with_made_cells, with_numbers};
ghost use Rattle.c_steps.specs.Views.{HasNumbers};
ghost use Rattle.c_steps.specs.Steps.{CanStep};

use crate::cells::Cells;
use crate::code::Code;
use crate::control::Control;
use crate::copies::{make_copy, room_behind_listed, room_behind_slots};
use crate::in_scope::{entry_among, slot_entry};
use crate::listed::{Copying, ListedName, first_listed, is_loop, next_listed};
use crate::loops::loop_nodes;
use crate::next::Next;
use crate::node::Node;
use c_model::{CELLS, Entry, View};
use c_syntax::NodeKind;

impl Control {
    /// A construct's own cells are made, all in one silent step.
    pub(super) fn make_cells(&mut self, cells: &mut Cells, view: View, node: Node) -> Next
        requires { CanStep node.code.now view self.old }
        ensures { AdvancesBy constructs.make_cells node.entry view result self.old cells.old self.new cells.new }
    {
        if !self.has_own_room(cells, view, node) {
            return Next::Limit(CELLS);
        }
        self.step();
        self.make_own(cells, node);
        Next::Quiet
    }

    /// Whether there is room for the cells of a construct's own.
    fn has_own_room(&self, cells: &Cells, view: View, node: Node) -> bool
        requires { HasNumbers view }
        ensures { let program = node.entry.code.now in result ≡ not (has_too_many
            (with_own_cells program (bound_in program self.now cells.now) (tree_of node.entry)).cells) }
    {
        let scope = self.scope(node.code, cells.items(), view);
        match room_behind_listed(&scope, node, cells.room()) {
            None => false,
            Some(room) => room > 0 || !is_loop(node),
        }
    }

    /// Whether there is room for the cells of a task's own.
    #[tactic(auto, using(crate::proofs::Counting::task_cells_fit, crate::proofs::Counting::task_cells_pass))]
    pub(super) fn has_task_room(&self, cells: &Cells, view: View, node: Node) -> bool
        requires { HasNumbers view }
        ensures { let program = node.entry.code.now in result ≡ not (has_too_many
            (with_task_cells program (bound_in program self.now cells.now) (tree_of node.entry)).cells) }
    {
        let scope = self.scope(node.code, cells.items(), view);
        match room_behind_listed(&scope, node, cells.room()) {
            None => false,
            Some(room) => {
                let slots = node.code.program().task_copies(node.number);
                room_behind_slots(&scope, slots, room).is_some()
            }
        }
    }

    /// A construct's own cells come, with their names: what its clauses list, and its loop's variable.
    #[tactic(auto, using(crate::proofs::OwnNames::range_before))]
    fn make_own(&mut self, cells: &mut Cells, node: Node)
        requires room { length (own_made_at node.code.now self.old cells.old (tree_of node)).cells ≤ CELL_LIMIT }
        requires names { length (listed_variables (tree_of node)) + 1 ≤ self.old.names_now }
        ensures control { self.new ≡ with_made
            (own_made_at node.entry.code.now self.old cells.old (tree_of node.entry)) self.old }
        ensures cells { cells.new ≡ with_made_cells
            (own_made_at node.entry.code.now self.old cells.old (tree_of node.entry)) cells.old }
        ensures base { self.old.base ≤ length self.old.names }
    {
        let names = self.names.len();
        self.make_listed(cells, node);
        if is_loop(node) {
            self.make_loop_variable(cells, names, node);
        }
    }

    /// A construct's copies of the variables that its clauses list come, with their names.
    #[tactic(auto, using(crate::proofs::OwnNames::range_before))]
    fn make_listed(&mut self, cells: &mut Cells, node: Node)
        requires room { length (listed_made_at node.code.now self.old cells.old (tree_of node)).cells ≤ CELL_LIMIT }
        requires names { length (listed_variables (tree_of node)) ≤ self.old.names_now }
        ensures control { self.new ≡ with_made
            (listed_made_at node.entry.code.now self.old cells.old (tree_of node.entry)) self.old }
        ensures cells { cells.new ≡ with_made_cells
            (listed_made_at node.entry.code.now self.old cells.old (tree_of node.entry)) cells.old }
    {
        let (names, count) = (self.names.len(), cells.count());
        let mut place = first_listed();
        while let Some(found) = next_listed(node, place) {
            self.make_named(node.code, cells, names, count, found.listed);
            place = found.next;
        }
    }

    /// The copy of a variable comes that a clause lists, where there were so many names and cells before a construct's own.
    fn make_named(
        &mut self,
        code: &Code,
        cells: &mut Cells,
        names: usize,
        count: usize,
        listed: ListedName,
    )
        requires own { self.old.base ≤ names }
        requires names { names ≤ length self.old.names }
        requires count { count ≤ length cells.old.cells }
        requires free { 0 < self.old.names_now }
        requires room { length cells.old.cells + length (copy_numbers_at code.now self.old names cells.old count
            (listed_copy_at code.now self.old names cells.old count (listed_of listed))) ≤ CELL_LIMIT }
        ensures control { self.new ≡ with_copy_at code.now names cells.old count
            (listed_copy_at code.now self.old names cells.old count (listed_of listed)) self.old }
        ensures cells { cells.new ≡ with_numbers (copy_numbers_at code.now self.old names cells.old count
            (listed_copy_at code.now self.old names cells.old count (listed_of listed))) cells.old }
    {
        let entry = self.entry_around(code, names, listed.name);
        let copy = make_copy(cells, count, entry, listed.copying);
        self.bind(copy);
    }

    /// A task's own cells come, with their names: what its clauses list, and what it copies by rule. The names around are those of the task
    /// that creates it.
    pub(super) fn make_task_cells(&mut self, cells: &mut Cells, node: Node)
        requires room { length (task_made_at node.code.now self.old cells.old (tree_of node)).cells ≤ CELL_LIMIT }
        requires names { length (listed_variables (tree_of node)) + length
            (task_copies node.code.now (tree_of node)) ≤ self.old.names_now }
        ensures control { self.new ≡ with_made
            (task_made_at node.entry.code.now self.old cells.old (tree_of node.entry)) self.old }
        ensures cells { cells.new ≡ with_made_cells
            (task_made_at node.entry.code.now self.old cells.old (tree_of node.entry)) cells.old }
    {
        let (names, count) = (self.names.len(), cells.count());
        self.make_listed(cells, node);
        let slots = node.code.program().task_copies(node.number);
        self.make_slots(node.code, cells, names, count, slots);
    }

    /// Copies of the variables with these slots come, with their names, where there were so many names and cells before a task's own.
    fn make_slots(
        &mut self,
        code: &Code,
        cells: &mut Cells,
        names: usize,
        count: usize,
        slots: &[u32],
    )
        requires own { self.old.base ≤ names }
        requires names { names ≤ length self.old.names }
        requires count { count ≤ length cells.old.cells }
        requires free { length slots.now ≤ self.old.names_now }
        requires room { length (slots_made_at code.now self.old names cells.old count slots.now).cells ≤ CELL_LIMIT }
        ensures control { self.new ≡ with_made
            (slots_made_at code.now self.old names cells.old count slots.now) self.old }
        ensures cells { cells.new ≡ with_made_cells
            (slots_made_at code.now self.old names cells.old count slots.now) cells.old }
    {
        for slot in slots {
            self.make_slot(code, cells, names, count, *slot);
        }
    }

    /// The copy of the variable with a slot comes, where there were so many names and cells before a task's own.
    #[tactic(auto, unfolding(crate::specs::Items::file_names))]
    fn make_slot(&mut self, code: &Code, cells: &mut Cells, names: usize, count: usize, slot: u32)
        requires own { self.old.base ≤ names }
        requires names { names ≤ length self.old.names }
        requires count { count ≤ length cells.old.cells }
        requires free { 0 < self.old.names_now }
        requires room { length cells.old.cells + length (copy_numbers_at code.now self.old names cells.old count
            (slot_copy_at code.now self.old names cells.old count slot)) ≤ CELL_LIMIT }
        ensures control { self.new ≡ with_copy_at code.now names cells.old count
            (slot_copy_at code.now self.old names cells.old count slot) self.old }
        ensures cells { cells.new ≡ with_numbers (copy_numbers_at code.now self.old names cells.old count
            (slot_copy_at code.now self.old names cells.old count slot)) cells.old }
    {
        let entry = slot_entry(code.file(), &self.names.items()[self.base..names], slot);
        let copy = make_copy(cells, count, entry, Copying::First);
        self.bind(copy);
    }

    /// The variable of a construct's loop comes, where there were so many names before the construct's own.
    fn make_loop_variable(&mut self, cells: &mut Cells, names: usize, node: Node)
        requires own { self.old.base ≤ names }
        requires names { names ≤ length self.old.names }
        requires free { 0 < self.old.names_now }
        requires room { length cells.old.cells < CELL_LIMIT }
        ensures control { self.new ≡ bound
            (new_entry cells.old.cells (name_of (loop_of (tree_of node.entry)).variable)
            (loop_slot node.entry.code.now (around_at node.entry.code.now self.old names cells.old 0)
            (tree_of node.entry)) (pos 0 ∷ [])) self.old }
        ensures cells { cells.new ≡ with_numbers (pos 0 ∷ []) cells.old }
    {
        let (code, variable) = (node.code, loop_nodes(node).variable);
        let entry = Entry {
            name: code.name(variable),
            first: cells.count() as u32,
            size: 1,
            slot: self.variable_slot(code, names, variable),
        };
        cells.push(0);
        self.bind(entry);
    }

    /// The slot of a loop's variable: its own where the loop declares it, and else that of the variable around.
    fn variable_slot(&self, code: &Code, names: usize, variable: Option<u32>) -> u32
        requires variable { IsPart code.now.trees variable }
        requires own { self.now.base ≤ names }
        requires names { names ≤ length self.now.names }
        ensures { result ≡ (if is_declared (kind_of (part_at code.now.trees variable))
            then slot_of_name code.now (part_at code.now.trees variable)
            else (entry_of (file_names code.now ++ slice_range self.now.names self.now.base names)
            (name_of (part_at code.now.trees variable))).slot) }
    {
        match variable {
            Some(node) => match code.kind(Some(node)) {
                NodeKind::Name => code.slot(node),
                _ => self.entry_around(code, names, code.name(Some(node))).slot,
            },
            None => self.entry_around(code, names, code.name(None)).slot,
        }
    }

    /// The entry of a name, among those of the file and of the function before a construct's own.
    #[tactic(auto, unfolding(crate::specs::Items::file_names))]
    fn entry_around(&self, code: &Code, names: usize, name: u32) -> Entry
        requires own { self.now.base ≤ names }
        requires names { names ≤ length self.now.names }
        ensures { result ≡ entry_of (file_names code.now ++ slice_range self.now.names self.now.base names) name }
    {
        entry_among(code.file(), &self.names.items()[self.base..names], name)
    }
}
