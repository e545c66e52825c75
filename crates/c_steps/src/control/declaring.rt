//! Declarators of blocks.

ghost use Rattle.std.specs.Prelude.{◌≡◌, ◌≤◌, ◌+◌, [], ◌∷◌, length, replicate, pos, true, IfSome};
ghost use Rattle.c_syntax.specs.language.Tree.{kind_of, name_of};
ghost use Rattle.c_check.specs.Seen.{slot_of_name};
ghost use Rattle.c_model.specs.declared.limits.TheConstants.{CELL_LIMIT};
ghost use Rattle.c_model.specs.StepOutcomes.{binds};
ghost use Rattle.c_model.specs.Statements as statements;
ghost use Rattle.c_model.specs.Task.{is_declarator};
ghost use Rattle.c_steps.specs.Forms.{MakesBy, named_cells};
ghost use Rattle.c_steps.specs.Items.{items_if};
ghost use Rattle.c_steps.specs.NodeTrees.{tree_of};
ghost use Rattle.c_steps.specs.Nodes.{IsPart, part_at};
ghost use Rattle.c_steps.specs.Ready.{IsItem, IsStepping};
ghost use Rattle.c_steps.specs.Rooming.{IsEntry};
ghost use Rattle.c_steps.specs.Steps.{CanStep};

use crate::cells::Cells;
use crate::control::Control;
use crate::item::Item;
use crate::next::{Made, Refusal};
use crate::node::Node;
use c_model::{CELLS, Entry, View};
use c_syntax::NodeKind;

impl Control {
    /// A declarator of a block.
    #[inline(always)]
    pub(super) fn declare(&mut self, cells: &mut Cells, view: View, node: Node) -> Made
        requires ready { CanStep node.code.now view self.old }
        requires declarator { is_declarator (kind_of (tree_of node)) ≡ true }
        ensures { MakesBy (λ here tree. statements.declares (kind_of tree) here tree)
            node.entry view result self.old cells.old self.new cells.new }
    {
        match node.kind() {
            NodeKind::LocalSet => {
                let right = node.child(0);
                match node.code.kind(right) {
                    NodeKind::Call | NodeKind::TestLock => self.set_to_call(cells, view, node),
                    _ => self.set_to_value(cells, view, node, right, None),
                }
            }
            NodeKind::LocalArray => {
                let size = node.code.number(Some(node.number)) as u32;
                self.declare_cells(cells, view, node, size)
            }
            NodeKind::Name | NodeKind::LocalVar => self.declare_cells(cells, view, node, 1),
            _ => unreachable!(),
        }
    }

    /// A declarator that is set to a call makes its cell, and the call stands next.
    #[tactic(auto, unfolding(crate::specs::Items::todo_at, crate::specs::Items::calls_at))]
    fn set_to_call(&mut self, cells: &mut Cells, view: View, node: Node) -> Made
        requires { IsStepping node.code.now self.old }
        ensures { MakesBy statements.begin_set_to_call node.entry view result self.old cells.old self.new cells.new }
    {
        if !cells.has_room(1) {
            return Err(Refusal::Limit(CELLS));
        }
        let (entry, node) = (new_entry(cells, node, 1), node.number);
        self.step();
        self.then(Item::Initialise { node, entry });
        cells.push(0);
        Ok(())
    }

    /// A variable comes into scope with the value of an expression, in which it isn't yet.
    pub(super) fn set_to_value(
        &mut self,
        cells: &mut Cells,
        view: View,
        name: Node,
        expression: Option<u32>,
        then: Option<Item>,
    ) -> Made
        requires ready { CanStep name.code.now view self.old }
        requires expression { IsPart name.code.now.trees expression }
        requires then { IfSome then (IsItem name.code.now) }
        ensures { let program = name.entry.code.now in
            MakesBy (λ here tree. statements.begin_set_to_value here tree (part_at program.trees expression)
            (items_if program then)) name.entry view result self.old cells.old self.new cells.new }
    {
        match self.value(name.code, cells, view, expression) {
            Err(trap) => Err(Refusal::Trap(trap)),
            Ok(number) => self.bind_number(cells, view, name, number, then),
        }
    }

    /// A name comes into scope with a new cell that holds a number.
    #[tactic(auto, using(crate::proofs::Stepping::items_if_cases))]
    fn bind_number(
        &mut self,
        cells: &mut Cells,
        view: View,
        name: Node,
        number: i32,
        then: Option<Item>,
    ) -> Made
        requires ready { CanStep name.code.now view self.old }
        requires then { IfSome then (IsItem name.code.now) }
        ensures { MakesBy (λ here tree. binds here (named_cells here tree (number ∷ []))
            (items_if name.entry.code.now then)) name.entry view result self.old cells.old self.new cells.new }
    {
        if !cells.has_room(1) {
            return Err(Refusal::Limit(CELLS));
        }
        let entry = new_entry(cells, name, 1);
        self.step();
        self.bind(entry);
        self.then_if(then);
        cells.push(number);
        Ok(())
    }

    /// A name comes into scope with so many new cells that hold 0.
    #[inline(always)]
    fn declare_cells(&mut self, cells: &mut Cells, view: View, node: Node, count: u32) -> Made
        requires { CanStep node.code.now view self.old }
        ensures { MakesBy (λ here tree. binds here (named_cells here tree (replicate count (pos 0))) [])
            node.entry view result self.old cells.old self.new cells.new }
    {
        if !cells.has_room(count as usize) {
            return Err(Refusal::Limit(CELLS));
        }
        let entry = new_entry(cells, node, count);
        self.step();
        self.bind(entry);
        cells.push_copies(0, count as usize);
        Ok(())
    }
}

/// The entry of a name that is declared with so many cells, which come behind those that there are.
fn new_entry(cells: &Cells, node: Node, size: u32) -> Entry
    requires { length cells.now.cells + size ≤ CELL_LIMIT }
    ensures entry { result ≡ record {
      name = name_of (tree_of node.entry);
      first = length cells.now.cells;
      size = size;
      slot = slot_of_name node.entry.code.now (tree_of node.entry);
    } }
    ensures is_entry { IsEntry result }
{
    Entry {
        name: node.code.name(Some(node.number)),
        first: cells.count() as u32,
        size,
        slot: node.code.slot(node.number),
    }
}
