//! Statements that are no steps, calls or constructs.

ghost use Rattle.std.specs.Prelude.{◌≡◌, if◌then◌else◌, Ok, pos, IfSome};
ghost use Rattle.c_model.specs.Parts.{has_child};
ghost use Rattle.c_model.specs.Statements as statements;
ghost use Rattle.c_model.specs.Value as values;
ghost use Rattle.c_check.specs.Loops.{child_at};
ghost use Rattle.c_steps.specs.ControlView.{here_at, scope_in};
ghost use Rattle.c_steps.specs.Forms.{MakesBy};
ghost use Rattle.c_steps.specs.Items.{items_if, with_file};
ghost use Rattle.c_steps.specs.NodeTrees.{tree_of};
ghost use Rattle.c_steps.specs.Ready.{IsItem, IsStepping};
ghost use Rattle.c_steps.specs.Views.{HasNumbers};
ghost use Rattle.c_steps.specs.Steps.{CanStep, Makes};

use crate::cells::Cells;
use crate::code::Code;
use crate::control::Control;
use crate::frame::Frame;
use crate::item::Item;
use crate::next::{Made, Refusal};
use crate::node::Node;
use c_model::View;
use c_syntax::NodeKind;

impl Control {
    /// A statement that does nothing.
    #[inline(always)]
    pub(super) fn begin_empty(&mut self, code: &Code, cells: &Cells, view: View) -> Made
        requires { IsStepping code.now self.old }
        ensures { Makes code.now result self.old cells.now self.new cells.now
            (statements.begin_empty (here_at code.now view self.old cells.now)) }
    {
        self.step();
        Ok(())
    }

    /// A block is entered.
    #[tactic(auto, using(crate::proofs::Frames::entered_cases), unfolding(crate::specs::Items::calls_at))]
    #[inline(always)]
    pub(super) fn begin_block(&mut self, cells: &Cells, view: View, node: Node) -> Made
        requires { IsStepping node.code.now self.old }
        ensures { MakesBy statements.begin_block node.entry view result self.old cells.now self.new cells.now }
    {
        let names = self.own_names();
        self.step();
        self.push(Frame::Parts {
            block: node.number,
            place: 0,
            at: 0,
            names,
        });
        Ok(())
    }

    /// A block ends, and so many names stay in scope.
    #[tactic(auto, using(crate::proofs::Frames::cut_names, crate::proofs::Frames::take_shorter))]
    #[inline(always)]
    pub(super) fn leave_block(
        &mut self,
        code: &Code,
        cells: &Cells,
        view: View,
        names: usize,
    ) -> Made
        requires { IsStepping code.now self.old }
        ensures { Makes code.now result self.old cells.now self.new cells.now
            (statements.leave_block (here_at code.now view self.old cells.now) (with_file code.now names)) }
    {
        self.step();
        self.cut(names);
        Ok(())
    }

    /// `if`: the branch that is taken stands next.
    #[tactic(auto, using(crate::proofs::Stepping::items_if_cases))]
    #[inline(always)]
    pub(super) fn begin_if(&mut self, cells: &Cells, view: View, node: Node) -> Made
        requires { CanStep node.code.now view self.old }
        ensures { MakesBy statements.begin_if node.entry view result self.old cells.now self.new cells.now }
    {
        match self.value(node.code, cells, view, node.child(0)) {
            Err(trap) => Err(Refusal::Trap(trap)),
            Ok(number) => {
                let branch = branch_taken(node, number);
                self.step();
                self.then_if(branch);
                Ok(())
            }
        }
    }

    /// `while`: the statement stands next, and then the loop again, or nothing.
    #[tactic(auto, unfolding(crate::specs::Items::todo_at, crate::specs::Items::calls_at))]
    #[inline(always)]
    pub(super) fn begin_while(&mut self, cells: &Cells, view: View, node: Node) -> Made
        requires { CanStep node.code.now view self.old }
        ensures { MakesBy statements.begin_while node.entry view result self.old cells.now self.new cells.now }
    {
        match self.value(node.code, cells, view, node.child(0)) {
            Err(trap) => Err(Refusal::Trap(trap)),
            Ok(0) => {
                self.step();
                Ok(())
            }
            Ok(_) => {
                let statement = node.child(1);
                self.step();
                self.then(Item::Start(Some(node.number)));
                self.then(Item::Start(statement));
                Ok(())
            }
        }
    }

    /// A plain `for` begins with its first part, which may declare a variable, and then its test stands next.
    #[tactic(auto, using(crate::proofs::Frames::all_names), unfolding(crate::specs::Items::todo_at, crate::specs::Items::calls_at))]
    #[inline(never)]
    pub(super) fn begin_for(&mut self, cells: &mut Cells, view: View, node: Node) -> Made
        requires { CanStep node.code.now view self.old }
        ensures { MakesBy statements.begin_for node.entry view result self.old cells.old self.new cells.new }
    {
        let (code, first) = (node.code, node.child(0));
        let test = Item::Test {
            node: node.number,
            names: self.own_names(),
        };
        match code.kind(first) {
            NodeKind::Init => match code.child(first, 0) {
                Some(number) => {
                    let name = Node { code, number };
                    self.set_to_value(cells, view, name, code.child(first, 1), Some(test))
                }
                None => {
                    self.step();
                    self.then(test);
                    Ok(())
                }
            },
            _ => self.make_step(code, cells, view, first, Some(test)),
        }
    }

    /// The test of a plain `for`. Where it is 0 so many names stay in scope.
    #[tactic(auto, using(crate::proofs::Frames::cut_cases), unfolding(crate::specs::Items::todo_at, crate::specs::Items::calls_at))]
    #[inline(always)]
    pub(super) fn test_for(&mut self, cells: &Cells, view: View, node: Node, names: usize) -> Made
        requires { CanStep node.code.now view self.old }
        ensures { MakesBy (λ here tree. statements.test_for here tree (with_file node.entry.code.now names))
            node.entry view result self.old cells.now self.new cells.now }
    {
        match self.test_value(cells, view, node) {
            Err(trap) => Err(Refusal::Trap(trap)),
            Ok(0) => {
                self.step();
                self.cut(names);
                Ok(())
            }
            Ok(_) => {
                let (node, statement) = (node.number, node.child(3));
                self.step();
                self.then(Item::Third { node, names });
                self.then(Item::Start(statement));
                Ok(())
            }
        }
    }

    /// The number of the test of a plain `for`, 1 where it has none.
    #[inline(always)]
    fn test_value(&self, cells: &Cells, view: View, node: Node) -> Result<i32, u8>
        requires { HasNumbers view }
        ensures { result ≡ (if has_child (tree_of node.entry) 1
            then values.value (scope_in node.entry.code.now view self.now cells.now) (child_at (tree_of node.entry) 1)
            else Ok (pos 1)) }
    {
        match node.child(1) {
            Some(test) => self.value(node.code, cells, view, Some(test)),
            None => Ok(1),
        }
    }

    /// The third part of a plain `for`, and then its test stands next.
    #[inline(always)]
    pub(super) fn third_for(
        &mut self,
        cells: &mut Cells,
        view: View,
        node: Node,
        names: usize,
    ) -> Made
        requires { CanStep node.code.now view self.old }
        ensures { MakesBy (λ here tree. statements.third_for here tree (with_file node.entry.code.now names))
            node.entry view result self.old cells.old self.new cells.new }
    {
        let (code, third, node) = (node.code, node.child(2), node.number);
        self.make_step(code, cells, view, third, Some(Item::Test { node, names }))
    }
}

/// The branch of an `if` that is taken, if there is one.
#[inline(always)]
fn branch_taken(node: Node, number: i32) -> Option<Item>
    ensures branch { items_if node.entry.code.now result ≡ statements.branch_taken (tree_of node.entry) number }
    ensures items { IfSome result (IsItem node.entry.code.now) }
{
    if number != 0 {
        return Some(Item::Start(node.child(1)));
    }
    match node.child(2) {
        Some(part) => Some(Item::Start(Some(part))),
        None => None,
    }
}
