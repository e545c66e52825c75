//! One step of a task's code.

ghost use Rattle.std.specs.Prelude.{◌≡◌, ◌<◌, pos, unwrap_or};
ghost use Rattle.c_syntax.specs.language.Numbered.{TreeView};
ghost use Rattle.c_model.specs.Task.Outcome.{Ends};
ghost use Rattle.c_model.specs.Step.{silent, step_of};
ghost use Rattle.c_steps.specs.Advancing.{IsKept, IsNamed};
ghost use Rattle.c_steps.specs.ControlView.{ControlView, here_at, moment_at, outcome_at};
ghost use Rattle.c_steps.specs.Items.{item_at};
ghost use Rattle.c_steps.specs.OfProgram.{IsMadeFor};
ghost use Rattle.c_steps.specs.Ready.{FitsProgram, IsItem};
ghost use Rattle.c_steps.specs.Views.{HasNumbers};
ghost use Rattle.c_steps.specs.Steps.{Advances, CanStep, Tells};

use crate::cells::Cells;
use crate::code::Code;
use crate::control::Control;
use crate::control::events::{acquire, asks, end_work, event, release, synchronises};
use crate::item::Item;
use crate::next::{Next, made};
use crate::node::Node;
use c_model::{Ask, Point, View};

impl Control {
    /// Makes one silent step, or says what stands next. At anything but a silent step the cells are as they were, and the control stands for
    /// the same task, but for what the task goes past. An event can be passed, and an answer that fits can be given. It takes no memory.
    pub fn advance(&mut self, code: &Code, cells: &mut Cells, view: View) -> Next
        requires made { IsMadeFor code.now self.old }
        requires view { HasNumbers view }
        requires spare { 0 < self.old.spare }
        ensures step { outcome_at code.now result (moment_at code.now self.new cells.new) ≡
            silent code.now view (moment_at code.now self.old cells.old) }
        ensures kept { IsKept code.now view result self.old cells.old self.new cells.new }
        ensures numbers { FitsProgram code.now result }
        ensures named { IsNamed code.now result self.new }
        ensures made { IsMadeFor code.now self.new }
    {
        match self.settle(code, view) {
            Some(item) => self.advance_item(code, cells, view, item),
            None => self.ended(),
        }
    }

    /// The code has ended, with the value of the last call, or 0.
    fn ended(&self) -> Next
        ensures tells { (program : TreeView) → Tells program result (Ends (unwrap_or self.now.returned (pos 0))) }
        ensures named { (program : TreeView) (held : ControlView) → IsNamed program result held }
    {
        match self.returned {
            Some(number) => Next::Ended(number),
            None => Next::Ended(0),
        }
    }

    /// The step of what stands next: an arm for each item.
    #[inline(always)]
    fn advance_item(&mut self, code: &Code, cells: &mut Cells, view: View, item: Item) -> Next
        requires ready { CanStep code.now view self.old }
        requires item { IsItem code.now item }
        ensures { Advances code.now result self.old cells.old self.new cells.new
            (step_of (item_at code.now item) (here_at code.now view self.old cells.old)) }
    {
        match item {
            Item::Start(part) => self.begin_statement(code, cells, view, part),
            Item::Declare(number) => made(self.declare(cells, view, Node { code, number })),
            Item::Leave(names) => made(self.leave_block(code, cells, view, names)),
            Item::Test { node, names } => {
                made(self.test_for(cells, view, Node { code, number: node }, names))
            }
            Item::Third { node, names } => {
                made(self.third_for(cells, view, Node { code, number: node }, names))
            }
            Item::Initialise { node, entry } => {
                made(self.begin_initialise(cells, view, Node { code, number: node }, entry))
            }
            Item::Return(number) => made(self.returns(code, cells, view, number)),
            Item::FallOff => made(self.returns(code, cells, view, 0)),
            Item::Forked(number) => {
                let node = Node { code, number };
                let codeptr = node.place();
                event(node, Point::ParallelEnd { codeptr })
            }
            Item::Inside(number) => self.begin_inside(cells, view, Node { code, number }),
            Item::MakeCells(number) => self.make_cells(cells, view, Node { code, number }),
            Item::NextChunk(shared) => {
                let number = shared.construct;
                asks(Node { code, number }, Ask::Chunk)
            }
            Item::Iterations { shared, at, upto } => {
                self.begin_iteration(code, cells, view, shared, at, upto)
            }
            Item::NextSection { node, .. } => asks(Node { code, number: node }, Ask::Section),
            Item::Combine {
                operator,
                name,
                names,
            } => self.combine(code, cells, view, operator, name, names),
            Item::EndWork {
                node,
                kind,
                count,
                ..
            } => end_work(Node { code, number: node }, kind, count),
            Item::EndMasked(number) => {
                let node = Node { code, number };
                let codeptr = node.place();
                event(node, Point::MaskedEnd { codeptr })
            }
            Item::Sync { node, kind, stage } => {
                synchronises(Node { code, number: node }, kind, stage)
            }
            Item::Acquire { node, kind, id } => acquire(Node { code, number: node }, kind, id),
            Item::Release { node, id } => release(Node { code, number: node }, id),
            Item::TestLock { node, id, .. } => {
                asks(Node { code, number: node }, Ask::LockFree(id))
            }
            Item::Tested(to) => made(self.end_test(code, cells, view, to)),
        }
    }
}
