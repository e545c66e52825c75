//! What a statement begins with: one line for each form.

ghost use Rattle.std.specs.Prelude.{◌≡◌, true};
ghost use Rattle.c_syntax.specs.language.Tree.{kind_of};
ghost use Rattle.c_model.specs.Step as steps;
ghost use Rattle.c_steps.specs.ControlView.{here_at};
ghost use Rattle.c_steps.specs.Forms.{AdvancesBy, MakesBy, is_own};
ghost use Rattle.c_steps.specs.NodeTrees.{tree_of};
ghost use Rattle.c_steps.specs.Nodes.{IsPart, part_at};
ghost use Rattle.c_steps.specs.Steps.{Advances, CanStep};

use crate::cells::Cells;
use crate::code::Code;
use crate::control::Control;
use crate::control::events::synchronises;
use crate::next::{Made, Next, made};
use crate::node::Node;
use c_model::{SyncKind, SyncStage, View};
use c_syntax::{NodeKind, Standalone};

impl Control {
    /// A statement begins. What can't stand as one is an empty statement, and so is one that is missing.
    #[inline(always)]
    pub(super) fn begin_statement(
        &mut self,
        code: &Code,
        cells: &mut Cells,
        view: View,
        part: Option<u32>,
    ) -> Next
        requires ready { CanStep code.now view self.old }
        requires part { IsPart code.now.trees part }
        ensures { Advances code.now result self.old cells.old self.new cells.new
            (steps.begin_statement (kind_of (part_at code.now.trees part)) (here_at code.now view self.old cells.old)
            (part_at code.now.trees part)) }
    {
        match part {
            Some(number) => self.begin_node(cells, view, Node { code, number }),
            None => made(self.begin_empty(code, cells, view)),
        }
    }

    #[inline(never)]
    fn begin_node(&mut self, cells: &mut Cells, view: View, node: Node) -> Next
        requires { CanStep node.code.now view self.old }
        ensures { AdvancesBy (λ here tree. steps.begin_statement (kind_of tree) here tree)
            node.entry view result self.old cells.old self.new cells.new }
    {
        match node.kind() {
            NodeKind::LockCall(which) => self.begin_lock_call(cells, view, which, node),
            NodeKind::Standalone(which) => match which {
                Standalone::Barrier => {
                    synchronises(node, SyncKind::Barrier, SyncStage::RegionBegin)
                }
                Standalone::Taskwait => {
                    synchronises(node, SyncKind::Taskwait, SyncStage::RegionBegin)
                }
            },
            NodeKind::Construct(directive) => self.begin_construct(cells, view, directive, node),
            _ => made(self.make_statement(cells, view, node)),
        }
    }

    /// A statement of C's own is made, if it can be.
    #[inline(always)]
    pub(super) fn make_statement(&mut self, cells: &mut Cells, view: View, node: Node) -> Made
        requires ready { CanStep node.code.now view self.old }
        requires own { is_own (kind_of (tree_of node)) ≡ true }
        ensures { MakesBy (λ here tree. steps.begin_statement (kind_of tree) here tree)
            node.entry view result self.old cells.old self.new cells.new }
    {
        match node.kind() {
            NodeKind::Block => self.begin_block(cells, view, node),
            NodeKind::If => self.begin_if(cells, view, node),
            NodeKind::While => self.begin_while(cells, view, node),
            NodeKind::For => self.begin_for(cells, view, node),
            NodeKind::Return => self.begin_return(cells, view, node),
            NodeKind::SetCall => self.begin_set_call(cells, view, node),
            NodeKind::Step => self.make_step(node.code, cells, view, node.child(0), None),
            NodeKind::Called => self.begin_called(cells, view, node),
            NodeKind::Print => self.begin_print(cells, view, node),
            _ => self.begin_empty(node.code, cells, view),
        }
    }
}

/// Whether a statement is one of C's own.
#[inline(always)]
pub(super) fn is_own(kind: NodeKind) -> bool
    ensures { result ≡ is_own kind }
{
    !matches!(
        kind,
        NodeKind::LockCall(_) | NodeKind::Standalone(_) | NodeKind::Construct(_)
    )
}
