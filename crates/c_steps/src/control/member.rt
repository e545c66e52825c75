//! Where the code of a member of a team begins.

ghost use Rattle.std.specs.Prelude.{ℕ, ◌≡◌, ◌<◌, ◌≤◌, length, IfSome};
ghost use Rattle.c_syntax.specs.language.Tree.{Tree as syntax_tree};
ghost use Rattle.std.specs.Option.{option_map};
ghost use Rattle.c_syntax.specs.language.Numbered.{TreeView, tree_at};
ghost use Rattle.c_model.specs.Begin.{member_items, member_statement, member_task};
ghost use Rattle.c_steps.specs.Beginning.{HasForked, IsPutBefore, forked_of, member_by, region_items};
ghost use Rattle.c_steps.specs.ControlView.{task_at};
ghost use Rattle.c_steps.specs.Items.{item_at, with_file};
ghost use Rattle.c_steps.specs.NodeTrees.{tree_of};
ghost use Rattle.c_steps.specs.OfProgram.{IsMadeFor};
ghost use Rattle.c_steps.specs.Moves.{beginning};
ghost use Rattle.c_steps.specs.Ready.{IsItem};
ghost use Rattle.c_steps.specs.Rooming.{AreEntries};

use crate::clauses::statement;
use crate::code::Code;
use crate::control::Control;
use crate::control::giving::MEMBER_0;
use crate::control::passing::own_cells;
use crate::frame::Frame;
use crate::item::Item;
use crate::listed::first_listed;
use crate::node::Node;
use c_model::{Entry, SyncKind, SyncStage};
use c_syntax::{Directive, NodeKind};

impl Control {
    /// The code of a member of a team begins in another control, with the names of the task that has forked the region, which stands next
    /// here. What stood there goes. It takes no memory.
    #[tactic(auto, using(crate::proofs::Members::own_fit, crate::proofs::Members::none_forked))]
    pub fn member(&self, code: &Code, into: &mut Control)
        requires made { IsMadeFor code.now self.now }
        requires forked { HasForked (task_at code.now self.now).todo }
        requires into { IsMadeFor code.now into.old }
        ensures task { task_at code.now into.new ≡ member_task (task_at code.now self.now) }
        ensures made { IsMadeFor code.now into.new }
    {
        let Some(number) = forked_node(self.front(code, MEMBER_0)) else {
            return;
        };
        into.inherit(self.own_entries());
        into.begin_member(Node { code, number }, self.own_names());
    }

    /// No code is left, these names are in scope, and the rest of the room is for more.
    pub(super) fn inherit(&mut self, entries: &[Entry])
        requires room { length entries.now ≤ self.old.room }
        requires entries { AreEntries entries.now }
        ensures { self.new ≡ beginning entries.now self.old }
    {
        self.empty();
        self.names.extend(entries);
        self.names_now = self.room - entries.len();
    }

    /// The code of a member stands next: what it executes, and then the region's barrier.
    fn begin_member(&mut self, node: Node, names: usize)
        requires { 3 < self.old.frames_now }
        ensures { let program = node.entry.code.now in
            IsPutBefore program (member_items (tree_of node.entry) (with_file program names)) self.old self.new }
    {
        self.then(Item::Sync {
            node: node.number,
            kind: SyncKind::Parallel,
            stage: SyncStage::RegionBegin,
        });
        if has_construct_inside(node.kind()) {
            self.then(Item::Inside(node.number));
        } else {
            self.begin_region(node, names);
        }
    }

    /// The statement of a parallel construct stands next, with the making of the construct's own cells before it and the reductions behind.
    fn begin_region(&mut self, node: Node, names: usize)
        requires { 2 < self.old.frames_now }
        ensures { let program = node.entry.code.now in
            IsPutBefore program (region_items (tree_of node.entry) (with_file program names)) self.old self.new }
    {
        let part = statement(node);
        let cells = own_cells(node);
        self.push(Frame::Combining {
            construct: node.number,
            from: first_listed(),
            names,
        });
        self.then(Item::Start(part));
        self.then_if(cells);
    }
}

/// Whether a directive is a combined one, which has another construct inside.
fn has_construct_inside(kind: NodeKind) -> bool
    ensures { (construct : syntax_tree) (names : ℕ) →
        member_statement kind construct names ≡ member_by result construct names }
{
    matches!(
        kind,
        NodeKind::Construct(Directive::ParallelFor | Directive::ParallelSections)
    )
}

/// The construct of a region that was forked, where an item is of one.
fn forked_node(item: Option<Item>) -> Option<u32>
    ensures construct { (program : TreeView) →
        forked_of (option_map (item_at program) item) ≡ option_map (tree_at program.trees) result }
    ensures there { (program : TreeView) → IfSome item (IsItem program) →
        IfSome result (λ node. node < length program.trees) }
{
    match item {
        Some(Item::Forked(node)) => Some(node),
        _ => None,
    }
}
