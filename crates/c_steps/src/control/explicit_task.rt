//! Where the code of an explicit task begins.

ghost use Rattle.std.specs.Prelude.{◌≡◌, ◌<◌, ◌≤◌, Some, length, slice_get, IfNone, IfSome};
ghost use Rattle.std.specs.Option.{option_map};
ghost use Rattle.c_syntax.specs.language.Numbered.{TreeView, tree_at};
ghost use Rattle.c_model.specs.declared.limits.TheConstants.{CELL_LIMIT};
ghost use Rattle.c_model.specs.Begin.{created_construct, explicit_task_of};
ghost use Rattle.c_model.specs.Copies.{with_task_cells};
ghost use Rattle.c_steps.specs.Beginning.{IsCreation, created_of};
ghost use Rattle.c_steps.specs.ControlView.{bound_in, moment_at, task_at};
ghost use Rattle.c_steps.specs.Items.{item_at};
ghost use Rattle.c_steps.specs.OfProgram.{IsMadeFor};
ghost use Rattle.c_steps.specs.Ready.{IsItem};

use crate::cells::Cells;
use crate::clauses::statement;
use crate::code::Code;
use crate::control::Control;
use crate::control::giving::MEMBER_0;
use crate::item::Item;
use crate::node::Node;

impl Control {
    /// The code of an explicit task begins in another control, with its own cells beside those of the task that creates it, whose construct
    /// stands next here. What stood there goes. It takes no memory.
    pub fn task(&self, code: &Code, cells: &mut Cells, into: &mut Control)
        requires made { IsMadeFor code.now self.now }
        requires created { IsCreation (slice_get (task_at code.now self.now).todo 0) }
        requires room { length (with_task_cells code.now (bound_in code.now self.now cells.old)
            (created_construct (task_at code.now self.now).todo)).cells ≤ CELL_LIMIT }
        requires into { IsMadeFor code.now into.old }
        ensures went { moment_at code.now into.new cells.new ≡
            explicit_task_of code.now (created_construct (task_at code.now self.now).todo)
            (moment_at code.now self.now cells.old) }
        ensures made { IsMadeFor code.now into.new }
    {
        let Some(number) = created_node(self.front(code, MEMBER_0)) else {
            return;
        };
        let node = Node { code, number };
        let part = statement(node);
        into.inherit(self.own_entries());
        into.make_task_cells(cells, node);
        into.then(Item::Start(part));
    }
}

/// The construct of which an explicit task is made, where an item is of one.
fn created_node(item: Option<Item>) -> Option<u32>
    ensures construct { (program : TreeView) →
        IfSome result (λ node. created_of (option_map (item_at program) item) ≡ Some (tree_at program.trees node)) }
    ensures none { (program : TreeView) → IfNone result (IsCreation (option_map (item_at program) item) → ⊥) }
    ensures there { (program : TreeView) → IfSome item (IsItem program) →
        IfSome result (λ node. node < length program.trees) }
{
    match item {
        Some(Item::Start(Some(node))) => Some(node),
        _ => None,
    }
}
