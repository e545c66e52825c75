//! How much there is of the shared work that asks what stands next of it.

ghost use Rattle.std.specs.Prelude.{◌≡◌, IfSome};
ghost use Rattle.std.specs.Option.{option_map};
ghost use Rattle.c_syntax.specs.language.Numbered.{TreeView};
ghost use Rattle.c_model.specs.Asked.{count_asked, count_of_item, sections_asked, sections_of_item};
ghost use Rattle.c_steps.specs.ControlView.{task_at};
ghost use Rattle.c_steps.specs.Items.{item_at};
ghost use Rattle.c_steps.specs.OfProgram.{IsMadeFor};
ghost use Rattle.c_steps.specs.Ready.{IsItem};

use crate::clauses::section_count;
use crate::code::Code;
use crate::control::Control;
use crate::control::giving::MEMBER_0;
use crate::item::Item;
use crate::node::Node;

impl Control {
    /// How many iterations the loop has that asks for a chunk next. 0 where none does.
    pub fn asked_count(&self, code: &Code) -> u64
        requires { IsMadeFor code.now self.now }
        ensures { result ≡ count_asked (task_at code.now self.now).todo }
    {
        count_of_item(self.front(code, MEMBER_0))
    }

    /// How many sections the construct has that asks for one next. 0 where none does.
    pub fn asked_sections(&self, code: &Code) -> u32
        requires { IsMadeFor code.now self.now }
        ensures { result ≡ sections_asked (task_at code.now self.now).todo }
    {
        sections_of_item(code, self.front(code, MEMBER_0))
    }
}

/// The iterations of a loop that asks for a chunk.
fn count_of_item(item: Option<Item>) -> u64
    ensures { (program : TreeView) → result ≡ count_of_item (option_map (item_at program) item) }
{
    match item {
        Some(Item::NextChunk(shared)) => shared.count,
        _ => 0,
    }
}

/// The sections of a construct that asks for one.
fn sections_of_item(code: &Code, item: Option<Item>) -> u32
    requires { IfSome item (IsItem code.now) }
    ensures { result ≡ sections_of_item (option_map (item_at code.now) item) }
{
    match item {
        Some(Item::NextSection { node, .. }) => section_count(Node { code, number: node }),
        _ => 0,
    }
}
