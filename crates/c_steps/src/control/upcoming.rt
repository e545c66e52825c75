//! What comes next in a task's code, as far as its form tells it.

ghost use Rattle.std.specs.Prelude.{◌≡◌, IfSome};
ghost use Rattle.c_syntax.specs.language.Numbered.{TreeView};
ghost use Rattle.c_model.specs.declared.view.View.{View as SeenView};
ghost use Rattle.c_model.specs.Upcoming.{upcoming_item, upcoming_of};
ghost use Rattle.c_steps.specs.ControlView.{task_at};
ghost use Rattle.c_steps.specs.Items.{item_at};
ghost use Rattle.c_steps.specs.OfProgram.{IsMadeFor};
ghost use Rattle.c_steps.specs.Ready.{IsItem};
ghost use Rattle.c_steps.specs.FrontFrame.{ItemTells};

use crate::code::Code;
use crate::control::Control;
use crate::control::standing::is_event;
use crate::frame::Frame;
use crate::item::Item;
use c_model::{Upcoming, View};

impl Control {
    /// What comes next, of whatever program it is and whatever a thread sees of its team, where what stands first tells it by itself.
    #[inline(always)]
    pub fn upcoming_at_once(&self) -> Option<Upcoming>
        ensures { (program : TreeView) (view : SeenView) →
            IfSome result (λ upcoming. upcoming_of view (task_at program self.now) ≡ upcoming) }
    {
        match self.stack.top() {
            Some(Frame::One(item)) => item_tells(item),
            _ => None,
        }
    }

    /// What comes next, told without a look at cells.
    #[inline(always)]
    pub fn upcoming(&self, code: &Code, view: View) -> Upcoming
        requires { IsMadeFor code.now self.now }
        ensures { result ≡ upcoming_of view (task_at code.now self.now) }
    {
        match self.front(code, view) {
            Some(item) => upcoming_item(code, item),
            None => Upcoming::End,
        }
    }
}

/// What comes next where this item stands next, if the item tells it by itself.
#[inline(always)]
fn item_tells(item: &Item) -> Option<Upcoming>
    ensures { (program : TreeView) → IfSome result (ItemTells program item.now) }
{
    match *item {
        Item::Sync { kind, stage, .. } => Some(Upcoming::Sync { kind, stage }),
        Item::Acquire { id, .. } => Some(Upcoming::Acquire(id)),
        Item::TestLock { id, .. } => Some(Upcoming::Test(id)),
        Item::Forked(_) => Some(Upcoming::RegionEnd),
        Item::EndWork { .. } | Item::EndMasked(_) | Item::Release { .. } => Some(Upcoming::Event),
        _ => None,
    }
}

/// What comes next where this item stands next.
#[inline(always)]
fn upcoming_item(code: &Code, item: Item) -> Upcoming
    requires { IsItem code.now item }
    ensures { result ≡ upcoming_item (item_at code.now item) }
{
    match item {
        Item::Forked(_) => Upcoming::RegionEnd,
        Item::Sync { kind, stage, .. } => Upcoming::Sync { kind, stage },
        Item::Acquire { id, .. } => Upcoming::Acquire(id),
        Item::TestLock { id, .. } => Upcoming::Test(id),
        other => {
            if is_event(code, other) {
                Upcoming::Event
            } else {
                Upcoming::Step
            }
        }
    }
}
