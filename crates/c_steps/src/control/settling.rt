//! What stands next stands first: frames that are over go, and so do the statements that a task goes past.

ghost use Rattle.std.specs.Prelude.{◌≡◌, [], IfNone, IfSome};
ghost use Rattle.c_model.specs.Step.{skips_masked, settled_task};
ghost use Rattle.c_steps.specs.ControlView.{task_at};
ghost use Rattle.c_steps.specs.Items.{item_at, todo_at};
ghost use Rattle.c_steps.specs.Ready.{AreFrames, IsFront, IsItem};

use crate::code::Code;
use crate::control::Control;
use crate::item::Item;
use crate::look::{Look, look_at};
use c_model::View;
use c_syntax::{Directive, NodeKind};

impl Control {
    /// What stands next, when what the task goes past is left out. `None` where nothing is left in the function.
    #[tactic(auto, using(crate::proofs::Settling::settled_tops_cases))]
    #[inline(always)]
    pub(crate) fn settle(&mut self, code: &Code, view: View) -> Option<Item>
        requires { AreFrames code.now self.old.frames }
        ensures task { task_at code.now self.new ≡ settled_task view (task_at code.now self.old) }
        ensures rest { self.new ≡ record self.old { frames = self.new.frames } }
        ensures frames { AreFrames code.now self.new.frames }
        ensures found { IfSome result (λ item. IsFront code.now self.new.frames item) }
        ensures none { IfNone result (todo_at code.now self.new.frames ≡ []) }
    {
        while let Some(frame) = self.stack.top() {
            match look_at(code, frame) {
                Look::Nothing => return None,
                Look::Over => self.drop_top(),
                Look::Instead(other) => self.replace_top(other),
                Look::Found(item) => {
                    if !skips_masked(code, item, view) {
                        return Some(item);
                    }
                    self.begin();
                }
            }
        }
        None
    }
}

/// Whether a task goes past an item without a step: a member of a team other than member 0 past a `masked` construct.
#[inline(always)]
pub(super) fn skips_masked(code: &Code, item: Item, view: View) -> bool
    requires { IsItem code.now item }
    ensures { result ≡ skips_masked (item_at code.now item) view }
{
    match item {
        Item::Start(part) => match code.kind(part) {
            NodeKind::Construct(Directive::Masked | Directive::Master) => view.index != 0,
            _ => false,
        },
        _ => false,
    }
}
