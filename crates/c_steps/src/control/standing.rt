//! What stands next, told without a change.

ghost use Rattle.std.specs.Prelude.{◌≡◌, ◌∷◌, [], reverse, slice_get, IfSome, MatchOption};
ghost use Rattle.std.specs.Option.{option_map};
ghost use Rattle.c_syntax.specs.language.Tree.{kind_of};
ghost use Rattle.c_model.specs.Step as steps;
ghost use Rattle.c_steps.specs.ControlView.{task_at};
ghost use Rattle.c_steps.specs.Items.{item_at, todo_at};
ghost use Rattle.c_steps.specs.OfProgram.{IsMadeFor};
ghost use Rattle.c_steps.specs.Nodes.{IsPart, part_at};
ghost use Rattle.c_steps.specs.Ready.{AreFrames, IsItem};
ghost use Rattle.c_steps.specs.FrontFrame.{above};

use crate::code::Code;
use crate::control::Control;
use crate::control::settling::skips_masked;
use crate::frame::Frame;
use crate::item::Item;
use crate::look::{Look, look_at};
use c_model::View;
use c_syntax::{Directive, NodeKind};

impl Control {
    /// Whether an event, or the end, stands next. Then no silent step does, and nothing is asked.
    pub fn stands(&self, code: &Code, view: View) -> bool
        requires { IsMadeFor code.now self.now }
        ensures { result ≡ steps.stands view (task_at code.now self.now) }
    {
        match self.front(code, view) {
            Some(item) => is_event(code, item),
            None => true,
        }
    }

    /// What stands next, when what the task goes past is left out.
    #[tactic(auto, using(crate::proofs::Standing::left_cases))]
    #[inline(always)]
    pub(super) fn front(&self, code: &Code, view: View) -> Option<Item>
        requires { AreFrames code.now self.now.frames }
        ensures first { slice_get (steps.items_from_next view (todo_at code.now self.now.frames)) 0 ≡
            option_map (item_at code.now) result }
        ensures item { IfSome result (IsItem code.now) }
    {
        let (mut shown, mut below) = (None, self.stack.items());
        while let Some((frame, rest)) = first_frame(shown, below) {
            below = rest;
            match look_at(code, &frame) {
                Look::Nothing => return None,
                Look::Over => shown = None,
                Look::Instead(other) => shown = Some(other),
                Look::Found(item) => {
                    if !skips_masked(code, item, view) {
                        return Some(item);
                    }
                    shown = frame.begun();
                }
            }
        }
        None
    }
}

/// The first of the frames that are left: the one that is shown in place of others, and those below it, the first of which is the last.
#[inline(always)]
fn first_frame(shown: Option<Frame>, below: &[Frame]) -> Option<(Frame, &[Frame])>
    ensures { MatchOption result (above shown (reverse below.now) ≡ []) (λ first.
        above shown (reverse below.now) ≡ first.0 ∷ reverse first.1.now) }
{
    match shown {
        Some(frame) => Some((frame, below)),
        None => {
            let (frame, rest) = below.split_last()?;
            Some((*frame, rest))
        }
    }
}

/// Whether an item is an event by its form.
#[inline(always)]
pub(super) fn is_event(code: &Code, item: Item) -> bool
    requires { IsItem code.now item }
    ensures { result ≡ steps.is_event (item_at code.now item) }
{
    match item {
        Item::Start(part) => is_event_statement(code, part),
        Item::Initialise { node, .. } => is_test(code.kind(code.child(Some(node), 0))),
        Item::Inside(node) => matches!(
            code.kind(Some(node)),
            NodeKind::Construct(Directive::ParallelFor | Directive::ParallelSections)
        ),
        Item::Forked(_)
        | Item::EndWork { .. }
        | Item::EndMasked(_)
        | Item::Sync { .. }
        | Item::Acquire { .. }
        | Item::Release { .. } => true,
        _ => false,
    }
}

/// Whether a statement is an event by its form.
#[inline(always)]
fn is_event_statement(code: &Code, part: Option<u32>) -> bool
    requires { IsPart code.now.trees part }
    ensures { result ≡ steps.is_event_statement (kind_of (part_at code.now.trees part)) (part_at code.now.trees part) }
{
    match code.kind(part) {
        NodeKind::SetCall => is_test(code.kind(code.child(part, 1))),
        NodeKind::Called | NodeKind::Return => is_test(code.kind(code.child(part, 0))),
        NodeKind::LockCall(_) | NodeKind::Standalone(_) | NodeKind::Construct(_) => true,
        _ => false,
    }
}

/// Whether a call tests a lock.
#[inline(always)]
fn is_test(kind: NodeKind) -> bool
    ensures { result ≡ steps.is_test kind }
{
    matches!(kind, NodeKind::TestLock)
}
