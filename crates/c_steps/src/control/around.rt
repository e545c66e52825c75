//! In which regions of constructs a task is.

ghost use Rattle.std.specs.Prelude.{◌≡◌};
ghost use Rattle.c_model.specs.Upcoming.{has_such, is_in_critical, is_in_exclusive, is_in_work};
ghost use Rattle.c_steps.specs.Around.{frame_has, is_such, item_is};
ghost use Rattle.c_steps.specs.ControlView.{task_at};

use crate::code::Code;
use crate::control::Control;
use crate::frame::Frame;
use crate::item::Item;

/// Regions of constructs.
#[derive(Clone, Copy)]
enum Around {
    /// Of worksharing constructs.
    Work,
    /// Of worksharing, masked and critical constructs.
    Exclusive,
    /// Of criticals with this wait identifier.
    Critical(u32),
}

impl Control {
    /// Whether the task is in a region of a worksharing construct, in the function that was called last or in one that is to go on.
    pub fn is_in_work(&self, code: &Code) -> bool
        ensures { result ≡ is_in_work (task_at code.now self.now) }
    {
        self.is_around(code, Around::Work)
    }

    /// Whether the task is in a region of a worksharing, masked or critical construct, in the function that was called last or in one that is to
    /// go on.
    pub fn is_in_exclusive(&self, code: &Code) -> bool
        ensures { result ≡ is_in_exclusive (task_at code.now self.now) }
    {
        self.is_around(code, Around::Exclusive)
    }

    /// Whether the task is in the region of a critical with this wait identifier, in the function that was called last or in one that is to go on.
    pub fn is_in_critical(&self, code: &Code, wait_id: u32) -> bool
        ensures { result ≡ is_in_critical (task_at code.now self.now) wait_id }
    {
        self.is_around(code, Around::Critical(wait_id))
    }

    /// Whether the task is in such a region.
    #[tactic(auto, using(crate::proofs::Around::around_cases))]
    fn is_around(&self, code: &Code, around: Around) -> bool
        ensures { result ≡ has_such (is_such around) (task_at code.now self.now) }
    {
        let mut below = self.stack.items();
        while let Some((frame, rest)) = below.split_last() {
            if frame_has(*frame, around) {
                return true;
            }
            below = rest;
        }
        false
    }
}

/// Whether a frame stands for such a region.
fn frame_has(frame: Frame, around: Around) -> bool
    ensures { result ≡ frame_has around frame }
{
    match frame {
        Frame::One(item) => item_is(item, around),
        _ => false,
    }
}

/// Whether an item stands for such a region.
fn item_is(item: Item, around: Around) -> bool
    ensures { result ≡ item_is around item }
{
    match item {
        Item::NextChunk(_)
        | Item::Iterations { .. }
        | Item::NextSection { .. }
        | Item::EndWork { .. } => matches!(around, Around::Work | Around::Exclusive),
        Item::EndMasked(_) => matches!(around, Around::Exclusive),
        Item::Release { id, .. } => match around {
            Around::Work => false,
            Around::Exclusive => true,
            Around::Critical(wait_id) => id == wait_id,
        },
        _ => false,
    }
}
