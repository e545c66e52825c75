//! What two tools register, and what they answer.

ghost use Rattle.std.specs.Prelude.{◌≡◌, ◌||◌, ℕ};
ghost use Rattle.ompt_calls.specs.Number.{is_registered};
ghost use Rattle.tool_api.specs.Record.{Record, initialized};
ghost use Rattle.tool_api.specs.Registering.{AreAlways, mask_of};
ghost use Rattle.tool_both.specs.Joined.{joint_answer, joint_mask};

use ompt_calls::is_registered;
use tool_api::{Registrar, ToolPart};

/// The registrations of two tools. In a mask bit n stands for the callback with number n in `ompt_callbacks_t`
/// (OpenMP 5.2, 19.4.2).
#[derive(Clone, Copy, PartialEq, Eq)]
pub struct Masks {
    /// What the first tool registered, or 0 where it is inactive.
    pub first: u64,
    /// What the second tool registered, or 0 where it is inactive.
    pub second: u64,
    /// What the first tool answered to `initialize`: with 0 it is inactive.
    pub first_answer: u32,
    /// What the second tool answered to `initialize`: with 0 it is inactive.
    pub second_answer: u32,
}

/// What one tool answered to `initialize`, and what it registered, or 0 where it is inactive.
#[derive(Clone, Copy)]
struct Registration {
    answer: u32,
    mask: u64,
}

impl Masks {
    /// Calls `initialize` once on each tool, the first one first, each with a registrar of its own. It takes no memory of its own.
    pub fn ask<A: ToolPart, B: ToolPart>(first: &mut A, second: &mut B) -> Masks
        ensures first { (registered : ℕ) × (result.first ≡ mask_of result.first_answer registered)
            × ((h : Record) → A.stands_for first.old h →
            A.stands_for first.new (initialized h result.first_answer registered)) }
        ensures second { (registered : ℕ) × (result.second ≡ mask_of result.second_answer registered)
            × ((h : Record) → B.stands_for second.old h →
            B.stands_for second.new (initialized h result.second_answer registered)) }
        ensures always { AreAlways result.first × AreAlways result.second }
        ensures kept { A.same first.old first.new × B.same second.old second.new }
    {
        let of_first = registration_of(first);
        let of_second = registration_of(second);
        Masks {
            first: of_first.mask,
            second: of_second.mask,
            first_answer: of_first.answer,
            second_answer: of_second.answer,
        }
    }

    /// What both tools answer together: 1 where one of them is active, else 0.
    pub(crate) fn answer(&self) -> u32
        ensures { result ≡ joint_answer self.now }
    {
        if self.first_answer == 0 && self.second_answer == 0 {
            0
        } else {
            1
        }
    }

    /// Registers what one of the tools has registered.
    pub(crate) fn register(&self, registrar: &mut Registrar)
        // Nothing is registered yet.
        requires nothing { registrar.old ≡ 0 }
        requires always { AreAlways self.now.first × AreAlways self.now.second }
        ensures { registrar.new ≡ joint_mask self.now }
    {
        let joint = self.first | self.second;
        for number in 0..u64::BITS {
            if is_registered(joint, number) {
                registrar.set(number);
            }
        }
    }
}

/// Calls `initialize` on the tool with a new registrar.
fn registration_of<T: ToolPart>(tool: &mut T) -> Registration
    ensures started { (registered : ℕ) × (result.mask ≡ mask_of result.answer registered)
        × ((h : Record) → T.stands_for tool.old h → T.stands_for tool.new (initialized h result.answer registered)) }
    ensures always { AreAlways result.mask }
    ensures kept { T.same tool.old tool.new }
{
    let mut registrar = Registrar::new();
    let answer = tool.initialize(&mut registrar);
    let mask = if answer == 0 { 0 } else { registrar.mask() };
    Registration { answer, mask }
}
