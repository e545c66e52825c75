//! Two tools as one part.

ghost use Rattle.tool_api.specs.Registering.{AreAlways};

use crate::joined_reply::{NOTHING, joined};
use crate::masks::Masks;
use ompt_calls::{Call, Snapshot, is_registered};
use std::alloc::AllocError;
use tool_api::{Registrar, Response, ToolPart};

/// Two tools as one part. Each is told of the events that it has registered, and of no other one.
#[derive(Drop)]
pub struct Both<A, B> {
    first: A,
    second: B,
    /// What each registered, and what it answered.
    masks: Masks,
    /// No event was told to the first tool alone.
    whole: bool,
    ghost always: { AreAlways masks.first × AreAlways masks.second },
}

impl<A: ToolPart, B: ToolPart> Both<A, B> {
    ghost use Rattle.std.specs.Prelude.{Bool};
    ghost use Rattle.tool_api.specs.Record.{Record};
    ghost use Rattle.tool_both.specs.declared.masks.Masks.{Masks};
    ghost use Rattle.tool_both.specs.Joined.{Joins, BothFor};
    ghost use Rattle.tool_both.specs.Tools.{IsUnheard, HasTools, fresh_both};

    /// Two tools that are started already, with their registrations as [`Masks::ask`] gives them. It takes no memory.
    pub fn new(first: A, second: B, masks: Masks) -> Both<A, B>
        requires always { AreAlways masks.first × AreAlways masks.second }
        ensures stands { (g h : Record) → A.stands_for first g → B.stands_for second h → IsUnheard g → IsUnheard h →
            ⟦<Both<A, B> as ToolPart>⟧.stands_for result (fresh_both masks g h) }
        ensures tools { HasTools result first second }
    {
        Both {
            first,
            second,
            masks,
            whole: true,
        }
    }

    /// The first tool and the second one.
    pub fn split(self) -> (A, B)
        ensures stands { (h : Record) → ⟦<Both<A, B> as ToolPart>⟧.stands_for self h →
            (masks : Masks) × (whole : Bool) × BothFor A.stands_for B.stands_for result.0 result.1 masks whole h }
        ensures tools { HasTools self result.0 result.1 }
    {
        (self.first, self.second)
    }

    /// Whether no event was told to the first tool alone: it is false after a callback in which the first tool heard of the event and the
    /// second one found no memory.
    pub fn whole(&self) -> bool
        ensures { (h : Record) → ⟦<Both<A, B> as ToolPart>⟧.stands_for self.now h →
            (masks : Masks) × (first : Record) × (second : Record) × Joins masks result first second h }
    {
        self.whole
    }
}

impl<A: ToolPart, B: ToolPart> ToolPart for Both<A, B> {
    ghost use Rattle.tool_both.specs.Joined.{BothFor};

    ghost stands_for = { λ both h. BothFor A.stands_for B.stands_for both.first both.second both.masks both.whole h };

    ghost same = { λ both other. A.same both.first other.first × B.same both.second other.second };

    ghost same_itself = { λ both. (A.same_itself both.first, B.same_itself both.second) };

    ghost same_onward = { λ first second third one other. (
      A.same_onward first.first second.first third.first one.0 other.0,
      B.same_onward first.second second.second third.second one.1 other.1,
    ) };

    fn initialize(&mut self, registrar: &mut Registrar) -> u32 {
        self.masks.register(registrar);
        self.masks.answer()
    }

    fn callback(&mut self, seq: u32, thread: u8, call: &Call, snapshot: &Snapshot) -> Response {
        if !self.whole {
            return Err(AllocError);
        }
        let number = call.number();
        let first_hears = is_registered(self.masks.first, number);
        let second_hears = is_registered(self.masks.second, number);
        match (first_hears, second_hears) {
            (false, false) => Ok(NOTHING),
            (true, false) => {
                let first = self.first.callback(seq, thread, call, snapshot)?;
                Ok(joined(first, NOTHING, snapshot))
            }
            (false, true) => {
                let second = self.second.callback(seq, thread, call, snapshot)?;
                Ok(joined(NOTHING, second, snapshot))
            }
            (true, true) => {
                let first = self.first.callback(seq, thread, call, snapshot)?;
                let second = self.second.callback(seq, thread, call, snapshot);
                self.whole = second.is_ok();
                Ok(joined(first, second?, snapshot))
            }
        }
    }

    fn finalize(&mut self) {
        if self.masks.first_answer != 0 {
            self.first.finalize();
        }
        if self.masks.second_answer != 0 {
            self.second.finalize();
        }
    }
}
