//! A stack with room kept for more.

ghost use Rattle.std.specs.Prelude.{◌≡◌, ◌+◌, ◌<◌, ◌≤◌, [], ◌∷◌, drop, length, max, reverse, slice_get, slice_set, IfOk, OnErr, OnOk};
ghost use Rattle.std.specs.Option.{option_map};
ghost use Rattle.c_steps.specs.declared.stack.TheConstants.{LEAST_ROOM};
ghost use Rattle.c_steps.specs.Ready.{CanBegin};
ghost use Rattle.c_steps.specs.Trying.{IsBegun};

use crate::frame::Frame;
use std::alloc::{AllocError, Global};
use std::marker::Model;

/// How many are taken without memory from the first on.
pub(crate) const LEAST_ROOM: usize = 4;

/// Where a stack grows it gets room for so many more than are asked for, so that a few that stay on it don't make it grow again.
const SLACK: usize = 32;

/// A stack, with room kept for more. Contracts see the list of what is on it, the top first, and how many more are taken without memory.
#[derive(Drop)]
pub(crate) struct Stack<T: Copy + Drop> {
    items: Vec<T>,
    /// So many more are taken without memory.
    free: usize,
}

impl<T: Copy + Drop> Model for Stack<T> {
    ghost use Rattle.std.specs.Prelude.{◌+◌, ◌≤◌, reverse, vec_len, vec_capacity};
    ghost use Rattle.c_steps.specs.Rooms.{Stacked};
    ghost use Rattle.c_steps.specs.declared.stack.TheConstants.{LEAST_ROOM};

    ghost Value = { Stacked T };

    ghost view = { λ stack. record { frames = reverse stack.items.items; free = stack.free } };

    ghost invariant = { λ stack. (vec_len stack.items + stack.free ≤ vec_capacity stack.items) ×
        (LEAST_ROOM ≤ vec_len stack.items + stack.free) };
}

impl<T: Copy + Drop> Stack<T> {
    /// An empty stack, with room for the first.
    pub(crate) fn new(alloc: Global) -> Result<Stack<T>, AllocError>
        ensures { IfOk result (λ stack. stack ≡ record { frames = []; free = LEAST_ROOM }) }
    {
        Ok(Stack {
            items: Vec::with_capacity(alloc, LEAST_ROOM)?,
            free: LEAST_ROOM,
        })
    }

    /// What is on top.
    #[inline(always)]
    pub(crate) fn top(&self) -> Option<&T>
        ensures { option_map (λ top. top.now) result ≡ slice_get self.now.frames 0 }
    {
        self.items.last()
    }

    /// All that is on it, the top last.
    #[inline(always)]
    pub(crate) fn items(&self) -> &[T]
        ensures { result.now ≡ reverse self.now.frames }
    {
        &self.items
    }

    /// It comes on top.
    #[inline(always)]
    pub(crate) fn push(&mut self, frame: T)
        requires { 0 < self.old.free }
        ensures frames { self.new.frames ≡ frame ∷ self.old.frames }
        ensures free { self.new.free + 1 ≡ self.old.free }
    {
        self.free -= 1;
        self.items.push_reserved(frame);
    }

    /// What is on top goes, and leaves its room.
    #[inline(always)]
    pub(crate) fn pop(&mut self) -> Option<T>
        ensures top { result ≡ slice_get self.old.frames 0 }
        ensures frames { self.new.frames ≡ drop 1 self.old.frames }
        ensures free { self.new.free + length self.new.frames ≡ self.old.free + length self.old.frames }
    {
        let top = self.items.pop()?;
        self.free += 1;
        Some(top)
    }

    /// It stands in place of what was on top, if anything was.
    #[inline(always)]
    pub(crate) fn replace(&mut self, frame: T)
        ensures { self.new ≡ record self.old { frames = slice_set self.old.frames 0 frame } }
    {
        let Some(_) = self.items.pop() else {
            return;
        };
        self.items.push_reserved(frame);
    }

    /// Nothing is left on it.
    pub(crate) fn clear(&mut self)
        ensures frames { self.new.frames ≡ [] }
        ensures free { self.new.free ≡ self.old.free + length self.old.frames }
        ensures least { LEAST_ROOM ≤ self.new.free }
    {
        self.free += self.items.len();
        self.items.clear();
    }

    /// Makes room for at least so many more. Without memory nothing changes.
    pub(crate) fn reserve(&mut self, room: usize) -> Result<(), AllocError>
        ensures room { OnOk result (self.new ≡ record self.old { free = max self.old.free room }) }
        ensures memory { OnErr result (self.new ≡ self.old) }
    {
        if self.items.capacity() - self.items.len() < room {
            self.items.reserve(room.saturating_add(SLACK))?;
        }
        self.free = self.free.max(room);
        Ok(())
    }
}

impl Stack<Frame> {
    /// The item begins that stands next. Answers whether its frame stays.
    #[inline(always)]
    pub(crate) fn begin(&mut self) -> bool
        requires { CanBegin self.old.frames }
        ensures { IsBegun self.old result self.new }
    {
        let Some(frame) = self.items.last_mut() else {
            return true;
        };
        frame.begin()
    }
}
