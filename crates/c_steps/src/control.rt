//! What is left of a task's code.

ghost use Rattle.std.specs.Prelude.{◌≡◌, ◌<◌, ◌≤◌, ◌+◌, ◌-◌, drop, length, slice_set};
ghost use Rattle.c_steps.specs.Items.{begun};
ghost use Rattle.c_steps.specs.Ready.{CanBegin, IsPlain};
ghost use Rattle.std.specs.Option.{option_map};
ghost use Rattle.c_model.specs.declared.limits.TheConstants.{CALL_LIMIT};
ghost use Rattle.c_steps.specs.Rooming.{IsEntry, open_calls};
ghost use Rattle.c_steps.specs.Moves.{bound, closed, cut, ended, last_call, opened, passing, pushed, stepping, then_if, then_item};

mod advance;
mod around;
mod asked;
mod begin;
mod calls;
mod declaring;
mod entering;
mod evaluating;
mod events;
mod explicit_task;
mod giving;
mod iterations;
mod member;
mod own_cells;
mod passing;
mod prints;
mod settling;
mod standing;
mod statement;
mod statements;
mod steps;
mod trying;
mod upcoming;

use crate::frame::Frame;
use crate::item::Item;
use crate::stack::Stack;
use c_model::{Entry, Target};
use kept_room::Roomy;
use std::marker::Model;

/// What is left of a task's code: what stands next, the names in scope, the calls that are open. Contracts see, by the numbers of nodes, what
/// of a program stands next, and for how many silent steps and events there is room.
#[derive(Drop)]
pub struct Control {
    stack: Stack<Frame>,
    names: Roomy<Entry>,
    /// Where the names of the function that was called last begin.
    base: usize,
    /// What the last call that ended gave.
    returned: Option<i32>,
    /// For how many silent steps there is room.
    spare: usize,
    /// For how many events there is room.
    passes: usize,
    /// How many frames and names the step that is under way may add.
    frames_now: usize,
    names_now: usize,
    /// How many names a step may bring.
    step_names: usize,
    /// How many names fit in all.
    room: usize,
    /// How many calls are open.
    open_calls: usize,
}

impl Model for Control {
    ghost use Rattle.c_steps.specs.ControlView.{ControlView};
    ghost use Rattle.c_steps.specs.Rooming.{HasRoomFor};

    ghost Value = { ControlView };

    ghost view = { λ control. record {
      frames = control.stack.frames;
      names = control.names.list;
      base = control.base;
      returned = control.returned;
      spare = control.spare;
      passes = control.passes;
      frames_now = control.frames_now;
      names_now = control.names_now;
      step_names = control.step_names;
      room = control.room;
    } };

    ghost invariant = { λ control. HasRoomFor control.stack.free control.names.free control.open_calls (record {
      frames = control.stack.frames;
      names = control.names.list;
      base = control.base;
      returned = control.returned;
      spare = control.spare;
      passes = control.passes;
      frames_now = control.frames_now;
      names_now = control.names_now;
      step_names = control.step_names;
      room = control.room;
    }) };
}

impl Control {
    /// What the last call that ended gave, if it gave something. At the end of main's code it is what main returned.
    pub fn returned(&self) -> Option<i32>
        ensures { result ≡ self.now.returned }
    {
        self.returned
    }

    /// The item that stands next begins.
    #[tactic(auto, using(crate::proofs::Showing::begun_calls))]
    #[inline(always)]
    fn begin(&mut self)
        requires { CanBegin self.old.frames }
        ensures { self.new ≡ record self.old { frames = begun self.old.frames } }
    {
        if !self.stack.begin() {
            self.drop_top();
        }
    }

    /// A silent step begins, with the item that stands next.
    #[inline(always)]
    fn step(&mut self)
        requires begin { CanBegin self.old.frames }
        requires spare { 0 < self.old.spare }
        ensures { self.new ≡ stepping self.old }
    {
        self.begin();
        self.spare -= 1;
        self.frames_now = 3;
        self.names_now = self.step_names;
    }

    /// An event is passed.
    fn pass(&mut self)
        requires begin { CanBegin self.old.frames }
        requires passes { 0 < self.old.passes }
        ensures { self.new ≡ passing self.old }
    {
        self.begin();
        self.passes -= 1;
        self.frames_now = 3;
        self.names_now = 1;
    }

    /// A frame more, which is no call.
    #[tactic(auto, using(crate::proofs::Frames::plain_count))]
    #[inline(always)]
    fn push(&mut self, frame: Frame)
        requires room { 0 < self.old.frames_now }
        requires plain { IsPlain frame }
        ensures { self.new ≡ pushed frame self.old }
    {
        self.frames_now -= 1;
        self.stack.push(frame);
    }

    /// An item more stands next.
    #[inline(always)]
    fn then(&mut self, item: Item)
        requires { 0 < self.old.frames_now }
        ensures { self.new ≡ then_item item self.old }
    {
        self.push(Frame::One(item));
    }

    /// An item more stands next, if there is one.
    #[inline(always)]
    fn then_if(&mut self, item: Option<Item>)
        requires { 0 < self.old.frames_now }
        ensures { self.new ≡ then_if item self.old }
    {
        if let Some(item) = item {
            self.then(item);
        }
    }

    /// A name more is in scope.
    #[inline(always)]
    fn bind(&mut self, entry: Entry)
        requires room { 0 < self.old.names_now }
        requires entry { IsEntry entry }
        ensures held { self.new ≡ bound entry self.old }
        ensures base { self.old.base ≤ length self.old.names }
    {
        self.names_now -= 1;
        self.names.push(entry);
    }

    /// So many names of the function that was called last stay in scope.
    #[inline(always)]
    fn cut(&mut self, count: usize)
        ensures { self.new ≡ cut count self.old }
    {
        let own = self.names.len() - self.base;
        self.names.truncate(self.base + count.min(own));
    }

    /// A call is opened, whose value goes there.
    #[tactic(auto, using(crate::proofs::Frames::caller_count))]
    #[inline(always)]
    fn open(&mut self, to: Target)
        requires room { 0 < self.old.frames_now }
        requires few { open_calls self.old.frames < CALL_LIMIT }
        ensures { self.new ≡ opened to self.old }
    {
        let base = self.base;
        self.frames_now -= 1;
        self.open_calls += 1;
        self.stack.push(Frame::Caller { base, to });
        self.base = self.names.len();
    }

    /// The call that was opened last is closed, if one is open. Its value goes to what is given.
    #[tactic(auto, using(crate::proofs::Frames::tops_cases))]
    fn close(&mut self) -> Option<Target>
        ensures closed { self.new ≡ closed self.old }
        ensures to { result ≡ option_map (λ call. call.1) (last_call self.old.frames) }
    {
        while let Some(frame) = self.stack.top() {
            match *frame {
                Frame::Caller { base, to } => {
                    self.end_call(base);
                    return Some(to);
                }
                _ => self.drop_top(),
            }
        }
        None
    }

    /// The frame on top goes, which is no call.
    #[inline(always)]
    fn drop_top(&mut self)
        requires { open_calls (drop 1 self.old.frames) ≡ open_calls self.old.frames }
        ensures { self.new ≡ record self.old { frames = drop 1 self.old.frames } }
    {
        self.stack.pop();
    }

    /// Another frame stands in place of the one on top. Neither is a call.
    #[inline(always)]
    fn replace_top(&mut self, frame: Frame)
        requires { open_calls (slice_set self.old.frames 0 frame) ≡ open_calls self.old.frames }
        ensures { self.new ≡ record self.old { frames = slice_set self.old.frames 0 frame } }
    {
        self.stack.replace(frame);
    }

    /// The frame on top goes, which is a call. The names of the function that called begin there.
    #[inline(always)]
    fn end_call(&mut self, base: usize)
        requires { open_calls self.old.frames ≡ open_calls (drop 1 self.old.frames) + 1 }
        ensures { self.new ≡ ended base self.old }
    {
        self.stack.pop();
        self.open_calls -= 1;
        self.names.truncate(self.base);
        self.base = base.min(self.names.len());
    }
}
