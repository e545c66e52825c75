//! A silent step of C's own statements, made without a look at what else may stand next.

ghost use Rattle.std.specs.Prelude.{◌<◌, ◌≤◌, IfSome};
ghost use Rattle.c_model.specs.Step.{step_of};
ghost use Rattle.c_steps.specs.ControlView.{here_at};
ghost use Rattle.c_steps.specs.Items.{item_at};
ghost use Rattle.c_steps.specs.OfProgram.{IsMadeFor};
ghost use Rattle.c_steps.specs.Ready.{AreFrames, IsFront, IsItem};
ghost use Rattle.c_steps.specs.Views.{HasNumbers};
ghost use Rattle.c_steps.specs.Steps.{CanStep};
ghost use Rattle.c_steps.specs.Trying.{HaveStepsMade, IsAttempt, IsSameBy, IsTried, item_of};

use crate::cells::Cells;
use crate::code::Code;
use crate::control::Control;
use crate::control::statement::is_own;
use crate::look::{Plain, Shown, plain_look};
use crate::node::Node;
use c_model::View;

// What makes a large value, as an item or a `Next`, is never inlined here: a function pays at entry for all that it may make.
impl Control {
    /// Makes silent steps of C's own statements one after another, at most so many, and answers how many it made. `advance` tells what stands
    /// next then. It takes no memory.
    #[inline(never)]
    #[tactic(auto, using(crate::proofs::Repeated::made_cases))]
    pub fn try_steps(&mut self, code: &Code, cells: &mut Cells, view: View, most: u32) -> u32
        requires made { IsMadeFor code.now self.old }
        requires view { HasNumbers view }
        requires spare { most ≤ self.old.spare }
        ensures tried { HaveStepsMade code.now view result self.old cells.old self.new cells.new }
        ensures most { result ≤ most }
        ensures made { IsMadeFor code.now self.new }
    {
        for made in 0..most {
            if !self.try_step(code, cells, view) {
                return made;
            }
        }
        most
    }

    /// May make the silent step that stands next, where it is one of C's own statements. Otherwise nothing is done.
    #[inline(always)]
    fn try_step(&mut self, code: &Code, cells: &mut Cells, view: View) -> bool
        requires made { IsMadeFor code.now self.old }
        requires view { HasNumbers view }
        requires spare { 0 < self.old.spare }
        ensures tried { IsTried code.now view result self.old cells.old self.new cells.new }
        ensures made { IsMadeFor code.now self.new }
    {
        match self.plain_front(code) {
            Some(plain) => self.try_plain(code, cells, view, plain),
            None => false,
        }
    }

    /// What stands next, where it is plain. Then it stands first.
    #[tactic(auto, using(crate::proofs::Showing::shown_cases))]
    #[inline(always)]
    fn plain_front(&mut self, code: &Code) -> Option<Plain>
        requires { AreFrames code.now self.old.frames }
        ensures same { IsSameBy code.now self.old self.new }
        ensures found { IfSome result (λ plain. IsFront code.now self.new.frames (item_of plain)) }
    {
        while let Some(frame) = self.stack.top() {
            match plain_look(code, frame)? {
                Shown::Next(plain) => return Some(plain),
                Shown::Instead(other) => self.replace_top(other),
            }
        }
        None
    }

    /// The step of what stands next.
    #[tactic(auto, using(crate::proofs::Trying::attempt_of))]
    #[inline(always)]
    fn try_plain(&mut self, code: &Code, cells: &mut Cells, view: View, plain: Plain) -> bool
        requires ready { CanStep code.now view self.old }
        requires item { IsItem code.now (item_of plain) }
        ensures { IsAttempt code.now result self.old cells.old self.new cells.new
            (step_of (item_at code.now (item_of plain)) (here_at code.now view self.old cells.old)) }
    {
        match plain {
            Plain::Start(number) => {
                let node = Node { code, number };
                if !is_own(node.kind()) {
                    return false;
                }
                self.make_statement(cells, view, node).is_ok()
            }
            Plain::Declare(number) => self.declare(cells, view, Node { code, number }).is_ok(),
            Plain::Leave(names) => self.leave_block(code, cells, view, names).is_ok(),
            Plain::Test { node, names } => {
                self.test_for(cells, view, Node { code, number: node }, names)
                    .is_ok()
            }
            Plain::Third { node, names } => {
                self.third_for(cells, view, Node { code, number: node }, names)
                    .is_ok()
            }
            Plain::Return(number) => self.returns(code, cells, view, number).is_ok(),
            Plain::FallOff => self.returns(code, cells, view, 0).is_ok(),
        }
    }
}
