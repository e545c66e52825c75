//! Where the code of a task begins.

ghost use Rattle.std.specs.Prelude.{◌≡◌, ◌+◌, ◌*◌, IfOk, OnErr, OnOk};
ghost use Rattle.c_model.specs.Begin.{main_task};
ghost use Rattle.c_steps.specs.ControlView.{task_at};
ghost use Rattle.c_steps.specs.OfProgram.{IsBlank, IsMadeFor, blank_held};
ghost use Rattle.c_steps.specs.Moves.{cleared, roomy};
ghost use Rattle.c_steps.specs.declared.control.begin.TheConstants.{STEPS};

use crate::code::Code;
use crate::control::Control;
use crate::item::Item;
use crate::stack::Stack;
use c_model::Target;
use kept_room::Roomy;
use std::alloc::{AllocError, Global};

/// For how many silent steps [`Control::reserve`] makes room: the 64 of a turn, one that only asks, and one to look at
/// what stands next.
const STEPS: usize = 66;

impl Control {
    /// The initial task's code: main's body, with the names of the file.
    pub fn main(alloc: Global, code: &Code) -> Result<Control, AllocError>
        ensures task { IfOk result (λ control. task_at code.now control ≡ main_task code.now) }
        ensures made { IfOk result (IsMadeFor code.now) }
    {
        let mut control = Control::blank(alloc, code)?;
        control.open_main(code);
        Ok(control)
    }

    /// Main's body stands next, in a call from outside all functions.
    #[tactic(auto, using(crate::proofs::Beginning::main_stands, crate::proofs::Beginning::made_main))]
    fn open_main(&mut self, code: &Code)
        requires { self.old ≡ blank_held code.now }
        ensures task { task_at code.now self.new ≡ main_task code.now }
        ensures made { IsMadeFor code.now self.new }
    {
        let body = code.child(code.function(code.tree().main()), 2);
        self.open(Target::Nowhere);
        self.then(Item::FallOff);
        self.then(Item::Start(body));
    }

    /// No code: what stands there before a member's or an explicit task's code begins. It has room for the names of all code of the program.
    #[tactic(auto, using(crate::proofs::Beginning::made_blank))]
    pub fn blank(alloc: Global, code: &Code) -> Result<Control, AllocError>
        ensures held { IfOk result (λ control. control ≡ blank_held code.now) }
        ensures blank { IfOk result IsBlank }
        ensures made { IfOk result (IsMadeFor code.now) }
    {
        let stack = Stack::new(alloc)?;
        let mut names = Roomy::new(alloc);
        let room = code.width();
        names.reserve(room)?;
        Ok(Control {
            stack,
            names,
            base: 0,
            returned: None,
            spare: 0,
            passes: 0,
            frames_now: 4,
            names_now: 0,
            step_names: code.step_names(),
            room,
            open_calls: 0,
        })
    }

    /// No code is left, so that the code of another task can begin. It takes no memory.
    #[tactic(auto, using(crate::proofs::Beginning::made_cleared))]
    pub fn clear(&mut self, code: &Code)
        requires made { IsMadeFor code.now self.old }
        ensures held { self.new ≡ cleared self.old }
        ensures blank { IsBlank self.new }
        ensures made { IsMadeFor code.now self.new }
    {
        self.empty();
    }

    /// No code is left.
    pub(super) fn empty(&mut self)
        ensures { self.new ≡ cleared self.old }
    {
        self.stack.clear();
        self.names.truncate(0);
        self.base = 0;
        self.returned = None;
        self.spare = 0;
        self.passes = 0;
        self.frames_now = 4;
        self.names_now = 0;
        self.open_calls = 0;
    }

    /// Makes room for the 64 silent steps of a turn, one that only asks, a look at what stands next, and an event. Without memory nothing
    /// changes.
    #[tactic(auto, using(crate::proofs::Beginning::made_roomy))]
    pub fn reserve(&mut self, code: &Code) -> Result<(), AllocError>
        requires made { IsMadeFor code.now self.old }
        ensures room { OnOk result (self.new ≡ roomy self.old) }
        ensures memory { OnErr result (self.new ≡ self.old) }
        ensures made { IsMadeFor code.now self.new }
    {
        let names = self.step_names.checked_mul(STEPS).ok_or(AllocError)?;
        let names = names.checked_add(1).ok_or(AllocError)?;
        self.stack.reserve(3 * STEPS + 3)?;
        self.names.reserve(names)?;
        self.spare = STEPS;
        self.passes = 1;
        self.frames_now = 0;
        self.names_now = 0;
        Ok(())
    }
}
