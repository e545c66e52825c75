//! Calls and returns, and the calls of lock routines.

ghost use Rattle.std.specs.Prelude.{◌≡◌, ◌<◌, ◌+◌, Some, Err};
ghost use Rattle.c_syntax.specs.language.Tree.{kind_of, name_of};
ghost use Rattle.c_check.specs.Loops.{child_at};
ghost use Rattle.c_model.specs.declared.limits.TheConstants.{LOCK_UNIT};
ghost use Rattle.c_model.specs.Calls as calls;
ghost use Rattle.c_model.specs.Cells.{entry_of};
ghost use Rattle.c_model.specs.Parts.{parts};
ghost use Rattle.c_model.specs.Value.{all_values};
ghost use Rattle.c_steps.specs.Arguments.{without_values};
ghost use Rattle.c_steps.specs.ControlView.{env_at, here_at, next_of, scope_in};
ghost use Rattle.c_steps.specs.Forms.{MakesBy, TellsBy};
ghost use Rattle.c_steps.specs.Entering.{IsCall};
ghost use Rattle.c_steps.specs.Moves.{cells_given, closed, delivered, env_with, given_back, last_call};
ghost use Rattle.c_steps.specs.NodeTrees.{tree_of};
ghost use Rattle.c_steps.specs.Nodes.{IsPart, part_at};
ghost use Rattle.c_steps.specs.Ready.{IsStepping};
ghost use Rattle.c_steps.specs.Rooming.{IsEntry};
ghost use Rattle.c_steps.specs.Views.{HasNumbers};
ghost use Rattle.c_steps.specs.Steps.{CanStep, Makes};

use crate::cells::Cells;
use crate::code::Code;
use crate::control::Control;
use crate::item::Item;
use crate::next::{Made, Next, Refusal};
use crate::node::Node;
use crate::parts::part_count;
use c_model::{CALL_LIMIT, CALLS, CELLS, Entry, LOCK_UNIT, MutexKind, Point, Target, View};
use c_syntax::{LockCall, NodeKind};

/// A call that begins.
#[derive(Clone, Copy)]
pub(crate) struct Call {
    /// Its node. One that is missing has neither function nor arguments.
    pub(super) part: Option<u32>,
    /// The variable of a declarator that comes into scope behind the call.
    pub(super) declared: Option<Entry>,
    /// Where its value goes.
    pub(super) to: Target,
}

impl Control {
    /// A call that is a statement.
    #[inline(always)]
    pub(super) fn begin_called(&mut self, cells: &mut Cells, view: View, node: Node) -> Made
        requires { CanStep node.code.now view self.old }
        ensures { MakesBy calls.begin_called node.entry view result self.old cells.old self.new cells.new }
    {
        let call = Call {
            part: node.child(0),
            declared: None,
            to: Target::Nowhere,
        };
        self.begin_right(node.code, cells, view, call)
    }

    /// An assignment of a call: first the cell, and then the call.
    #[inline(always)]
    pub(super) fn begin_set_call(&mut self, cells: &mut Cells, view: View, node: Node) -> Made
        requires { CanStep node.code.now view self.old }
        ensures { MakesBy calls.begin_set_call node.entry view result self.old cells.old self.new cells.new }
    {
        let code = node.code;
        match self.place_cell(code, cells, view, node.child(0)) {
            Err(trap) => Err(Refusal::Trap(trap)),
            Ok(cell) => {
                let call = Call {
                    part: node.child(1),
                    declared: None,
                    to: Target::Cell(cell as u32),
                };
                self.begin_right(code, cells, view, call)
            }
        }
    }

    /// The call of a declarator whose cell was made. Its variable comes into scope behind it.
    #[inline(never)]
    pub(super) fn begin_initialise(
        &mut self,
        cells: &mut Cells,
        view: View,
        node: Node,
        entry: Entry,
    ) -> Made
        requires ready { CanStep node.code.now view self.old }
        requires entry { IsEntry entry }
        ensures { MakesBy (λ here tree. calls.begin_initialise here tree entry)
            node.entry view result self.old cells.old self.new cells.new }
    {
        let call = Call {
            part: node.child(0),
            declared: Some(entry),
            to: Target::Cell(entry.first),
        };
        self.begin_right(node.code, cells, view, call)
    }

    /// `return`, of nothing, of a call, or of an expression.
    #[inline(always)]
    pub(super) fn begin_return(&mut self, cells: &mut Cells, view: View, node: Node) -> Made
        requires { CanStep node.code.now view self.old }
        ensures { MakesBy calls.begin_return node.entry view result self.old cells.old self.new cells.new }
    {
        let (code, right) = (node.code, node.child(0));
        match code.kind(right) {
            NodeKind::Call | NodeKind::TestLock => {
                let call = Call {
                    part: right,
                    declared: None,
                    to: Target::Return,
                };
                self.begin_right(code, cells, view, call)
            }
            _ => match self.value(code, cells, view, right) {
                Err(trap) => Err(Refusal::Trap(trap)),
                Ok(number) => self.returns(code, cells, view, number),
            },
        }
    }

    /// What stands where a call may stand. A declarator's variable comes into scope behind it.
    #[inline(always)]
    fn begin_right(&mut self, code: &Code, cells: &mut Cells, view: View, call: Call) -> Made
        requires ready { CanStep code.now view self.old }
        requires call { IsCall code.now call }
        ensures { Makes code.now result self.old cells.old self.new cells.new
            (calls.begin_right (kind_of (part_at code.now.trees call.part)) (here_at code.now view self.old cells.old)
            (part_at code.now.trees call.part) (env_with call.declared (env_at code.now self.old)) call.to) }
    {
        match code.kind(call.part) {
            NodeKind::TestLock => match call.part {
                Some(number) => Err(self.lock_test(cells, view, Node { code, number }, call.to)),
                None => unreachable!(),
            },
            _ => self.start_call(code, cells, view, call),
        }
    }

    /// What an `omp_test_lock` begins with.
    #[inline(never)]
    fn lock_test(&self, cells: &Cells, view: View, call: Node, to: Target) -> Refusal
        ensures { TellsBy (λ here tree. calls.begin_test here tree to) call.entry view
            (next_of (Err result)) self.now cells.now }
    {
        Refusal::Test {
            call: call.number,
            codeptr: call.place(),
            wait_id: self.lock_id(call),
            to,
        }
    }

    /// The wait identifier of the lock that a call names.
    fn lock_id(&self, call: Node) -> u32
        ensures { result ≡ LOCK_UNIT + (entry_of (env_at call.entry.code.now self.now)
            (name_of (child_at (tree_of call.entry) 0))).first }
    {
        let name = call.code.name(call.child(0));
        LOCK_UNIT + self.entry(call.code, name).first
    }

    /// The start of a call: its arguments, from left to right, and then the function's body stands next, unless an argument traps or a limit
    /// would be passed. A declarator's variable comes into scope behind it.
    #[inline(never)]
    fn start_call(&mut self, code: &Code, cells: &mut Cells, view: View, call: Call) -> Made
        requires ready { CanStep code.now view self.old }
        requires call { IsCall code.now call }
        ensures { Makes code.now result self.old cells.old self.new cells.new
            (calls.begin_call (here_at code.now view self.old cells.old) (part_at code.now.trees call.part)
            (env_with call.declared (env_at code.now self.old)) call.to) }
    {
        match self.check_arguments(code, cells, view, call.part) {
            Err(trap) => Err(Refusal::Trap(trap)),
            Ok(()) => {
                let function = code.function(code.name(call.part));
                let parameters = part_count(code.tree(), code.child(function, 1));
                if !cells.has_room(parameters as usize) {
                    return Err(Refusal::Limit(CELLS));
                }
                if self.open_calls >= CALL_LIMIT {
                    return Err(Refusal::Limit(CALLS));
                }
                self.enter(code, cells, view, call, function);
                Ok(())
            }
        }
    }

    /// The first trap of the arguments of a call.
    #[tactic(auto, unfolding(c_model::specs::Value::all_values, c_model::specs::Parts::trees_in))]
    fn check_arguments(
        &self,
        code: &Code,
        cells: &Cells,
        view: View,
        call: Option<u32>,
    ) -> Result<(), u8>
        requires call { IsPart code.now.trees call }
        requires view { HasNumbers view }
        ensures { result ≡ without_values (all_values (scope_in code.now view self.now cells.now)
            (parts (part_at code.now.trees call))) }
    {
        match call {
            Some(node) => self.scope(code, cells.items(), view).check_all(node),
            None => Ok(()),
        }
    }

    /// A function returns this number: the call that was begun last has ended.
    #[inline(always)]
    #[tactic(auto, using(crate::proofs::Returning::returned_is, crate::proofs::Returning::returned_after))]
    pub(super) fn returns(&mut self, code: &Code, cells: &mut Cells, view: View, value: i32) -> Made
        requires { IsStepping code.now self.old }
        ensures { Makes code.now result self.old cells.old self.new cells.new
            (calls.returns (here_at code.now view self.old cells.old) value) }
    {
        self.step();
        self.give_back(cells, value);
        Ok(())
    }

    /// The call that was opened last is closed, if one is open, and its value goes to its target.
    fn give_back(&mut self, cells: &mut Cells, number: i32)
        requires { 0 < self.old.frames_now }
        ensures held { self.new ≡ record
            (given_back (last_call self.old.frames) number (closed self.old)) { returned = Some number } }
        ensures cells { cells.new ≡ record cells.old {
          cells = cells_given (last_call self.old.frames) number cells.old.cells;
        } }
    {
        if let Some(to) = self.close() {
            self.deliver(cells, to, number);
        }
        self.returned = Some(number);
    }

    /// The value of a call goes to its target.
    pub(super) fn deliver(&mut self, cells: &mut Cells, to: Target, number: i32)
        requires { 0 < self.old.frames_now }
        ensures held { self.new ≡ delivered to number self.old }
        ensures cells { cells.new ≡ record cells.old { cells = calls.value_cells to number cells.old.cells } }
    {
        match to {
            Target::Nowhere => {}
            Target::Cell(cell) => cells.set(cell as usize, number),
            Target::Return => self.then(Item::Return(number)),
        }
    }

    /// The end of an `omp_test_lock` that came to own its lock.
    #[inline(never)]
    pub(super) fn end_test(
        &mut self,
        code: &Code,
        cells: &mut Cells,
        view: View,
        to: Target,
    ) -> Made
        requires { IsStepping code.now self.old }
        ensures { Makes code.now result self.old cells.old self.new cells.new
            (calls.ends_test (here_at code.now view self.old cells.old) to) }
    {
        self.step();
        self.deliver(cells, to, 1);
        Ok(())
    }

    /// A lock routine that gives nothing.
    #[inline(never)]
    pub(super) fn begin_lock_call(
        &self,
        cells: &Cells,
        view: View,
        which: LockCall,
        node: Node,
    ) -> Next
        ensures { TellsBy (calls.begin_lock_call which) node.entry view result self.now cells.now }
    {
        let (codeptr, wait_id) = (node.place(), self.lock_id(node));
        let point = match which {
            LockCall::Init => Point::LockInit { codeptr, wait_id },
            LockCall::Destroy => Point::LockDestroy { codeptr, wait_id },
            LockCall::Set => Point::MutexAcquire {
                codeptr,
                wait_id,
                kind: MutexKind::Lock,
                to: Target::Nowhere,
            },
            LockCall::Unset => Point::MutexReleased {
                codeptr,
                wait_id,
                kind: MutexKind::Lock,
            },
        };
        Next::Event(point, node.number)
    }
}
