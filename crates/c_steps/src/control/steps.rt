//! Assignments, `++` and `--`.

ghost use Rattle.std.specs.Prelude.{◌≡◌, Ok, IfSome};
ghost use Rattle.c_syntax.specs.language.Tree.{kind_of};
ghost use Rattle.c_model.specs.StepOutcomes.{sets, with_result};
ghost use Rattle.c_model.specs.Statements as statements;
ghost use Rattle.c_model.specs.Value.{binary_value};
ghost use Rattle.c_steps.specs.ControlView.{here_at};
ghost use Rattle.c_steps.specs.Items.{items_if};
ghost use Rattle.c_steps.specs.Nodes.{IsPart, part_at};
ghost use Rattle.c_steps.specs.Ready.{IsItem, IsStepping};
ghost use Rattle.c_steps.specs.Steps.{CanStep, Makes};

use crate::cells::Cells;
use crate::code::Code;
use crate::control::Control;
use crate::item::Item;
use crate::next::{Made, Refusal};
use crate::numbers::{binary_result, deciding_value};
use c_model::View;
use c_syntax::{BinaryOp, Bump, NodeKind, Setting};

impl Control {
    /// A step that is a statement, or the third part of a loop, behind which an item may stand next.
    #[tactic(auto, using(crate::proofs::Stepping::items_if_cases))]
    #[inline(always)]
    pub(super) fn make_step(
        &mut self,
        code: &Code,
        cells: &mut Cells,
        view: View,
        part: Option<u32>,
        then: Option<Item>,
    ) -> Made
        requires ready { CanStep code.now view self.old }
        requires part { IsPart code.now.trees part }
        requires then { IfSome then (IsItem code.now) }
        ensures { Makes code.now result self.old cells.old self.new cells.new
            (statements.makes_step (kind_of (part_at code.now.trees part)) (here_at code.now view self.old cells.old)
            (part_at code.now.trees part) (items_if code.now then)) }
    {
        match code.kind(part) {
            NodeKind::Assign(which) => {
                let right = self.value(code, cells, view, code.child(part, 1));
                self.assign(code, cells, view, which, code.child(part, 0), right, then)
            }
            NodeKind::Bump(which, _) => {
                let (setting, place) = (setting_of(which), code.child(part, 0));
                self.assign(code, cells, view, setting, place, Ok(1), then)
            }
            _ => {
                self.step();
                self.then_if(then);
                Ok(())
            }
        }
    }

    /// An assignment: first the cell, then the right side, which has this value or trap.
    #[inline(always)]
    fn assign(
        &mut self,
        code: &Code,
        cells: &mut Cells,
        view: View,
        which: Setting,
        place: Option<u32>,
        right: Result<i32, u8>,
        then: Option<Item>,
    ) -> Made
        requires ready { CanStep code.now view self.old }
        requires place { IsPart code.now.trees place }
        requires then { IfSome then (IsItem code.now) }
        ensures { Makes code.now result self.old cells.old self.new cells.new
            (statements.assigns (here_at code.now view self.old cells.old) which (part_at code.now.trees place) right
            (items_if code.now then)) }
    {
        match self.place_cell(code, cells, view, place) {
            Err(trap) => Err(Refusal::Trap(trap)),
            Ok(cell) => {
                let number = new_number(which, cells.number(cell), right);
                self.set_cell(code, cells, view, cell, number, then)
            }
        }
    }

    /// A cell gets a number, unless that is a trap.
    #[tactic(auto, using(crate::proofs::Stepping::items_if_cases))]
    #[inline(always)]
    fn set_cell(
        &mut self,
        code: &Code,
        cells: &mut Cells,
        view: View,
        cell: usize,
        number: Result<i32, u8>,
        then: Option<Item>,
    ) -> Made
        requires ready { IsStepping code.now self.old }
        requires then { IfSome then (IsItem code.now) }
        ensures { let here = here_at code.now view self.old cells.old in
            Makes code.now result self.old cells.old self.new cells.new
            (with_result number (λ number. sets here cell number (items_if code.now then))) }
    {
        match number {
            Err(trap) => Err(Refusal::Trap(trap)),
            Ok(number) => {
                self.step();
                self.then_if(then);
                cells.set(cell, number);
                Ok(())
            }
        }
    }
}

/// What an assignment puts into its cell, by what the cell holds and the value or the trap of its right side.
#[inline(always)]
fn new_number(which: Setting, held: i32, right: Result<i32, u8>) -> Result<i32, u8>
    ensures { result ≡ statements.new_number which held right }
{
    match which {
        Setting::Plain => right,
        Setting::Add => operated(BinaryOp::Add, held, right),
        Setting::Subtract => operated(BinaryOp::Subtract, held, right),
        Setting::Multiply => operated(BinaryOp::Multiply, held, right),
        Setting::Divide => operated(BinaryOp::Divide, held, right),
        Setting::Remainder => operated(BinaryOp::Remainder, held, right),
    }
}

/// What an operator makes of a number and the value or the trap of its right side.
#[inline(always)]
fn operated(operator: BinaryOp, left: i32, right: Result<i32, u8>) -> Result<i32, u8>
    ensures { result ≡ binary_value operator (Ok left) right }
{
    match deciding_value(operator, left) {
        Some(number) => Ok(number),
        None => match right {
            Err(trap) => Err(trap),
            Ok(number) => binary_result(operator, left, number),
        },
    }
}

/// The assignment that a `++` or `--` makes of 1.
#[inline(always)]
fn setting_of(which: Bump) -> Setting
    ensures { result ≡ statements.setting_of which }
{
    match which {
        Bump::Increment => Setting::Add,
        Bump::Decrement => Setting::Subtract,
    }
}
