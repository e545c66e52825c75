//! The code of the tasks that are kept.

ghost use Rattle.std.specs.Prelude.{◌≡◌, ◌<◌, ◌≤◌, [], IfOk, IfSome, OnErr, OnOk, length, slice_get};
ghost use Rattle.std.specs.List.{All};
ghost use Rattle.std.specs.Option.{option_copied};
ghost use Rattle.c_steps.specs.Beginning.{IsCreation};
ghost use Rattle.c_steps.specs.OfProgram.{IsMadeFor};
ghost use Rattle.omp_model.specs.EventEffects.{member_code};
ghost use Rattle.omp_board.specs.Keeping.{HasRoomIn, IsNoCode, IsOfProgram, control_at, seen_tasks};
ghost use Rattle.omp_board.specs.Tasks.{HasCells, code_of, created_by, moment_of, turn_room};

use crate::task::Task;
use c_model::{Upcoming, View};
use c_steps::{Cells, Code, Control};
use std::alloc::{AllocError, Global};

/// What member 0 of a team sees. It goes past nothing, so that what stands first in its code comes next.
pub(crate) const MEMBER_0: View = View {
    index: 0,
    team: 1,
    max: 1,
};

/// The most controls without code that are kept for tasks to come.
const BLANKS: usize = 32;

/// Controls without code.
#[derive(Drop)]
pub struct Blanks {
    /// What is read where a task has no code.
    pub none: Control,
    /// Those for tasks to come.
    pub spare: Vec<Control>,
}

/// The controls without code that a run begins with: none is kept for a task to come.
pub(crate) fn first_blanks(alloc: Global, code: &Code) -> Result<Blanks, AllocError>
    ensures none { IfOk result (λ blanks. IsNoCode code.now blanks.none) }
    ensures spare { IfOk result (λ blanks. blanks.spare.items ≡ []) }
{
    let none = Control::blank(alloc, code)?;
    let spare = Vec::with_capacity(alloc, BLANKS)?;
    Ok(Blanks { none, spare })
}

/// What is left of the task's code, if it has some.
#[inline(always)]
pub(crate) fn control_of(list: &[Task], task: u32) -> Option<&Control>
    ensures { option_copied result ≡ control_at list.now task }
{
    list.get(task as usize)?.control.as_ref()
}

/// Makes a control for a task to come, where none is kept.
pub(crate) fn reserve_blank(
    alloc: Global,
    code: &Code,
    blanks: &mut Vec<Control>,
) -> Result<(), AllocError>
    requires { All (IsMadeFor code.now) blanks.old.items }
    ensures made { All (IsMadeFor code.now) blanks.new.items }
    ensures more { length blanks.old.items ≤ length blanks.new.items }
    ensures some { OnOk result (0 < length blanks.new.items) }
{
    if !blanks.is_empty() {
        return Ok(());
    }
    let blank = Control::blank(alloc, code)?;
    blanks.push(blank)?;
    Ok(())
}

/// The control that was kept last for a task to come.
fn taken(code: &Code, blanks: &mut Vec<Control>) -> Control
    requires made { All (IsMadeFor code.now) blanks.old.items }
    requires some { 0 < length blanks.old.items }
    ensures made { IsMadeFor code.now result }
    ensures blanks { All (IsMadeFor code.now) blanks.new.items }
{
    blanks.pop().unwrap()
}

/// A control without code is kept for a task to come, or is given back where there are many.
pub(crate) fn keep_blank(code: &Code, blanks: &mut Vec<Control>, control: Control)
    requires made { IsMadeFor code.now control }
    requires blanks { All (IsMadeFor code.now) blanks.old.items }
    ensures blanks { All (IsMadeFor code.now) blanks.new.items }
    ensures more { length blanks.old.items ≤ length blanks.new.items }
{
    if blanks.len() < blanks.capacity() {
        blanks.push(control).unwrap();
    }
}

/// Makes room for a turn in the task's code, if it has some. That there is no such task is want of memory too.
pub(crate) fn reserve_code(code: &Code, list: &mut [Task], task: u32) -> Result<(), AllocError>
    requires controls { All (IsOfProgram code.now) list.old }
    ensures seen { seen_tasks code.now list.new ≡ seen_tasks code.now list.old }
    ensures controls { All (IsOfProgram code.now) list.new }
    ensures there { OnOk result (task < length list.old) }
    ensures room { OnOk result (IfSome (control_at list.new task) (HasRoomIn (turn_room task))) }
    ensures memory { OnErr result (list.new ≡ list.old) }
{
    if task as usize >= list.len() {
        return Err(AllocError);
    }
    match &mut list[task as usize].control {
        Some(control) => control.reserve(code),
        None => Ok(()),
    }
}

/// The code of a member of the region that this task has forked begins, with a control that was kept for it. Where the task hasn't forked one,
/// there is none.
pub(crate) fn begin_member(
    code: &Code,
    list: &[Task],
    blanks: &mut Vec<Control>,
    parent: u32,
) -> Option<Control>
    requires controls { All (IsOfProgram code.now) list.now }
    requires blanks { All (IsMadeFor code.now) blanks.old.items }
    requires some { 0 < length blanks.old.items }
    ensures code { code_of code.now result ≡ member_code (code_of code.now (control_at list.now parent)) }
    ensures made { IfSome result (IsMadeFor code.now) }
    ensures blanks { All (IsMadeFor code.now) blanks.new.items }
{
    let parent = control_of(list, parent)?;
    match parent.upcoming(code, MEMBER_0) {
        Upcoming::RegionEnd => {
            let mut member = taken(code, blanks);
            parent.member(code, &mut member);
            Some(member)
        }
        _ => None,
    }
}

/// The code of the explicit task whose construct stands next in this task's code begins, with a control that was kept for it.
pub(crate) fn begin_explicit(
    code: &Code,
    cells: &mut Cells,
    list: &[Task],
    blanks: &mut Vec<Control>,
    creator: u32,
) -> Option<Control>
    requires controls { All (IsOfProgram code.now) list.now }
    requires blanks { All (IsMadeFor code.now) blanks.old.items }
    requires some { 0 < length blanks.old.items }
    requires created { IsCreation (slice_get (code_of code.now (control_at list.now creator)).todo 0) }
    requires room { HasCells code.now (moment_of code.now (control_at list.now creator) cells.old) }
    ensures went { moment_of code.now result cells.new ≡
        created_by code.now (moment_of code.now (control_at list.now creator) cells.old) }
    ensures made { IfSome result (IsMadeFor code.now) }
    ensures blanks { All (IsMadeFor code.now) blanks.new.items }
{
    let creator = control_of(list, creator)?;
    let mut task = taken(code, blanks);
    creator.task(code, cells, &mut task);
    Some(task)
}
