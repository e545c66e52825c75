//! The code of a program, from main to its end, as the only thread of a run executes it.
//!
//! A region has one member. An explicit task is executed when it is created. A loop's iterations are one chunk, and sections come in
//! their order. The task executes each `single`. A lock that is owned isn't waited for.

ghost use Rattle.std.specs.Prelude.{ℕ, ◌≡◌, ◌<◌, slice_get, ◌≤◌, length, IfOk};
ghost use Rattle.std.specs.List.{All};
ghost use Rattle.c_syntax.specs.language.Numbered.{tree_at};
ghost use Rattle.c_model.specs.declared.limits.TheConstants.{CELL_LIMIT};
ghost use Rattle.c_model.specs.declared.point.Point.TheVariants as event;
ghost use Rattle.c_model.specs.Begin.{created_construct};
ghost use Rattle.c_model.specs.Copies.{with_task_cells};
ghost use Rattle.c_model.specs.Occurring.{IsAskOfNext};
ghost use Rattle.c_steps.specs.Beginning.{IsCreation};
ghost use Rattle.c_steps.specs.ControlView.{bound_in, task_at};
ghost use Rattle.c_steps.specs.OfProgram.{IsMadeFor};
ghost use Rattle.c_steps.specs.Passing.{IsEventOfNext};

use crate::account::{Account, End, Parts};
use crate::row_fault::RowFault;
use crate::shared_work::Team;
use c_check::Program;
use c_model::{Ask, Point, View};
use c_steps::{Cells, Code, Control, Next};
use std::alloc::{AllocError, Global};
use std::marker::Model;

/// How often code is advanced until the driver says that it runs on.
const MOST: u32 = 10_000;

/// What the only thread of a run sees.
const ALONE: View = View {
    index: 0,
    team: 1,
    max: 1,
};

/// What a program does. What is told of it is as in the answer that is wanted.
pub(crate) fn steps(alloc: Global, program: Program, want: &str) -> Result<String, RowFault> {
    let code = Code::new(alloc, program)?;
    let mut driver = Driver::new(alloc, code, Parts::by_answer(want))?;
    driver.run(alloc)
}

/// The code that is open, and what its thread knows of shared work and locks. Contracts see the program's tree.
#[derive(Drop)]
struct Driver {
    code: Code,
    cells: Cells,
    /// The code of main, and behind it that of each member and task that isn't over.
    controls: Vec<Control>,
    team: Team,
    account: Account,
}

impl Model for Driver {
    ghost use Rattle.std.specs.List.{All};
    ghost use Rattle.c_syntax.specs.language.Numbered.{TreeView};
    ghost use Rattle.c_syntax.specs.workings.Codes.{tree_view_code};
    ghost use Rattle.c_steps.specs.OfProgram.{IsMadeFor};

    ghost Value = { TreeView };

    ghost coded = { tree_view_code };

    ghost view = { λ driver. driver.code };

    ghost invariant = { λ driver. All (IsMadeFor driver.code) driver.controls.items };
}

impl Driver {
    /// Before the first step.
    fn new(alloc: Global, code: Code, parts: Parts) -> Result<Driver, RowFault> {
        let controls = code_of_main(alloc, &code)?;
        Driver::with(alloc, code, controls, parts)
    }

    /// With this code open, of which nothing is executed yet.
    fn with(
        alloc: Global,
        code: Code,
        controls: Vec<Control>,
        parts: Parts,
    ) -> Result<Driver, RowFault>
        requires made { All (IsMadeFor code) controls.items }
    {
        let cells = Cells::new(alloc, &code)?;
        Ok(Driver {
            code,
            cells,
            controls,
            team: Team::new(alloc),
            account: Account::new(alloc, parts),
        })
    }

    /// Advances the code until the run ends. Gives what is told of it.
    fn run(&mut self, alloc: Global) -> Result<String, RowFault> {
        for _ in 0..MOST {
            if let Some(end) = self.advance(alloc)? {
                return self.told(alloc, end);
            }
        }
        self.told(alloc, End::RunsOn)
    }

    /// What is told of a run that has ended so.
    fn told(&self, alloc: Global, end: End) -> Result<String, RowFault> {
        Ok(self.account.told(alloc, self.cells.text(), end)?)
    }

    /// Advances the code that began last. Tells how the run ends, if it does.
    fn advance(&mut self, alloc: Global) -> Result<Option<End>, RowFault> {
        match self.controls.pop() {
            Some(control) => self.advance_code(alloc, control),
            None => Ok(Some(End::RunsOn)),
        }
    }

    /// Advances this code, which began last.
    #[tactic(auto, using(c_steps::proofs::Creating::creation_stands, c_steps::proofs::Creating::creation_fits))]
    fn advance_code(&mut self, alloc: Global, mut control: Control) -> Result<Option<End>, RowFault>
        requires { IsMadeFor self.old control }
    {
        if control.reserve(&self.code).is_err() {
            return Err(RowFault::Memory);
        }
        match control.advance(&self.code, &mut self.cells, ALONE) {
            Next::Quiet => {
                self.account.step();
                self.keep(control)
            }
            Next::Ask(ask, node) => self.answer(control, ask, node),
            Next::Event(Point::ParallelBegin { codeptr, requested }, node) => {
                self.fork(alloc, control, codeptr, requested, node)
            }
            Next::Event(
                Point::TaskCreate {
                    codeptr,
                    undeferred,
                },
                node,
            ) => {
                let point = Point::TaskCreate {
                    codeptr,
                    undeferred,
                };
                match create(
                    alloc,
                    &self.code,
                    &mut self.cells,
                    &mut control,
                    point,
                    node,
                ) {
                    Ok(task) => self.follow(control, task, point),
                    Err(_) => Err(RowFault::Memory),
                }
            }
            Next::Event(point, node) => self.pass(control, point, node),
            Next::Ended(value) => self.end(value),
            Next::Trap(number) => Ok(Some(End::Traps(number))),
            Next::Limit(number) => Ok(Some(End::Limits(number))),
        }
    }

    /// The run goes on with this code.
    #[tactic(auto, using(crate::proofs::Controls::one_more))]
    fn keep(&mut self, control: Control) -> Result<Option<End>, RowFault>
        requires made { IsMadeFor self.old control }
        ensures program { self.new ≡ self.old }
    {
        self.controls.push(control)?;
        Ok(None)
    }

    /// What the code asks is answered.
    fn answer(&mut self, mut control: Control, ask: Ask, node: u32) -> Result<Option<End>, RowFault>
        requires made { IsMadeFor self.old control }
        requires asked { IsAskOfNext ask (tree_at self.old.trees node) (task_at self.old control).todo }
        requires spare { 0 < control.spare }
    {
        let answer = self.team.answer(&self.code, &control, ask);
        control.give(&self.code, &mut self.cells, answer);
        self.account.answer(answer)?;
        self.keep(control)
    }

    /// An event has happened, by which no other code begins.
    fn pass(
        &mut self,
        mut control: Control,
        point: Point,
        node: u32,
    ) -> Result<Option<End>, RowFault>
        requires made { IsMadeFor self.old control }
        requires event { IsEventOfNext self.old point node (task_at self.old control).todo }
        requires passes { 0 < control.passes }
    {
        control.passed(&self.code, point, node, true);
        self.account.event(point)?;
        self.team.follow(point)?;
        self.keep(control)
    }

    /// A region has begun. Its member is executed before what stands behind the event.
    #[tactic(auto, using(c_steps::proofs::Members::has_forked))]
    fn fork(
        &mut self,
        alloc: Global,
        mut control: Control,
        codeptr: u64,
        requested: i32,
        node: u32,
    ) -> Result<Option<End>, RowFault>
        requires made { IsMadeFor self.old control }
        requires event { IsEventOfNext self.old (event.ParallelBegin codeptr requested) node
            (task_at self.old control).todo }
        requires passes { 0 < control.passes }
    {
        let point = Point::ParallelBegin { codeptr, requested };
        let mut member = Control::blank(alloc, &self.code)?;
        control.passed(&self.code, point, node, true);
        control.member(&self.code, &mut member);
        self.follow(control, member, point)
    }

    /// By an event of this code other code has begun, which is executed before what stands behind the event.
    fn follow(
        &mut self,
        control: Control,
        begun: Control,
        point: Point,
    ) -> Result<Option<End>, RowFault>
        requires made { IsMadeFor self.old control }
        requires begun { IsMadeFor self.old begun }
    {
        self.account.event(point)?;
        self.keep(control)?;
        self.keep(begun)
    }

    /// The code that began last has ended with this value.
    fn end(&mut self, value: i32) -> Result<Option<End>, RowFault> {
        if self.controls.is_empty() {
            return Ok(Some(End::Ends(value)));
        }
        self.account.code_end()?;
        Ok(None)
    }
}

/// The code of main alone.
fn code_of_main(alloc: Global, code: &Code) -> Result<Vec<Control>, AllocError>
    ensures made { IfOk result (λ controls. All (IsMadeFor code.now) controls.items) }
{
    let main = Control::main(alloc, code)?;
    let mut controls = Vec::new(alloc);
    controls.push(main)?;
    Ok(controls)
}

/// An explicit task is created, and the code that creates it goes on behind that event. Gives the task's code.
fn create(
    alloc: Global,
    code: &Code,
    cells: &mut Cells,
    control: &mut Control,
    point: Point,
    node: u32,
) -> Result<Control, AllocError>
    requires made { IsMadeFor code.now control.old }
    requires event { IsEventOfNext code.now point node (task_at code.now control.old).todo }
    requires passes { 0 < control.old.passes }
    requires created { IsCreation (slice_get (task_at code.now control.old).todo 0) }
    requires room { length (with_task_cells code.now (bound_in code.now control.old cells.old)
        (created_construct (task_at code.now control.old).todo)).cells ≤ CELL_LIMIT }
    ensures made { IsMadeFor code.now control.new }
    ensures task { IfOk result (IsMadeFor code.now) }
{
    let mut task = Control::blank(alloc, code)?;
    control.task(code, cells, &mut task);
    control.passed(code, point, node, true);
    Ok(task)
}
