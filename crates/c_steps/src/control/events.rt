//! Events of constructs and directives, and what is asked: nothing changes at them.

ghost use Rattle.std.specs.Prelude.{◌≡◌, ℤ};
ghost use Rattle.c_syntax.specs.language.Tree.{kind_of};
ghost use Rattle.c_model.specs.Constructs as constructs;
ghost use Rattle.c_model.specs.Step as steps;
ghost use Rattle.c_model.specs.declared.point.Work.TheVariants as work;
ghost use Rattle.c_model.specs.Loops.{loop_of};
ghost use Rattle.c_model.specs.Task.Outcome.{Asks, Occurs};
ghost use Rattle.c_steps.specs.ControlView.{here_at};
ghost use Rattle.c_steps.specs.Expressions.{expression_of};
ghost use Rattle.c_steps.specs.Forms.{AdvancesBy, TellsBy, TellsOf};
ghost use Rattle.c_steps.specs.LoopNodes.{GoesOn, parts_at};
ghost use Rattle.c_steps.specs.NodeTrees.{tree_of};
ghost use Rattle.c_steps.specs.Ready.{ArePointNumbers};
ghost use Rattle.c_steps.specs.Views.{HasNumbers};
ghost use Rattle.c_steps.specs.Steps.{CanStep};

use crate::cells::Cells;
use crate::clauses::{Expression, clause_expression, schedule, section_count};
use crate::control::Control;
use crate::loops::{LoopNodes, iteration_count, loop_nodes};
use crate::next::{Next, made};
use crate::node::Node;
use c_model::{
    Ask, CELLS, MutexKind, Point, Schedule, SyncKind, SyncStage, Target, View, Work, WorkKind,
};
use c_syntax::{Directive, NodeKind};

impl Control {
    /// The construct that a combined directive has inside begins.
    pub(super) fn begin_inside(&mut self, cells: &Cells, view: View, node: Node) -> Next
        requires { CanStep node.code.now view self.old }
        ensures { AdvancesBy (λ here tree. steps.begin_inside (kind_of tree) here tree)
            node.entry view result self.old cells.now self.new cells.now }
    {
        match node.kind() {
            NodeKind::Construct(Directive::ParallelFor) => self.begin_loop(cells, view, node),
            NodeKind::Construct(Directive::ParallelSections) => begin_sections(node),
            _ => made(self.begin_empty(node.code, cells, view)),
        }
    }

    /// A construct begins. A combined directive begins as the parallel construct that it has outside.
    #[inline(never)]
    pub(super) fn begin_construct(
        &self,
        cells: &Cells,
        view: View,
        directive: Directive,
        node: Node,
    ) -> Next
        requires { HasNumbers view }
        ensures { TellsBy (steps.begin_construct directive) node.entry view result self.now cells.now }
    {
        let codeptr = node.place();
        match directive {
            Directive::Parallel | Directive::ParallelFor | Directive::ParallelSections => {
                self.begin_parallel(cells, view, node)
            }
            Directive::For => self.begin_loop(cells, view, node),
            Directive::Sections => begin_sections(node),
            Directive::Single => {
                let work = Work::Single;
                event(node, Point::WorkBegin { codeptr, work })
            }
            Directive::Masked | Directive::Master => event(node, Point::MaskedBegin { codeptr }),
            Directive::Critical => {
                let point = Point::MutexAcquire {
                    codeptr,
                    wait_id: node.code.program().critical_number(node.number),
                    kind: MutexKind::Critical,
                    to: Target::Nowhere,
                };
                event(node, point)
            }
            Directive::Task => self.begin_task(cells, view, node),
        }
    }

    /// A region is forked. Without `num_threads` as many threads are asked for as a run may have.
    fn begin_parallel(&self, cells: &Cells, view: View, node: Node) -> Next
        requires { HasNumbers view }
        ensures { TellsBy constructs.begin_parallel node.entry view result self.now cells.now }
    {
        match self.clause_value(cells, view, node, Expression::NumThreads, view.max as i32) {
            Err(trap) => Next::Trap(trap),
            Ok(requested) => {
                let codeptr = node.place();
                event(node, Point::ParallelBegin { codeptr, requested })
            }
        }
    }

    /// An explicit task is made. A task whose `if` clause gives 0 is undeferred.
    fn begin_task(&self, cells: &Cells, view: View, node: Node) -> Next
        requires { HasNumbers view }
        ensures { TellsBy constructs.begin_task node.entry view result self.now cells.now }
    {
        match self.clause_value(cells, view, node, Expression::If, 1) {
            Err(trap) => Next::Trap(trap),
            Ok(number) => {
                if !self.has_task_room(cells, view, node) {
                    return Next::Limit(CELLS);
                }
                let point = Point::TaskCreate {
                    codeptr: node.place(),
                    undeferred: number == 0,
                };
                event(node, point)
            }
        }
    }

    /// The number of the expression of a construct's clause, or its trap. Without the clause it is another number.
    fn clause_value(
        &self,
        cells: &Cells,
        view: View,
        node: Node,
        which: Expression,
        other: i32,
    ) -> Result<i32, u8>
        requires { HasNumbers view }
        ensures { result ≡ constructs.value_or other (here_at node.entry.code.now view self.now cells.now)
            (expression_of which (tree_of node.entry)) }
    {
        match clause_expression(node, which) {
            None => Ok(other),
            Some(expression) => self.value(node.code, cells, view, expression),
        }
    }

    /// A loop that is shared out begins with its start and its end.
    pub(super) fn begin_loop(&self, cells: &Cells, view: View, node: Node) -> Next
        requires { HasNumbers view }
        ensures { TellsBy constructs.begin_loop node.entry view result self.now cells.now }
    {
        let parts = loop_nodes(node);
        match self.value(node.code, cells, view, parts.start) {
            Err(trap) => Next::Trap(trap),
            Ok(start) => match self.value(node.code, cells, view, parts.end) {
                Err(trap) => Next::Trap(trap),
                Ok(end) => share_loop(node, parts, start, end),
            },
        }
    }
}

/// A loop that is shared out begins with these numbers.
fn share_loop(node: Node, parts: LoopNodes, start: i32, end: i32) -> Next
    requires parts { parts_at node.code.now.trees parts ≡ loop_of (tree_of node) }
    requires goes_on { GoesOn parts.comparison parts.step }
    ensures { TellsOf (λ tree. constructs.loop_work tree start end) node.entry result }
{
    let count = iteration_count(parts.comparison, start, end, parts.step);
    let work = loop_work(start, count, parts.step, schedule(node));
    let codeptr = node.place();
    Next::Event(Point::WorkBegin { codeptr, work }, node.number)
}

/// What is shared out of a loop.
fn loop_work(start: i32, count: u64, step: i32, schedule: Schedule) -> Work
    ensures { result ≡ work.Loop start count step schedule }
{
    Work::Loop {
        start: i64::from(start),
        count,
        step: i64::from(step),
        schedule,
    }
}

/// Sections that are shared out begin.
pub(super) fn begin_sections(node: Node) -> Next
    ensures { TellsOf constructs.begin_sections node.entry result }
{
    let (codeptr, work) = (node.place(), Work::Sections(section_count(node)));
    event(node, Point::WorkBegin { codeptr, work })
}

/// An event of a barrier or taskwait.
#[inline(never)]
pub(super) fn synchronises(node: Node, kind: SyncKind, stage: SyncStage) -> Next
    ensures { TellsOf (λ tree. constructs.synchronises tree kind stage) node.entry result }
{
    let point = Point::Sync {
        kind,
        stage,
        codeptr: node.place(),
    };
    event(node, point)
}

/// The task's part of a worksharing construct ends.
pub(super) fn end_work(node: Node, kind: WorkKind, count: u64) -> Next
    ensures { TellsOf (λ tree. constructs.end_work tree kind count) node.entry result }
{
    let point = Point::WorkEnd {
        codeptr: node.place(),
        kind,
        count,
    };
    event(node, point)
}

/// A lock or critical comes to be owned.
pub(super) fn acquire(node: Node, kind: MutexKind, wait_id: u32) -> Next
    ensures { TellsOf (λ tree. constructs.acquires tree kind wait_id) node.entry result }
{
    let point = Point::MutexAcquired {
        codeptr: node.place(),
        wait_id,
        kind,
    };
    event(node, point)
}

/// A critical is given back.
pub(super) fn release(node: Node, wait_id: u32) -> Next
    ensures { TellsOf (λ tree. constructs.releases tree wait_id) node.entry result }
{
    let point = Point::MutexReleased {
        codeptr: node.place(),
        wait_id,
        kind: MutexKind::Critical,
    };
    event(node, point)
}

/// An event stands next at a node.
#[inline(never)]
pub(super) fn event(node: Node, point: Point) -> Next
    requires { ArePointNumbers point }
    ensures { TellsOf (λ tree. Occurs point tree) node.entry result }
{
    Next::Event(point, node.number)
}

/// A silent step at a node has to be told something.
#[inline(never)]
pub(super) fn asks(node: Node, ask: Ask) -> Next
    ensures { TellsOf (λ tree. Asks ask tree) node.entry result }
{
    Next::Ask(ask, node.number)
}
