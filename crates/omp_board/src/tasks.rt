//! The tasks of a run with their code, and what all code shares.

ghost use Rattle.std.specs.Prelude.{◌≡◌, ◌<◌, ◌≤◌, IfNone, IfOk, IfSome, OnErr, OnOk, [], length, slice_get, slice_index_or};
ghost use Rattle.c_syntax.specs.language.Tree.{nothing};
ghost use Rattle.c_syntax.specs.language.Numbered.{tree_at};
ghost use Rattle.c_model.specs.Answers.{AnswersFirst};
ghost use Rattle.c_model.specs.Asked.{count_asked, sections_asked};
ghost use Rattle.c_model.specs.Begin.{blank_task, first_store};
ghost use Rattle.c_model.specs.Clauses.{statements_among};
ghost use Rattle.c_model.specs.AfterEvents.{settled_after_answer, settled_after_event};
ghost use Rattle.c_model.specs.Parts.{parts};
ghost use Rattle.c_model.specs.Program.{place_of};
ghost use Rattle.c_model.specs.Step.{settled_moment, silent};
ghost use Rattle.c_model.specs.Upcoming as upcoming;
ghost use Rattle.c_model.specs.declared.view.View.{View as SeenView};
ghost use Rattle.c_steps.specs.Beginning.{IsCreation};
ghost use Rattle.c_steps.specs.ControlView.{outcome_at, task_at};
ghost use Rattle.c_steps.specs.OfProgram.{IsMadeFor};
ghost use Rattle.c_steps.specs.Passing.{IsEventOfNext};
ghost use Rattle.c_steps.specs.Ready.{FitsProgram};
ghost use Rattle.c_steps.specs.Scopes.{HasNumbers};
ghost use Rattle.omp_model.specs.EventEffects.{member_code};
ghost use Rattle.omp_board.specs.Keeping.{AreFirst, IsNoCode};
ghost use Rattle.omp_board.specs.Tasks.{HasCells, HasPass, HasSteps, HasStepsFor, HaveSteppedIn, IsNamedIn, IsStill, code_in, created_by, first_tasks, gone_in, moment_in, one_pass_less, one_step_less, room_after, task_in, turn_room, with_code_in, with_one_more, with_task_in};

use crate::controls::{
    Blanks, MEMBER_0, begin_explicit, begin_member, control_of, first_blanks, keep_blank,
    reserve_blank, reserve_code,
};
use crate::task::{Task, task_with};
use c_check::Program;
use c_model::{Answer, Point, Upcoming, View};
use c_steps::{Cells, Code, Control, Next};
use omp_model::STEPS_OF_A_TURN;
use std::alloc::{AllocError, Global};
use std::marker::Model;

/// How many silent steps, answers and looks there is room for in a turn.
const STEPS_AHEAD: u32 = STEPS_OF_A_TURN + 2;

/// Room for a turn: of the code of this task for so many silent steps, answers and looks at what stands next, and for so many events; and for so many
/// more tasks.
#[derive(Clone, Copy)]
pub struct TaskRoom {
    pub task: u32,
    pub steps: u32,
    pub passes: u32,
    pub tasks: usize,
}

/// No room, as before the first turn.
const NO_ROOM: TaskRoom = TaskRoom {
    task: 0,
    steps: 0,
    passes: 0,
    tasks: 0,
};

/// What the tasks of a run begin with, beside the program.
#[derive(Drop)]
struct First {
    cells: Cells,
    list: Vec<Task>,
    blanks: Blanks,
}

/// The tasks of a run with their code, and the cells and the text that all code shares. Contracts see the program, the tasks by identity, at 0 one
/// without code, the cells with the text, and room.
///
/// A task that has ended keeps no code. One that isn't there reads as one without code.
#[derive(Drop)]
pub struct Tasks {
    /// Where its memory comes from.
    alloc: Global,
    /// The program.
    code: Code,
    /// What all code shares.
    cells: Cells,
    /// The tasks, by identity. At 0 stands none.
    list: Vec<Task>,
    /// Controls without code.
    blanks: Blanks,
    /// What there is room for.
    room: TaskRoom,
}

impl Model for Tasks {
    ghost use Rattle.std.specs.Prelude.{vec_capacity};
    ghost use Rattle.omp_board.specs.Tasks.{TasksView, tasks_code};
    ghost use Rattle.omp_board.specs.Keeping.{IsKept, IsNoCode, seen_tasks};

    ghost Value = { TasksView };

    ghost coded = { tasks_code };

    ghost view = { λ tasks. record {
      program = tasks.code;
      tasks = seen_tasks tasks.code tasks.list.items;
      store = tasks.cells;
      room = tasks.room;
    } };

    ghost invariant = { λ tasks. IsKept tasks.code tasks.list.items (vec_capacity tasks.list) tasks.blanks.spare.items
        tasks.room × IsNoCode tasks.code tasks.blanks.none };
}

impl Tasks {
    /// The initial task of a program, before its first step.
    pub fn new(alloc: Global, program: Program) -> Result<Tasks, AllocError>
        ensures { IfOk result (λ tasks. tasks ≡ first_tasks program) }
    {
        let code = Code::new(alloc, program)?;
        let First {
            cells,
            list,
            blanks,
        } = first_parts(alloc, &code)?;
        Ok(Tasks {
            alloc,
            code,
            cells,
            list,
            blanks,
            room: NO_ROOM,
        })
    }

    /// Makes room for a turn of which this is the current task: for the silent steps of its code, an event, and one more task. That there is no such
    /// task, or that there are more tasks than a `u32` counts, is want of memory too.
    pub fn reserve(&mut self, task: u32) -> Result<(), AllocError>
        ensures kept { self.new ≡ record self.old { room = self.new.room } }
        ensures room { OnOk result (self.new.room ≡ turn_room task) }
        ensures memory { OnErr result (self.new ≡ self.old) }
    {
        if self.list.len() >= u32::MAX as usize {
            return Err(AllocError);
        }
        self.list.reserve(1)?;
        reserve_blank(self.alloc, &self.code, &mut self.blanks.spare)?;
        reserve_code(&self.code, &mut self.list, task)?;
        self.room = TaskRoom {
            task,
            steps: STEPS_AHEAD,
            passes: 1,
            tasks: 1,
        };
        Ok(())
    }

    /// The identity of the next task.
    pub fn next(&self) -> u32
        ensures { result ≡ length self.now.tasks }
    {
        self.list.len() as u32
    }

    /// The region that the task has forked and that isn't over, or 0.
    pub fn forked(&self, task: u32) -> u32
        ensures { result ≡ (task_in self.now task).forked }
    {
        match self.list.get(task as usize) {
            Some(kept) => kept.forked,
            None => 0,
        }
    }

    /// What a tool last stored into the task's data word, or 0.
    pub fn word(&self, task: u32) -> u64
        ensures { result ≡ (task_in self.now task).word }
    {
        match self.list.get(task as usize) {
            Some(kept) => kept.word,
            None => 0,
        }
    }

    /// The thread has taken the task up.
    pub fn set_thread(&mut self, task: u32, thread: u8)
        ensures { self.new ≡ with_task_in self.old task (record (task_in self.old task) { thread = thread }) }
    {
        let Some(kept) = self.list.get_mut(task as usize) else {
            return;
        };
        kept.thread = thread;
    }

    /// The task has forked this region, or, with 0, the region that it had forked is over.
    pub fn set_forked(&mut self, task: u32, region: u32)
        ensures { self.new ≡ with_task_in self.old task (record (task_in self.old task) { forked = region }) }
    {
        let Some(kept) = self.list.get_mut(task as usize) else {
            return;
        };
        kept.forked = region;
    }

    /// This is stored into the task's data word.
    pub fn store_word(&mut self, task: u32, word: u64)
        ensures { self.new ≡ with_task_in self.old task (record (task_in self.old task) { word = word }) }
    {
        let Some(kept) = self.list.get_mut(task as usize) else {
            return;
        };
        kept.word = word;
    }

    /// What stands first in the task's code.
    #[inline(always)]
    pub fn standing(&self, task: u32) -> Upcoming
        ensures { result ≡ upcoming.upcoming_among (code_in self.now task).todo }
    {
        let (code, control) = self.code_of(task);
        match control.upcoming_at_once() {
            Some(upcoming) => upcoming,
            None => control.upcoming(code, MEMBER_0),
        }
    }

    /// The place of a section as tools are told it, counted from 0, of the construct with this node.
    pub fn section_place(&self, construct: u32, section: u32) -> u64
        requires { construct < length self.now.program.trees }
        ensures { result ≡ place_of (slice_index_or
            (statements_among (parts (tree_at self.now.program.trees construct))) section nothing) }
    {
        self.code.section_place(construct, section)
    }

    /// Makes a silent step of the task's code, or says what stands next. At anything but a silent step the task has left out what it goes past, and
    /// nothing else has changed.
    pub fn step(&mut self, task: u32, view: View) -> Next
        requires view { HasNumbers view }
        requires room { HasSteps self.old.room task }
        ensures outcome { outcome_at self.old.program result (moment_in self.new task) ≡
            silent self.old.program view (moment_in self.old task) }
        ensures rest { self.new ≡ record
            (gone_in self.old task (moment_in self.new task)) { room = room_after result self.old.room } }
        ensures still { IsStill result → moment_in self.new task ≡ settled_moment view (moment_in self.old task) }
        ensures fits { FitsProgram self.old.program result }
        ensures named { IsNamedIn self.old.program result (code_in self.new task).todo }
    {
        let Some(kept) = self.list.get_mut(task as usize) else {
            return Next::Ended(0);
        };
        let Some(control) = &mut kept.control else {
            return Next::Ended(0);
        };
        let next = control.advance(&self.code, &mut self.cells, view);
        if let Next::Quiet = next {
            self.room.steps -= 1;
        }
        next
    }

    /// Makes silent steps of the task's code one after another, at most so many, as long as each may be made without a look at what else may
    /// stand next, and answers how many it made.
    pub fn try_steps(&mut self, task: u32, view: View, most: u32) -> u32
        requires view { HasNumbers view }
        requires room { HasStepsFor self.old.room task most }
        ensures made { HaveSteppedIn result self.old view task self.new }
        ensures most { result ≤ most }
    {
        let Some(kept) = self.list.get_mut(task as usize) else {
            return 0;
        };
        let Some(control) = &mut kept.control else {
            return 0;
        };
        let made = control.try_steps(&self.code, &mut self.cells, view, most);
        self.room.steps -= made;
        made
    }

    /// What the task's code has asked is answered.
    pub fn give(&mut self, task: u32, answer: Answer)
        requires room { HasSteps self.old.room task }
        requires asked { AnswersFirst (code_in self.old task).todo answer }
        ensures { self.new ≡ record (gone_in self.old task (settled_after_answer answer (moment_in self.old task)))
            { room = one_step_less self.old.room } }
    {
        let Some(kept) = self.list.get_mut(task as usize) else {
            return;
        };
        let Some(control) = &mut kept.control else {
            return;
        };
        control.give(&self.code, &mut self.cells, answer);
        self.room.steps -= 1;
    }

    /// The task's code goes past an event, which stands next at this node. `executes` counts at the begin of a `single` alone.
    pub fn pass(&mut self, task: u32, point: Point, node: u32, executes: bool)
        requires room { HasPass self.old.room task }
        requires event { IsEventOfNext self.old.program point node (code_in self.old task).todo }
        ensures { self.new ≡ record (with_code_in self.old task
            (settled_after_event point executes (code_in self.old task))) { room = one_pass_less self.old.room } }
    {
        let Some(kept) = self.list.get_mut(task as usize) else {
            return;
        };
        let Some(control) = &mut kept.control else {
            return;
        };
        control.passed(&self.code, point, node, executes);
        self.room.passes -= 1;
    }

    /// One more task is made, of a member of the region that this task has forked. Where it hasn't forked one, the task has no code.
    pub fn add_member(&mut self, parent: u32)
        requires { 0 < self.old.room.tasks }
        ensures { self.new ≡ with_one_more self.old (member_code (code_in self.old parent)) }
    {
        self.room.tasks = 0;
        let member = begin_member(&self.code, &self.list, &mut self.blanks.spare, parent);
        self.list.push(task_with(member)).unwrap();
    }

    /// One more task is made, of the task construct that stands next in this task's code, with the cells of its own.
    pub fn add_explicit(&mut self, creator: u32)
        requires room { 0 < self.old.room.tasks }
        requires created { IsCreation (slice_get (code_in self.old creator).todo 0) }
        requires cells { HasCells self.old.program (moment_in self.old creator) }
        ensures task { self.new.tasks ≡
            (with_one_more self.old (created_by self.old.program (moment_in self.old creator)).task).tasks }
        ensures rest { self.new ≡ record self.old {
          tasks = self.new.tasks;
          store = (created_by self.old.program (moment_in self.old creator)).store;
          room = record self.old.room { tasks = 0 };
        } }
    {
        self.room.tasks = 0;
        let task = begin_explicit(
            &self.code,
            &mut self.cells,
            &self.list,
            &mut self.blanks.spare,
            creator,
        );
        self.list.push(task_with(task)).unwrap();
    }

    /// Nothing is kept of the task's code.
    pub fn empty(&mut self, task: u32)
        ensures { self.new ≡ with_code_in self.old task blank_task }
    {
        let Some(kept) = self.list.get_mut(task as usize) else {
            return;
        };
        let Some(mut control) = kept.control.take() else {
            return;
        };
        control.clear(&self.code);
        keep_blank(&self.code, &mut self.blanks.spare, control);
    }

    /// The program, and what is left of the task's code, but for the names in scope.
    #[inline(always)]
    pub fn code_of(&self, task: u32) -> (&Code, &Control)
        ensures made { IsMadeFor result.0.now result.1.now }
        ensures todo { (task_at result.0.now result.1.now).todo ≡ (code_in self.now task).todo }
        ensures calls { (task_at result.0.now result.1.now).calls ≡ (code_in self.now task).calls }
        ensures returned { (task_at result.0.now result.1.now).returned ≡ (code_in self.now task).returned }
    {
        match control_of(&self.list, task) {
            Some(control) => (&self.code, control),
            None => (&self.code, &self.blanks.none),
        }
    }

    /// The bytes that were printed.
    pub fn text(&self) -> &[u8]
        ensures { result.now ≡ self.now.store.text }
    {
        self.cells.text()
    }

    /// The bytes that were printed, and nothing else is kept.
    pub fn into_text(self) -> Vec<u8>
        ensures { result.items ≡ self.store.text }
    {
        self.cells.into_text()
    }
}

/// What the tasks of this program begin with: the cells of its file, at 0 a task without code and behind it the initial one, and no controls for tasks
/// to come.
fn first_parts(alloc: Global, code: &Code) -> Result<First, AllocError>
    ensures cells { IfOk result (λ first. first.cells ≡ first_store code.now) }
    ensures list { IfOk result (λ first. AreFirst code.now first.list.items) }
    ensures none { IfOk result (λ first. IsNoCode code.now first.blanks.none) }
    ensures spare { IfOk result (λ first. first.blanks.spare.items ≡ []) }
{
    let cells = Cells::new(alloc, code)?;
    let list = first_list(alloc, code)?;
    let blanks = first_blanks(alloc, code)?;
    Ok(First {
        cells,
        list,
        blanks,
    })
}

/// A task without code, and the initial one.
fn first_list(alloc: Global, code: &Code) -> Result<Vec<Task>, AllocError>
    ensures { IfOk result (λ list. AreFirst code.now list.items) }
{
    let main = Control::main(alloc, code)?;
    let mut list = Vec::new(alloc);
    list.push(task_with(None))?;
    list.push(task_with(Some(main)))?;
    Ok(list)
}
