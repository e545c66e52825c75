//! Silent steps: what a thread does between events.

ghost use Rattle.std.specs.Prelude.{◌≡◌, ◌+◌, ◌-◌, ◌<◌, ◌≤◌, ℕ, IfSome, Some, length};
ghost use Rattle.c_syntax.specs.language.Numbered.{tree_at};
ghost use Rattle.c_model.specs.declared.question.Answer.TheVariants as answers;
ghost use Rattle.c_model.specs.declared.question.Ask.TheVariants as asks;
ghost use Rattle.c_model.specs.Answers.{AnswersFirst};
ghost use Rattle.c_model.specs.Occurring.{IsAskOfNext};
ghost use Rattle.c_steps.specs.Ready.{FitsProgram};
ghost use Rattle.c_steps.specs.Scopes.{HasNumbers};
ghost use Rattle.omp_model.specs.declared.event.Arrival.TheVariants.{Steps};
ghost use Rattle.omp_model.specs.Changes.{with_masked_skipped};
ghost use Rattle.omp_model.specs.Gates.{arrival};
ghost use Rattle.omp_model.specs.Members.{code_of, current, view_of};
ghost use Rattle.omp_model.specs.Silent as silence;
ghost use Rattle.omp_model.specs.State.{task_at};
ghost use Rattle.omp_board.specs.Answering.{ComesTo, IsSettled, chunk_given, dealt, gone_as, section_given, told_answer};
ghost use Rattle.omp_board.specs.Board.{HasStep, HasStepsAhead, HasTurn, HaveStepped, IsFree, IsSilence};
ghost use Rattle.omp_board.specs.Tasks.{IsNamedIn, IsStill};

use crate::board::Board;
use c_model::{Answer, Ask, View};
use c_steps::Next;
use omp_model::{Halt, Share, ThreadStage};

impl Board {
    /// Makes the silent step of the thread that stands next, or tells the trap or limit that it meets.
    pub fn step(&mut self, thread: u8, view: View) -> Result<(), Halt>
        requires steps { arrival self.old.world thread ≡ Steps }
        requires view { view ≡ view_of self.old.world thread }
        requires numbers { HasNumbers view }
        requires room { HasStep self.old.room self.old.world thread }
        ensures silence { IsSilence self.old.program self.old.world thread result self.new.world }
        ensures program { self.new.program ≡ self.old.program }
        ensures room { self.new.room ≡ record self.old.room { steps = self.new.room.steps } }
        ensures steps { self.old.room.steps ≤ self.new.room.steps + 1 }
        ensures turn { HasTurn self.new.room self.new.world thread }
        ensures view { view ≡ view_of self.new.world thread }
    {
        match self.advance(thread, view) {
            Next::Ask(ask, node) => {
                self.answer(thread, ask, node);
                Ok(())
            }
            Next::Trap(number) => Err(Halt::Trap(number)),
            Next::Limit(number) => Err(Halt::Limit(number)),
            Next::Quiet => Ok(()),
            Next::Event(..) | Next::Ended(_) => unreachable!(),
        }
    }

    /// Makes silent steps of the thread one after another, at most so many, as long as each may be made without a look at what else the
    /// thread may come to, and answers how many it made.
    pub fn try_steps(&mut self, thread: u8, view: View, most: u32) -> u32
        requires view { view ≡ view_of self.old.world thread }
        requires numbers { HasNumbers view }
        requires room { HasStepsAhead self.old.room self.old.world thread most }
        ensures made { HaveStepped result self.old thread self.new }
        ensures most { result ≤ most }
    {
        match self.free_task(thread) {
            Some(task) => self.tasks.try_steps(task, view, most),
            None => 0,
        }
    }

    /// The current task of the thread, where nothing stands before the task's code.
    #[inline(always)]
    fn free_task(&self, thread: u8) -> Option<u32>
        ensures { IfSome result (IsFree self.now.world thread) }
    {
        let Some(found) = self.threads.get(thread as usize) else {
            return None;
        };
        match found.stage {
            ThreadStage::Unmade | ThreadStage::Made | ThreadStage::Ended => return None,
            ThreadStage::Begun => {}
        }
        if found.invited != 0 || found.undeferred != 0 {
            return None;
        }
        if let Some(_) = found.taken {
            return None;
        }
        let current = found.current();
        if current == 0 {
            return None;
        }
        Some(current)
    }

    /// Makes a silent step of the code of the thread's current task, or says what stands next.
    #[inline(always)]
    pub(super) fn advance(&mut self, thread: u8, view: View) -> Next
        requires numbers { HasNumbers view }
        requires room { HasStep self.old.room self.old.world thread }
        ensures outcome { ComesTo self.old.program view thread self.old.world result self.new.world }
        ensures rest { self.new ≡ record self.old {
          world = gone_as self.old.world thread self.new.world;
          room = record self.old.room { steps = self.new.room.steps };
        } }
        ensures steps { self.old.room.steps ≤ self.new.room.steps + 1 }
        ensures still { IsStill result → view ≡ view_of self.old.world thread →
            self.new ≡ record self.old { world = with_masked_skipped self.old.world thread } }
        ensures fits { FitsProgram self.old.program result }
        ensures named { IsNamedIn self.old.program result (code_of self.new.world thread).todo }
    {
        let task = self.current(thread);
        self.tasks.step(task, view)
    }

    /// What the code of the thread's current task asks is answered, in this construct or call.
    fn answer(&mut self, thread: u8, ask: Ask, node: u32)
        requires settled { IsSettled self.old.world thread }
        requires asked { IsAskOfNext ask (tree_at self.old.program.trees node) (code_of self.old.world thread).todo }
        requires room { HasStep self.old.room self.old.world thread }
        ensures { self.new ≡ record self.old {
          world = silence.answered self.old.world thread ask (tree_at self.old.program.trees node);
          room = record self.old.room { steps = self.old.room.steps - 1 };
        } }
    {
        let task = self.current(thread);
        let answer = self.reply(thread, task, ask);
        let share = self.share_in(node, answer);
        self.give(task, answer);
        self.share(thread, share);
    }

    /// What the team and the locks answer to what the code of the thread's current task asks. What the team deals counts as taken.
    fn reply(&mut self, thread: u8, task: u32, ask: Ask) -> Answer
        requires task { task ≡ current self.old.world thread }
        requires settled { IsSettled self.old.world thread }
        ensures answer { result ≡ silence.answer_to self.old.world thread ask }
        ensures taken { self.new ≡ record self.old { world = dealt self.old.world thread ask } }
    {
        match ask {
            Ask::Chunk => Answer::Chunk(self.take_chunk(thread, task)),
            Ask::Section => Answer::Section(self.take_section(thread, task)),
            Ask::LockFree(wait_id) => Answer::Free(!self.is_owned(wait_id)),
        }
    }

    /// The thread takes the next chunk of the loop that its current task shares out.
    fn take_chunk(&mut self, thread: u8, task: u32) -> Option<(u64, u64)>
        requires { task ≡ current self.old.world thread }
        ensures chunk { result ≡ chunk_given self.old.world thread }
        ensures taken { self.new ≡ record self.old { world = dealt self.old.world thread asks.Chunk } }
    {
        let (region, member) = self.place_in_team(thread);
        let chunk = self.regions.next_chunk(region, member);
        let (code, control) = self.tasks.code_of(task);
        fitting_chunk(control.asked_count(code), chunk)
    }

    /// The thread takes the next section of the construct that its current task is in.
    fn take_section(&mut self, thread: u8, task: u32) -> Option<u32>
        requires { task ≡ current self.old.world thread }
        ensures section { result ≡ section_given self.old.world thread }
        ensures taken { self.new ≡ record self.old { world = dealt self.old.world thread asks.Section } }
    {
        let (region, member) = self.place_in_team(thread);
        let section = self.regions.next_section(region, member);
        let (code, control) = self.tasks.code_of(task);
        let count = control.asked_sections(code);
        section.filter(|section| *section < count)
    }

    /// The share of the construct's work that the answer gives, if it gives one.
    fn share_in(&self, construct: u32, answer: Answer) -> Option<Share>
        requires { (section : ℕ) → answer ≡ answers.Section (Some section) → construct < length self.now.program.trees }
        ensures { result ≡ silence.share_taken (tree_at self.now.program.trees construct) answer }
    {
        match answer {
            Answer::Chunk(Some((start, count))) => Some(Share::Chunk { start, count }),
            Answer::Section(Some(section)) => {
                let place = self.tasks.section_place(construct, section);
                Some(Share::Section(place))
            }
            Answer::Chunk(None) | Answer::Section(None) | Answer::Free(_) => None,
        }
    }

    /// The code of the task goes on with the answer to what it has asked.
    pub(super) fn give(&mut self, task: u32, answer: Answer)
        requires task { self.old.room.task ≡ task }
        requires steps { 0 < self.old.room.steps }
        requires asked { AnswersFirst (task_at self.old.world task).code.todo answer }
        ensures { self.new ≡ record self.old {
          world = told_answer self.old.world task answer;
          room = record self.old.room { steps = self.old.room.steps - 1 };
        } }
    {
        self.tasks.give(task, answer);
    }
}

/// The chunk, if it has an iteration and lies within so many.
fn fitting_chunk(count: u64, chunk: Option<(u64, u64)>) -> Option<(u64, u64)>
    ensures { result ≡ silence.fitting_chunk count chunk }
{
    let (start, length) = chunk?;
    match start.checked_add(length) {
        Some(end) if length > 0 && end <= count => Some((start, length)),
        _ => None,
    }
}
