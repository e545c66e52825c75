//! How a task's code goes on after an answer.

ghost use Rattle.std.specs.Prelude.{ℕ, ◌≡◌, ◌<◌, ◌+◌};
ghost use Rattle.c_model.specs.declared.question.Answer.TheVariants as of_answer;
ghost use Rattle.c_model.specs.Answers.{AnswersFirst, AnswersItem, IsChunkAnswer, IsLockAnswer, IsSectionAnswer};
ghost use Rattle.c_model.specs.AfterEvents as after_events;
ghost use Rattle.c_steps.specs.ControlView.{moment_at, task_at};
ghost use Rattle.c_steps.specs.Items.{item_at, loop_at, with_file};
ghost use Rattle.c_steps.specs.NodeTrees.{tree_of};
ghost use Rattle.c_steps.specs.OfProgram.{IsMadeFor};
ghost use Rattle.c_steps.specs.Moves.{ending};
ghost use Rattle.c_steps.specs.Passing.{IsGiven};
ghost use Rattle.c_steps.specs.Ready.{IsItem, IsLoop, IsStepping};

use crate::cells::Cells;
use crate::clauses::{section as nth_section, section_count};
use crate::code::Code;
use crate::control::Control;
use crate::frame::Frame;
use crate::item::{Item, Loop};
use crate::listed::{ListedPlace, first_listed};
use crate::node::Node;
use c_model::{Answer, MutexKind, Target, View, WorkKind};

/// What member 0 sees, who goes past nothing.
pub(super) const MEMBER_0: View = View {
    index: 0,
    team: 1,
    max: 1,
};

impl Control {
    /// Goes on after an answer to what the last advance asked. It ends the silent step that asked, but where a lock is free: then no step
    /// was made, and the event that the lock is owned stands next. One is taken from the room for silent steps. It takes no memory.
    #[tactic(auto, using(crate::proofs::Giving::given_answers_cases))]
    pub fn give(&mut self, code: &Code, cells: &mut Cells, answer: Answer)
        requires made { IsMadeFor code.now self.old }
        requires asked { AnswersFirst (task_at code.now self.old).todo answer }
        requires spare { 0 < self.old.spare }
        ensures went { moment_at code.now self.new cells.new ≡
            after_events.settled_after_answer answer (moment_at code.now self.old cells.old) }
        ensures spare { self.new.spare + 1 ≡ self.old.spare }
        ensures passes { self.new.passes ≡ self.old.passes }
        ensures made { IsMadeFor code.now self.new }
    {
        let Some(item) = self.settle(code, MEMBER_0) else {
            return;
        };
        self.go_on(code, cells, item, answer);
    }

    /// Goes on after an answer to what this item asks.
    #[tactic(auto, unfolding(c_model::specs::Answers::AnswersItem, c_model::specs::Answers::IsChunkAnswer))]
    fn go_on(&mut self, code: &Code, cells: &mut Cells, item: Item, answer: Answer)
        requires ready { IsStepping code.now self.old }
        requires item { IsItem code.now item }
        requires answer { AnswersItem (item_at code.now item) answer }
        ensures held { IsGiven code.now self.old self.new (after_events.items_answered answer (item_at code.now item)) }
        ensures cells { cells.new ≡ record cells.old {
          cells = after_events.cells_answered answer (item_at code.now item) cells.old.cells;
        } }
    {
        match item {
            Item::NextChunk(shared) => match answer {
                Answer::Chunk(chunk) => self.give_chunk(code, shared, chunk),
                _ => unreachable!(),
            },
            Item::NextSection { node, names } => {
                let node = Node { code, number: node };
                self.give_section(node, names, section_in(answer))
            }
            Item::TestLock { node, id, to } => {
                let node = Node { code, number: node };
                self.give_lock(cells, node, id, to, is_free_in(answer))
            }
            _ => {}
        }
    }

    /// The iterations of a chunk stand next, or, where none is left, the reductions and the end of the loop.
    #[tactic(auto, using(crate::proofs::Replacing::replaced_cases), unfolding(c_model::specs::Answers::IsChunkAnswer))]
    fn give_chunk(&mut self, code: &Code, shared: Loop, chunk: Option<(u64, u64)>)
        requires ready { IsStepping code.now self.old }
        requires shared { IsLoop code.now shared }
        requires chunk { IsChunkAnswer shared.count (of_answer.Chunk chunk) }
        ensures { IsGiven code.now self.old self.new (after_events.items_of_chunk (loop_at code.now shared) chunk) }
    {
        self.step();
        match chunk {
            Some((first, length)) => self.then(Item::Iterations {
                shared,
                at: first,
                upto: first + length,
            }),
            None => self.end_work(
                first_listed(),
                shared.construct,
                WorkKind::Loop,
                shared.count,
                shared.names,
            ),
        }
    }

    /// The reductions of a construct and the end of its work stand next.
    fn end_work(&mut self, from: ListedPlace, node: u32, kind: WorkKind, count: u64, names: usize)
        requires { 1 < self.old.frames_now }
        ensures { self.new ≡ ending from node kind count names self.old }
    {
        self.then(Item::EndWork {
            node,
            kind,
            count,
            names,
        });
        self.push(Frame::Combining {
            construct: node,
            from,
            names,
        });
    }

    /// A section stands next, or, where none is left, the reductions and the end of the sections.
    #[tactic(auto, using(crate::proofs::Replacing::step_then_two, crate::proofs::Replacing::step_ends))]
    fn give_section(&mut self, node: Node, names: usize, section: Option<u32>)
        requires { IsStepping node.code.now self.old }
        ensures { let program = node.entry.code.now in IsGiven program self.old self.new
            (after_events.items_of_section (tree_of node.entry) (with_file program names) section) }
    {
        match section {
            Some(number) => {
                let (node, statement) = (node.number, nth_section(node, number));
                self.step();
                self.then(Item::NextSection { node, names });
                self.then(Item::Start(statement));
            }
            None => {
                let (node, count) = (node.number, u64::from(section_count(node)));
                self.step();
                self.end_work(first_listed(), node, WorkKind::Sections, count, names);
            }
        }
    }

    /// The lock that a test waits for comes to be owned, or the test ends with 0.
    #[tactic(auto, using(crate::proofs::Replacing::step_then_two, crate::proofs::Replacing::step_delivers))]
    fn give_lock(&mut self, cells: &mut Cells, node: Node, id: u32, to: Target, free: bool)
        requires { IsStepping node.code.now self.old }
        ensures held { IsGiven node.entry.code.now self.old self.new
            (after_events.items_of_test (tree_of node.entry) id to free) }
        ensures cells { cells.new ≡ record cells.old { cells = after_events.cells_of_test to free cells.old.cells } }
    {
        self.step();
        if free {
            self.then(Item::Tested(to));
            self.then(Item::Acquire {
                node: node.number,
                kind: MutexKind::TestLock,
                id,
            });
        } else {
            self.deliver(cells, to, 0);
        }
    }
}

/// The section of an answer to what a construct's sections ask.
#[tactic(auto, unfolding(c_model::specs::Answers::IsSectionAnswer))]
fn section_in(answer: Answer) -> Option<u32>
    ensures { (count : ℕ) → IsSectionAnswer count answer → answer ≡ of_answer.Section result }
{
    match answer {
        Answer::Section(section) => section,
        _ => None,
    }
}

/// Whether the lock is free, of an answer to what a test asks.
#[tactic(auto, unfolding(c_model::specs::Answers::IsLockAnswer))]
fn is_free_in(answer: Answer) -> bool
    ensures { IsLockAnswer answer → answer ≡ of_answer.Free result }
{
    match answer {
        Answer::Free(free) => free,
        _ => false,
    }
}
