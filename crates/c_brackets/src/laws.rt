//! What follows from the definitions alone: each law is the contract of a function with an empty body.

ghost use Rattle.std.specs.Prelude.{◌≡◌, ◌⊎◌, Bool, None, ℕ, ℤ, []};
ghost use Rattle.c_syntax.specs.language.Numbered.{TreeView};
ghost use Rattle.c_syntax.specs.language.Tree.{Tree as Part};
ghost use Rattle.c_check.specs.Checked.{Checked};
ghost use Rattle.c_model.specs.declared.view.View.{View as Seen};
ghost use Rattle.c_model.specs.declared.point.Point.{Point as Event};
ghost use Rattle.c_model.specs.declared.point.Point.TheVariants.{TaskCreate};
ghost use Rattle.c_model.specs.declared.question.Answer.{Answer as Given};
ghost use Rattle.c_model.specs.Begin.{explicit_task, main_task, member_task};
ghost use Rattle.c_model.specs.Formed.{IsProgramFormed};
ghost use Rattle.c_model.specs.AfterEvents.{after_answer, after_event};
ghost use Rattle.c_model.specs.Step.{settled_task, silent};
ghost use Rattle.c_model.specs.Task.{Moment, Task};
ghost use Rattle.c_model.specs.Task.Outcome.{Ends, Occurs, StepsTo};
ghost use Rattle.c_brackets.specs.Effects.{ForksNext, LeadsTo, effect_of};
ghost use Rattle.c_brackets.specs.Links.{link_made, link_next, link_of};
ghost use Rattle.c_brackets.specs.Opened.{open_task};
ghost use Rattle.c_brackets.specs.Orderly.{IsOrderly};
ghost use Rattle.c_brackets.specs.Returns.{HasReturnsOutside};

/// In a program that breaks no rule no `return` stands in a construct.
pub fn returns_stand_outside_constructs()
    ensures { (program : TreeView) → Checked program → IsProgramFormed program → HasReturnsOutside program }
{}

/// The code of each task stands in order: where a function may end, nothing is open behind that in it, and a function that was called ends with its
/// return. Main begins so, and it stays so in each silent step, behind each answer and behind each event that a step comes to. The code of a member
/// of a team begins so, where that of the task is so that forks the region, and the code of an explicit task, where the creating task has come to its
/// creation.
pub fn code_stays_orderly()
    ensures main { (program : TreeView) → HasReturnsOutside program → IsOrderly (main_task program) }
    ensures step { (program : TreeView) (view : Seen) (now next : Moment) → HasReturnsOutside program →
        IsOrderly now.task →
        silent program view now ≡ StepsTo next → IsOrderly next.task }
    ensures answer { (view : Seen) (given : Given) (now : Moment) → IsOrderly now.task →
        IsOrderly (after_answer view given now).task }
    ensures event { (program : TreeView) (view : Seen) (point : Event) (executes : Bool) (now : Moment) (tree : Part) →
        HasReturnsOutside program →
        IsOrderly now.task → silent program view now ≡ Occurs point tree →
        IsOrderly (after_event view point executes now.task) }
    ensures member { (task : Task) → IsOrderly task → IsOrderly (member_task task) }
    ensures explicit { (program : TreeView) (view : Seen) (now : Moment) (codeptr : ℕ) (undeferred : Bool)
        (tree : Part) → HasReturnsOutside program →
        IsOrderly now.task → silent program view now ≡ Occurs (TaskCreate codeptr undeferred) tree →
        IsOrderly (explicit_task program view now).task }
    ensures settled { (view : Seen) (task : Task) → IsOrderly task → IsOrderly (settled_task view task) }
{}

/// An event opens what becomes the newest of what the code has open, or ends what was the newest, or leaves it. A silent step and an answer leave it.
/// No code begins with something open, and where it has ended nothing is.
pub fn code_has_open_what_events_began()
    ensures main { (program : TreeView) → open_task (main_task program) ≡ [] }
    ensures step { (program : TreeView) (view : Seen) (now next : Moment) → HasReturnsOutside program →
        IsOrderly now.task →
        silent program view now ≡ StepsTo next → open_task next.task ≡ open_task now.task }
    ensures answer { (view : Seen) (given : Given) (now : Moment) → IsOrderly now.task →
        open_task (after_answer view given now).task ≡ open_task now.task }
    ensures event { (program : TreeView) (view : Seen) (point : Event) (executes : Bool) (now : Moment) (tree : Part) →
        HasReturnsOutside program →
        IsOrderly now.task → silent program view now ≡ Occurs point tree →
        LeadsTo (effect_of point executes) (open_task now.task) (open_task (after_event view point executes now.task)) }
    ensures ended { (program : TreeView) (view : Seen) (now : Moment) (number : ℤ) → HasReturnsOutside program →
        IsOrderly now.task →
        silent program view now ≡ Ends number → open_task now.task ≡ [] }
    ensures member { (task : Task) → IsOrderly task → open_task (member_task task) ≡ [] }
    ensures explicit { (program : TreeView) (view : Seen) (now : Moment) →
        open_task (explicit_task program view now).task ≡ [] }
    ensures settled { (view : Seen) (task : Task) → IsOrderly task →
        open_task (settled_task view task) ≡ open_task task }
{}

/// A task has a forked region open where the region's end stands next, and then it is the newest of what is open, and the only one.
pub fn forked_regions_end_next()
    ensures { (task : Task) → IsOrderly task → ForksNext task.todo (open_task task) }
{}

/// The end of a forked region, an event of a barrier or taskwait but its first, and a lock or critical that was asked for stand next only behind the event
/// that leads to them: an event occurs behind what it has to follow, and the next one behind what it makes. No silent step lies between, and an answer
/// only where a lock was asked for, of which it may make an end.
pub fn events_follow_what_led_to_them()
    ensures main { (program : TreeView) → link_next (main_task program).todo ≡ None }
    ensures step { (program : TreeView) (view : Seen) (now next : Moment) → HasReturnsOutside program →
        IsOrderly now.task →
        silent program view now ≡ StepsTo next → link_next next.task.todo ≡ None }
    ensures answer { (view : Seen) (given : Given) (now : Moment) → IsOrderly now.task →
        (link_next (after_answer view given now).task.todo ≡ link_next now.task.todo) ⊎
        (link_next (after_answer view given now).task.todo ≡ None) }
    ensures follows { (program : TreeView) (view : Seen) (point : Event) (now : Moment) (tree : Part) →
        HasReturnsOutside program →
        IsOrderly now.task → silent program view now ≡ Occurs point tree → link_next now.task.todo ≡ link_of point }
    ensures makes { (program : TreeView) (view : Seen) (point : Event) (executes : Bool) (now : Moment) (tree : Part) →
        HasReturnsOutside program →
        IsOrderly now.task → silent program view now ≡ Occurs point tree →
        link_next (after_event view point executes now.task).todo ≡ link_made point }
    ensures member { (task : Task) → link_next (member_task task).todo ≡ None }
    ensures explicit { (program : TreeView) (view : Seen) (now : Moment) →
        link_next (explicit_task program view now).task.todo ≡ None }
    ensures settled { (view : Seen) (task : Task) → IsOrderly task →
        link_next (settled_task view task).todo ≡ link_next task.todo }
{}
