//! What follows from the definitions alone: each law is the contract of a function with an empty body.

ghost use Rattle.std.specs.Prelude.{◌≡◌, ◌≤◌, ℕ, Bool, List, length};
ghost use Rattle.c_syntax.specs.language.Numbered.{TreeView, root_tree};
ghost use Rattle.c_syntax.specs.language.Tree.{Tree as Part};
ghost use Rattle.c_check.specs.Checked.{Checked};
ghost use Rattle.c_model.specs.declared.view.View.{View as Seen};
ghost use Rattle.c_model.specs.declared.point.Point.{Point as Event};
ghost use Rattle.c_model.specs.declared.point.Point.TheVariants.{TaskCreate};
ghost use Rattle.c_model.specs.declared.question.Answer.{Answer as Given};
ghost use Rattle.c_model.specs.Begin.{explicit_task, main_task, member_task};
ghost use Rattle.c_model.specs.AfterEvents.{after_answer, after_event};
ghost use Rattle.c_model.specs.Task.{Moment, Task};
ghost use Rattle.c_model.specs.Task.Outcome.{Occurs, StepsTo};
ghost use Rattle.c_model.specs.Step.{settled_task, silent};
ghost use Rattle.c_model.specs.Formed.{IsProgramFormed};
ghost use Rattle.c_model.specs.Scoped.{IsScoped, IsWellScoped};
ghost use Rattle.c_model.specs.UsedCells.{AreCopiesInScope, IsTaskMade};
ghost use Rattle.c_syntax.specs.language.Texts.{Spells};
ghost use Rattle.c_slots.specs.CodesOfRun.{ComesTo, IsWhole};
ghost use Rattle.c_slots.specs.OwnPlaces.{HasOwnPlaces};
ghost use Rattle.c_slots.specs.Slotted.{IsSlotted, IsWellSlotted};

/// In a text no two of the names that are declared or used and of the constructs stand at one place.
pub fn each_name_and_construct_has_its_own_place()
    ensures { (text : List ℕ) (program : TreeView) → Spells text (root_tree program) → HasOwnPlaces program }
{}

/// In a task's scope are the slots that the checker gives to the variables in scope where the task's code stands, now and in functions that go on
/// behind a call. The functions of a program that breaks no rule begin so, and so does main. It stays so in each silent step, behind each answer and
/// behind each event that a step comes to. The code of a member of a team begins so, where that of the task is so that forks the region, and the code of
/// an explicit task, where the creating task has come to its creation.
pub fn each_task_has_the_slots_in_scope()
    ensures checked { (program : TreeView) → HasOwnPlaces program → Checked program → IsProgramFormed program →
        IsWellSlotted program }
    ensures main { (program : TreeView) → IsWellSlotted program → IsSlotted program (main_task program) }
    ensures step { (program : TreeView) (view : Seen) (now next : Moment) → IsWellSlotted program →
        IsSlotted program now.task →
        silent program view now ≡ StepsTo next → IsSlotted program next.task }
    ensures answer { (program : TreeView) (view : Seen) (given : Given) (now : Moment) → IsSlotted program now.task →
        IsSlotted program (after_answer view given now).task }
    ensures event { (program : TreeView) (view : Seen) (point : Event) (executes : Bool) (now : Moment) (tree : Part) →
        IsWellSlotted program →
        IsSlotted program now.task → silent program view now ≡ Occurs point tree →
        IsSlotted program (after_event view point executes now.task) }
    ensures member { (program : TreeView) (task : Task) → IsSlotted program task →
        IsSlotted program (member_task task) }
    ensures explicit { (program : TreeView) (view : Seen) (now : Moment) (codeptr : ℕ) (undeferred : Bool)
        (tree : Part) → IsWellSlotted program →
        IsSlotted program now.task → silent program view now ≡ Occurs (TaskCreate codeptr undeferred) tree →
        IsSlotted program (explicit_task program view now).task }
    ensures settled { (program : TreeView) (view : Seen) (task : Task) → IsSlotted program task →
        IsSlotted program (settled_task view task) }
{}

/// The variables that an explicit task copies by rule, where its construct stands next, are in the scope of the task that creates it.
pub fn copies_are_in_scope()
    ensures { (program : TreeView) (task : Task) → IsWellSlotted program → IsSlotted program task →
        AreCopiesInScope program task }
{}

/// Each cell that an explicit task uses was made when the task begins, also those of the variables that it copies by rule.
pub fn each_cell_of_an_explicit_task_was_made()
    ensures { (program : TreeView) (view : Seen) (now : Moment) (codeptr : ℕ) (undeferred : Bool) (tree : Part) →
        IsWellScoped program →
        IsScoped program now.task → IsWellSlotted program → IsSlotted program now.task →
        IsTaskMade program (length now.store.cells) now.task →
        silent program view now ≡ Occurs (TaskCreate codeptr undeferred) tree →
        (IsTaskMade program (length (explicit_task program view now).store.cells)
        (explicit_task program view now).task) ×
        (length now.store.cells ≤ length (explicit_task program view now).store.cells) }
{}

/// Whatever a task of a text that breaks no rule comes to, all that it uses is there: no step of it meets a name that isn't in scope, a function that
/// there isn't, or a cell that wasn't made. So it is for main, for each member of a team and for each explicit task, from where it begins.
pub fn all_that_a_task_uses_is_there()
    ensures { (text : List ℕ) (program : TreeView) (now : Moment) → Spells text (root_tree program) → Checked program →
        ComesTo program now →
        IsWhole program now }
{}
