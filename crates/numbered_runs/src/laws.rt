//! What follows from the definitions alone: the law is the contract of a function with an empty body.

ghost use Rattle.std.specs.Prelude.{◌≡◌, List};
ghost use Rattle.c_syntax.specs.language.Numbered.{TreeView};
ghost use Rattle.omp_model.specs.declared.history.Entry.{Entry};
ghost use Rattle.omp_model.specs.Cause.{cause_of};
ghost use Rattle.omp_model.specs.Legal.{Legal};
ghost use Rattle.omp_model.specs.State.{Run};
ghost use Rattle.numbered_runs.specs.Alike.{AreAlike};

/// Two programs with the same tree, end and `main` have the same legal histories, which end in the same causes, however their nodes are
/// numbered.
pub fn numbers_are_free()
    ensures { (run : Run) (other : TreeView) (history : List Entry) → AreAlike run.program other → Legal run history →
        Legal (record run { program = other }) history ×
        (cause_of (record run { program = other }) history ≡ cause_of run history) }
{}
