//! What follows from the definitions alone: each law is the contract of a function with an empty body.

ghost use Rattle.std.specs.Prelude.{ℕ, List};
ghost use Rattle.c_tokens.specs.declared.token.Spot.{Spot};
ghost use Rattle.c_syntax.specs.language.Numbered.{TreeView, root_tree};
ghost use Rattle.c_syntax.specs.language.Texts.{Spells};
ghost use Rattle.c_check.specs.declared.fault.CheckFault.TheVariants.{BadLoop, NotListed};
ghost use Rattle.c_check.specs.Checked.{Breaks};
ghost use Rattle.check_laws.specs.LoopForm.{BreaksLoopForm};
ghost use Rattle.check_laws.specs.ListedNames.{BreaksListing};

/// A program breaks the rule on loops at a place exactly where a `for` or `parallel for` construct of its tree stands there whose
/// statement is no loop of the form that such a construct can share out.
pub fn loop_form()
    ensures broken { (text : List ℕ) (program : TreeView) (spot : Spot) → Spells text (root_tree program) →
        Breaks program (BadLoop spot) → BreaksLoopForm (root_tree program) spot }
    ensures no_other { (text : List ℕ) (program : TreeView) (spot : Spot) → Spells text (root_tree program) →
        BreaksLoopForm (root_tree program) spot → Breaks program (BadLoop spot) }
{}

/// A program breaks the rule on listed names at a place exactly where a name is used there inside of a construct with `default(none)` of its
/// tree, which means a variable, an array or a lock that is declared outside, and which no data clause of the construct lists. Nor is it
/// the name of the variable of a loop that a directive inside shares out.
pub fn listed_names()
    ensures broken { (text : List ℕ) (program : TreeView) (spot : Spot) → Spells text (root_tree program) →
        Breaks program (NotListed spot) → BreaksListing (root_tree program) spot }
    ensures no_other { (text : List ℕ) (program : TreeView) (spot : Spot) → Spells text (root_tree program) →
        BreaksListing (root_tree program) spot → Breaks program (NotListed spot) }
{}
