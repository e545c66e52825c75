//! What follows from the definitions alone: each law is the contract of a function with an empty body.

ghost use Rattle.std.specs.Prelude.{◌≡◌, ℕ, List, None, Some};
ghost use Rattle.c_syntax.specs.language.Numbered.{TreeView};
ghost use Rattle.c_check.specs.declared.acts.act.Act.{Act};
ghost use Rattle.c_check.specs.declared.fault.CheckFault.{CheckFault};
ghost use Rattle.c_check.specs.declared.scopes.declared.Declared.{Declared};
ghost use Rattle.c_check.specs.Checked.{Checked, after_all, rule_fault};
ghost use Rattle.c_check.specs.Declarations.{find};
ghost use Rattle.c_check.specs.First.{IsFirst};
ghost use Rattle.c_check.specs.Here.{before_all};
ghost use Rattle.c_check.specs.Nearest.{HasNoDeclaration, IsNearest};

/// The fault of a program is one that it has, and none that it has comes before. A program has none exactly where it breaks no rule.
pub fn first_fault()
    ensures first { (program : TreeView) (found : CheckFault) → rule_fault program ≡ Some found →
        IsFirst program found }
    ensures none { (program : TreeView) → rule_fault program ≡ None → Checked program }
    ensures checked { (program : TreeView) → Checked program → rule_fault program ≡ None }
{}

/// After some acts a name is that of the nearest enclosing declaration: the last one before it whose scope is still open. It is none
/// exactly where there is no such declaration.
pub fn nearest_declaration()
    ensures nearest { (main : ℕ) (acts : List Act) (name : ℕ) (found : Declared) →
        find (after_all (before_all main) acts).names.visible name ≡ Some found → IsNearest acts name found }
    ensures none { (main : ℕ) (acts : List Act) (name : ℕ) →
        find (after_all (before_all main) acts).names.visible name ≡ None → HasNoDeclaration acts name }
    ensures no_other { (main : ℕ) (acts : List Act) (name : ℕ) → HasNoDeclaration acts name →
        find (after_all (before_all main) acts).names.visible name ≡ None }
{}
