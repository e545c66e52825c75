//! What follows from the definitions alone: each law is the contract of a function with an empty body.

ghost use Rattle.std.specs.Prelude.{◌≡◌, ◌∷◌, ◌++◌, ◌↔◌, ◌⊎◌, [], ℕ, List};
ghost use Rattle.c_tokens.specs.declared.token.Token.{Token};
ghost use Rattle.c_tokens.specs.language.Places.{beginning};
ghost use Rattle.c_tokens.specs.language.Pieces.{Reads};
ghost use Rattle.c_syntax.specs.declared.fault.SyntaxFault.{SyntaxFault};
ghost use Rattle.c_syntax.specs.declared.term.Term.TheVariants.{End};
ghost use Rattle.c_syntax.specs.language.Words.{Word};
ghost use Rattle.c_syntax.specs.language.Tree.{Tree};
ghost use Rattle.c_syntax.specs.language.Productions.{GoesOn, IsProgram, depth_limit};
ghost use Rattle.c_syntax.specs.workings.Derivation.{CanGoOn, SpellsWithin};
ghost use Rattle.c_syntax.specs.declared.head.Head.{Head};
ghost use Rattle.c_syntax.specs.language.Words.{name_term};
ghost use Rattle.c_syntax.specs.language.Faults.{IsAnswered, IsFault, is_odd_at};
ghost use Rattle.c_syntax.specs.language.OutOfLanguage.{is_out_at};
ghost use Rattle.c_syntax.specs.language.Texts.{HasSyntaxFault, Spells};
ghost use Rattle.c_syntax.specs.language.Places.{HasOneConstructAPlace, HasOneNameAPlace};

/// A program has one tree, whatever the limit of the depth is.
pub fn one_tree()
    ensures { (limit : ℕ) (words : List Word) (first second : Tree) → IsProgram limit words first →
        IsProgram limit words second → first ≡ second }
{}

/// Words have at most one first fault.
pub fn one_fault()
    ensures { (words : List Word) (first second : SyntaxFault) → IsFault words first → IsFault words second →
        first ≡ second }
{}

/// No words are a program and have a fault.
pub fn tree_or_fault()
    ensures { (words : List Word) (tree : Tree) (found : SyntaxFault) → IsProgram depth_limit words tree →
        IsFault words found → ⊥ }
{}

/// Words that end with the end of the text are a program, or have a fault.
pub fn program_or_fault()
    ensures { (front : List Word) (last : Word) → last.term ≡ End → IsAnswered (front ++ last ∷ []) }
{}

/// A text whose tokens are read is a program with a tree or has a fault, not both, and one of them alone.
pub fn one_answer_of_a_text()
    ensures tree_or_fault { (text : List ℕ) (tokens : List Token) → Reads beginning text tokens →
        ((tree : Tree) × Spells text tree) ⊎ ((found : SyntaxFault) × HasSyntaxFault text found) }
    ensures not_both { (text : List ℕ) (tree : Tree) (found : SyntaxFault) → Spells text tree →
        HasSyntaxFault text found → ⊥ }
    ensures one_tree { (text : List ℕ) (first second : Tree) → Spells text first → Spells text second → first ≡ second }
    ensures one_fault { (text : List ℕ) (first second : SyntaxFault) → HasSyntaxFault text first →
        HasSyntaxFault text second → first ≡ second }
{}

/// The reader's table derives a tree from words exactly where the productions spell it so, whatever the limit of the depth is. So some words more make
/// the words a program by the one exactly where they do by the other.
pub fn table_is_the_grammar()
    ensures spelled { (limit : ℕ) (words : List Word) (tree : Tree) → IsProgram limit words tree ↔
        SpellsWithin limit words tree }
    ensures goes_on { (limit : ℕ) (words : List Word) → GoesOn limit words ↔ CanGoOn limit words }
{}

/// The tables of words have the words of the three lists and no others: a name is out of the language, wherever words leave off before it, exactly where
/// the list of that place has it, or where it begins with `omp_` and is no word of the language.
pub fn tables_have_the_words()
    ensures { (at : Head) (bytes : List ℕ) → is_odd_at at (name_term bytes) ≡ is_out_at at bytes }
{}

/// A spot tells a name: nodes of a program that have one, and stand at one spot, have the same.
pub fn one_name_a_place()
    ensures { (text : List ℕ) (tree : Tree) → Spells text tree → HasOneNameAPlace tree }
{}

/// A spot tells a construct: no two constructs of a program stand at one spot.
pub fn one_construct_a_place()
    ensures { (text : List ℕ) (tree : Tree) → Spells text tree → HasOneConstructAPlace tree }
{}
