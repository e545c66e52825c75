//! What follows from the definitions alone: each law is the contract of a function with an empty body.

ghost use Rattle.std.specs.Prelude.{◌≡◌, ◌⊎◌, ℕ, List, Ok, Err};
ghost use Rattle.c_tokens.specs.declared.token.Token.{Token};
ghost use Rattle.c_tokens.specs.declared.token.TokenFault.{TokenFault};
ghost use Rattle.c_tokens.specs.workings.Tokens.{tokens_of};
ghost use Rattle.c_tokens.specs.language.Places.{beginning};
ghost use Rattle.c_tokens.specs.language.Pieces.{Reads};
ghost use Rattle.c_tokens.specs.language.Ending.{EndsIn};

/// A text that has tokens is read as them, piece by piece.
pub fn tokens_are_read()
    ensures { (text : List ℕ) (tokens : List Token) → tokens_of text ≡ Ok tokens → Reads beginning text tokens }
{}

/// A text that is read as some tokens has them: so a text with a fault is read as none.
pub fn reading_is_tokens()
    ensures { (text : List ℕ) (tokens : List Token) → Reads beginning text tokens → tokens_of text ≡ Ok tokens }
{}

/// A text is read as one list of tokens at most.
pub fn one_list_of_tokens()
    ensures { (text : List ℕ) (first second : List Token) → Reads beginning text first → Reads beginning text second →
        first ≡ second }
{}

/// The fault of a text is that in which its reading ends, and there is no other.
pub fn faults_end_the_reading()
    ensures ended { (text : List ℕ) (fault : TokenFault) → tokens_of text ≡ Err fault → EndsIn beginning text fault }
    ensures fault { (text : List ℕ) (fault : TokenFault) → EndsIn beginning text fault → tokens_of text ≡ Err fault }
{}

/// Each text is read as tokens or ends in a fault, none does both, and a text ends in one fault at most.
pub fn read_or_ended()
    ensures either { (text : List ℕ) → ((tokens : List Token) × Reads beginning text tokens) ⊎
        ((fault : TokenFault) × EndsIn beginning text fault) }
    ensures not_both { (text : List ℕ) (tokens : List Token) (fault : TokenFault) → Reads beginning text tokens →
        EndsIn beginning text fault → ⊥ }
    ensures one_fault { (text : List ℕ) (first second : TokenFault) → EndsIn beginning text first →
        EndsIn beginning text second → first ≡ second }
{}
