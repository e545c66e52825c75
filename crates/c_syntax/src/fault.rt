//! Why words are no program. `number` and `spot` are tables, a row a fault.

ghost use Rattle.std.specs.Prelude.{◌≡◌, ◌≢◌};
ghost use Rattle.c_syntax.specs.language.Words.{Word};
ghost use Rattle.c_syntax.specs.language.Faults.{fault_number, fault_of, fault_spot, is_construct, is_odd_at, is_unknown_at};

use crate::head::Head;
use crate::term::Term;
use c_tokens::{NOWHERE, Spot};
use thiserror::Error;

/// Why a text is no program. The place is that of the first token at which no program goes on.
#[derive(Clone, Copy, Debug, PartialEq, Eq, Error)]
pub enum SyntaxFault {
    /// Number 4: no program goes on with this token.
    #[error("unexpected")]
    Unexpected(Spot),
    /// Number 5: a directive should stand here, and there is none of this name.
    #[error("unknown directive")]
    UnknownDirective(Spot),
    /// Number 6: this is a part of C or of OpenMP that is out of the language.
    #[error("out of profile")]
    OutOfProfile(Spot),
    /// Number 7: only the limit of the depth keeps a program from going on so.
    #[error("too deep")]
    TooDeep(Spot),
    /// No memory was left for the tree.
    #[error("memory")]
    Memory,
}

impl SyntaxFault {
    /// The fault of a word that may not follow, where the words before it leave off so.
    pub(crate) fn of(at: Head, word: Term, spot: Spot) -> SyntaxFault
        ensures fault { (next : Word) → next.term ≡ word → next.spot ≡ spot → result ≡ fault_of at next }
        ensures named { result ≢ SyntaxFault.Memory }
    {
        if is_odd_at(at, word) {
            SyntaxFault::OutOfProfile(spot)
        } else if is_unknown_at(at, word) {
            SyntaxFault::UnknownDirective(spot)
        } else {
            SyntaxFault::Unexpected(spot)
        }
    }

    /// The number that tells the fault: 4 to 7, in the order above, and 0 for want of memory.
    pub fn number(&self) -> u32
        ensures { result ≡ fault_number self.now }
    {
        match self {
            SyntaxFault::Unexpected(_) => 4,
            SyntaxFault::UnknownDirective(_) => 5,
            SyntaxFault::OutOfProfile(_) => 6,
            SyntaxFault::TooDeep(_) => 7,
            SyntaxFault::Memory => 0,
        }
    }

    /// The place of the fault: 0:0 for want of memory.
    pub fn spot(&self) -> Spot
        ensures { result ≡ fault_spot self.now }
    {
        match self {
            SyntaxFault::Unexpected(spot)
            | SyntaxFault::UnknownDirective(spot)
            | SyntaxFault::OutOfProfile(spot)
            | SyntaxFault::TooDeep(spot) => *spot,
            SyntaxFault::Memory => NOWHERE,
        }
    }
}

/// Whether a word is out of the language here.
fn is_odd_at(at: Head, word: Term) -> bool
    ensures { result ≡ is_odd_at at word }
{
    let odd = matches!(
        word,
        Term::OddLine
            | Term::OddSymbol
            | Term::Ampersand
            | Term::OddName
            | Term::OddWord
            | Term::Default
            | Term::Static
    );
    match at {
        Head::Directive => odd || matches!(word, Term::OddDirective | Term::Ordered),
        Head::Clause | Head::Kind => {
            odd || matches!(word, Term::OddClause | Term::Ordered | Term::If)
        }
        _ => odd,
    }
}

/// Whether a word should be a directive, and is none.
fn is_unknown_at(at: Head, word: Term) -> bool
    ensures { result ≡ is_unknown_at at word }
{
    match at {
        Head::Directive => word.is_word() && !is_construct(word),
        _ => false,
    }
}

/// Whether a word is a directive that has a statement.
fn is_construct(word: Term) -> bool
    ensures { result ≡ is_construct word }
{
    matches!(
        word,
        Term::Parallel
            | Term::For
            | Term::Sections
            | Term::Single
            | Term::Masked
            | Term::Master
            | Term::Critical
            | Term::Task
    )
}
