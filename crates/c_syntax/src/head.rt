//! Where words leave off: in the head of a directive, or outside.

ghost use Rattle.std.specs.Prelude.{◌≡◌, ◌<◌, ◌≤◌, ◌+◌, ◌-◌, ◌^◌};
ghost use Rattle.c_syntax.specs.language.WordClasses.{is_getter, is_name, is_name_at, is_outside, is_reserved, is_routine, is_word};
ghost use Rattle.c_syntax.specs.workings.Derivation.{fits, is_number, is_text};
ghost use Rattle.c_syntax.specs.language.Heads.{behind, behind_bare, behind_clause, behind_directive, behind_inside, behind_outside, behind_schedule, behind_word, parentheses_of};

use crate::grammar::Class;
use crate::node::Getter;
use crate::term::Term;

/// Where the words so far leave off, in the head of a directive or outside. A head reaches from `#pragma omp` to the end of its
/// line.
#[derive(Clone, Copy)]
pub enum Head {
    /// Outside a head.
    Outside,
    /// Where a directive should stand.
    Directive,
    /// Behind a directive that has no clauses and no construct.
    Bare,
    /// Where a clause should stand.
    Clause,
    /// Behind the word of a clause.
    Word,
    /// Behind `schedule`.
    Schedule,
    /// Where the kind of a schedule should stand.
    Kind,
    /// Inside so many parentheses.
    Inside(u64),
}

impl Head {
    /// Where the words leave off with one more.
    pub fn behind(self, word: Term) -> Head
        requires { parentheses_of self < 2 ^ 64 - 1 }
        ensures behind { result ≡ behind self word }
        ensures deeper { parentheses_of result ≤ parentheses_of self + 1 }
    {
        match self {
            Head::Outside => behind_outside(word),
            Head::Directive => behind_directive(word),
            Head::Bare => behind_bare(word),
            Head::Clause => behind_clause(word),
            Head::Word => behind_word(word),
            Head::Schedule => behind_schedule(word),
            Head::Kind => Head::Inside(1),
            Head::Inside(count) => behind_inside(count, word),
        }
    }

    /// Whether the words leave off outside a head.
    pub fn is_outside(self) -> bool
        ensures { result ≡ is_outside self }
    {
        matches!(self, Head::Outside)
    }

    /// Whether a word is of a class here. In a head each word is a name.
    pub fn fits(self, class: Class, word: Term) -> bool
        ensures { result ≡ fits self class word }
    {
        match class {
            Class::Name if self.is_outside() => word.is_name(),
            Class::Name => word.is_word(),
            Class::Routine(which) => word.is_getter(which),
            Class::Number => matches!(word, Term::Number),
            Class::Text => matches!(word, Term::Text),
        }
    }
}

// The functions from here on are a table: one for each kind of head, mostly a row a word.
fn behind_outside(word: Term) -> Head
    ensures behind { result ≡ behind_outside word }
    ensures flat { parentheses_of result ≡ 0 }
{
    match word {
        Term::Pragma => Head::Directive,
        _ => Head::Outside,
    }
}

fn behind_directive(word: Term) -> Head
    ensures behind { result ≡ behind_directive word }
    ensures flat { parentheses_of result ≡ 0 }
{
    match word {
        Term::Barrier | Term::Taskwait | Term::Section => Head::Bare,
        _ => Head::Clause,
    }
}

fn behind_bare(word: Term) -> Head
    ensures behind { result ≡ behind_bare word }
    ensures flat { parentheses_of result ≡ 0 }
{
    match word {
        Term::PragmaEnd => Head::Outside,
        _ => Head::Bare,
    }
}

fn behind_clause(word: Term) -> Head
    ensures behind { result ≡ behind_clause word }
    ensures flat { parentheses_of result ≤ 1 }
{
    match word {
        Term::PragmaEnd => Head::Outside,
        Term::Comma | Term::Nowait | Term::For | Term::Sections => Head::Clause,
        Term::OpenParen => Head::Inside(1),
        Term::Schedule => Head::Schedule,
        _ => Head::Word,
    }
}

fn behind_word(word: Term) -> Head
    ensures behind { result ≡ behind_word word }
    ensures flat { parentheses_of result ≤ 1 }
{
    match word {
        Term::OpenParen => Head::Inside(1),
        _ => Head::Word,
    }
}

fn behind_schedule(word: Term) -> Head
    ensures behind { result ≡ behind_schedule word }
    ensures flat { parentheses_of result ≡ 0 }
{
    match word {
        Term::OpenParen => Head::Kind,
        _ => Head::Schedule,
    }
}

fn behind_inside(count: u64, word: Term) -> Head
    requires { count < 2 ^ 64 - 1 }
    ensures behind { result ≡ behind_inside count word }
    ensures deeper { parentheses_of result ≤ count + 1 }
{
    match word {
        Term::OpenParen => Head::Inside(count + 1),
        Term::CloseParen if count == 1 => Head::Clause,
        Term::CloseParen => Head::Inside(count.saturating_sub(1)),
        _ => Head::Inside(count),
    }
}

impl Term {
    /// Whether it is a name in the code: no word of the language and none of C.
    fn is_name(self) -> bool
        ensures { result ≡ is_name self }
    {
        matches!(
            self,
            Term::Parallel
                | Term::Sections
                | Term::Single
                | Term::Masked
                | Term::Master
                | Term::Critical
                | Term::Task
                | Term::Barrier
                | Term::Taskwait
                | Term::Section
                | Term::NumThreads
                | Term::Shared
                | Term::Private
                | Term::Firstprivate
                | Term::Reduction
                | Term::Schedule
                | Term::Nowait
                | Term::None
                | Term::Max
                | Term::Min
                | Term::Dynamic
                | Term::Guided
                | Term::OddDirective
                | Term::OddClause
                | Term::Ordered
                | Term::OddName
                | Term::Name
        )
    }

    /// Whether it is another word of the language or of C, but no routine that gives a number.
    fn is_reserved(self) -> bool
        ensures { result ≡ is_reserved self }
    {
        matches!(
            self,
            Term::Int
                | Term::Void
                | Term::If
                | Term::Else
                | Term::While
                | Term::For
                | Term::Return
                | Term::Printf
                | Term::LockType
                | Term::InitLock
                | Term::DestroyLock
                | Term::SetLock
                | Term::UnsetLock
                | Term::TestLock
                | Term::Default
                | Term::Static
                | Term::OddWord
        )
    }

    /// Whether it is a routine that gives a number.
    fn is_routine(self) -> bool
        ensures { result ≡ is_routine self }
    {
        matches!(
            self,
            Term::GetThreadNum | Term::GetNumThreads | Term::GetMaxThreads
        )
    }

    /// Whether it is a word: a name, or it would be one in the head of a directive.
    pub fn is_word(self) -> bool
        ensures { result ≡ is_word self }
    {
        self.is_name() || self.is_reserved() || self.is_routine()
    }

    /// Whether it is this routine.
    fn is_getter(self, which: Getter) -> bool
        ensures { result ≡ is_getter which self }
    {
        match which {
            Getter::ThreadNum => matches!(self, Term::GetThreadNum),
            Getter::NumThreads => matches!(self, Term::GetNumThreads),
            Getter::MaxThreads => matches!(self, Term::GetMaxThreads),
        }
    }
}
