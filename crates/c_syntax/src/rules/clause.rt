//! The rules of clauses.

ghost use Rattle.std.specs.Prelude.{◌≡◌};
ghost use Rattle.std.specs.Option.{option_copied};
ghost use Rattle.c_syntax.specs.workings.Grammar.{chunk_part, clause, clauses, default_word, defers, forks, has_data, kind_word, more_names, names, operator, reduces, schedules, shares, waits};

use super::Rule;
use crate::grammar::{Class, Sort, Step};
use crate::node::{Data, Default, Directive, Lead, NodeKind, ReductionOp, ScheduleKind};
use crate::term::Term;

/// A clause with what stands before it, and the further clauses.
macro_rules! clause_and_more {
    ($directive:ident, $lead:ident $(, $before:expr)?) => {
        Some(&[
            $($before,)?
            Step::Read(Sort::Clause(Directive::$directive)),
            Step::Wrap(NodeKind::Clause(Lead::$lead)),
            Step::Read(Sort::Clauses(Directive::$directive)),
        ])
    };
}

/// The clauses of a directive where a comma is next.
macro_rules! clauses_after_comma {
    ($directive:ident) => {
        clause_and_more!($directive, Comma, Step::Expect(Term::Comma))
    };
}

/// The clauses of a directive where a clause is next.
macro_rules! clauses_after_blank {
    ($directive:ident) => {
        clause_and_more!($directive, Blank)
    };
}

/// The rule that a macro writes for the directive.
macro_rules! rule_of {
    ($directive:expr, $rule:ident) => {
        match $directive {
            Directive::Parallel => $rule!(Parallel),
            Directive::For => $rule!(For),
            Directive::Sections => $rule!(Sections),
            Directive::Single => $rule!(Single),
            Directive::ParallelFor => $rule!(ParallelFor),
            Directive::ParallelSections => $rule!(ParallelSections),
            Directive::Masked => $rule!(Masked),
            Directive::Master => $rule!(Master),
            Directive::Critical => $rule!(Critical),
            Directive::Task => $rule!(Task),
        }
    };
}

/// The operator of a reduction and its names.
macro_rules! reduction {
    ($operator:ident, $kind:ident) => {
        Some(&[
            Step::Expect(Term::$operator),
            Step::Expect(Term::Colon),
            Step::Read(Sort::Names),
            Step::Expect(Term::CloseParen),
            Step::Make(NodeKind::Reduction(ReductionOp::$kind)),
        ])
    };
}

/// The kind of a schedule and its chunk.
macro_rules! schedule {
    ($kind:ident) => {
        Some(&[
            Step::Expect(Term::$kind),
            Step::Read(Sort::ChunkPart),
            Step::Expect(Term::CloseParen),
            Step::Make(NodeKind::Schedule(ScheduleKind::$kind)),
        ])
    };
}

/// `word ( part )`, which is a clause of this kind.
macro_rules! clause_with {
    ($word:ident, $part:ident, $kind:expr) => {
        Some(&[
            Step::Open,
            Step::Expect(Term::$word),
            Step::Expect(Term::OpenParen),
            Step::Read(Sort::$part),
            Step::Expect(Term::CloseParen),
            Step::Make($kind),
        ])
    };
}

/// `word ( names )`, for variables.
macro_rules! data_clause {
    ($data:ident) => {
        clause_with!($data, Names, NodeKind::Data(Data::$data))
    };
}

/// `word (` and what goes on by a word of its own.
macro_rules! clause_by_word {
    ($word:ident, $part:ident) => {
        Some(&[
            Step::Open,
            Step::Expect(Term::$word),
            Step::Expect(Term::OpenParen),
            Step::Read(Sort::$part),
        ])
    };
}

/// `{ [ , ] clause }`.
pub(super) fn clauses(directive: Directive, next: Term) -> Rule
    ensures { option_copied result ≡ clauses directive next }
{
    match next {
        Term::PragmaEnd => Some(&[]),
        Term::Comma => rule_of!(directive, clauses_after_comma),
        _ => rule_of!(directive, clauses_after_blank),
    }
}

/// `shared | none`.
pub(super) fn default_word(next: Term) -> Rule
    ensures { option_copied result ≡ default_word next }
{
    match next {
        Term::Shared => Some(&[
            Step::Expect(Term::Shared),
            Step::Expect(Term::CloseParen),
            Step::Make(NodeKind::Default(Default::Shared)),
        ]),
        Term::None => Some(&[
            Step::Expect(Term::None),
            Step::Expect(Term::CloseParen),
            Step::Make(NodeKind::Default(Default::None)),
        ]),
        _ => None,
    }
}

/// `( + | * | max | min ) : names`.
pub(super) fn operator(next: Term) -> Rule
    ensures { option_copied result ≡ operator next }
{
    match next {
        Term::Plus => reduction!(Plus, Add),
        Term::Star => reduction!(Star, Multiply),
        Term::Max => reduction!(Max, Max),
        Term::Min => reduction!(Min, Min),
        _ => None,
    }
}

/// `( static | dynamic | guided ) [ , number ]`.
pub(super) fn kind_word(next: Term) -> Rule
    ensures { option_copied result ≡ kind_word next }
{
    match next {
        Term::Static => schedule!(Static),
        Term::Dynamic => schedule!(Dynamic),
        Term::Guided => schedule!(Guided),
        _ => None,
    }
}

/// `[ , number ]`.
pub(super) fn chunk_part(next: Term) -> Rule
    ensures { option_copied result ≡ chunk_part next }
{
    match next {
        Term::Comma => Some(&[
            Step::Expect(Term::Comma),
            Step::Open,
            Step::Take(Class::Number),
            Step::Make(NodeKind::Number),
        ]),
        _ => Some(&[]),
    }
}

/// Name { , name }.
pub(super) fn names(_next: Term) -> Rule
    ensures { option_copied result ≡ names _next }
{
    Some(&[
        Step::Open,
        Step::Take(Class::Name),
        Step::Make(NodeKind::Name),
        Step::Read(Sort::MoreNames),
    ])
}

/// `.. { , name }`.
pub(super) fn more_names(next: Term) -> Rule
    ensures { option_copied result ≡ more_names next }
{
    match next {
        Term::Comma => Some(&[
            Step::Expect(Term::Comma),
            Step::Open,
            Step::Take(Class::Name),
            Step::Make(NodeKind::Name),
            Step::Read(Sort::MoreNames),
        ]),
        _ => Some(&[]),
    }
}

/// A clause that the directive has.
pub(super) fn clause(directive: Directive, next: Term) -> Rule
    ensures { option_copied result ≡ clause directive next }
{
    match next {
        Term::NumThreads if forks(directive) => clause_with!(
            NumThreads,
            Expr,
            NodeKind::NumThreads
        ),
        Term::Default if shares(directive) => clause_by_word!(Default, DefaultWord),
        Term::Shared if shares(directive) => data_clause!(Shared),
        Term::Private if has_data(directive) => data_clause!(Private),
        Term::Firstprivate if has_data(directive) => data_clause!(Firstprivate),
        Term::Reduction if reduces(directive) => clause_by_word!(Reduction, Operator),
        Term::Schedule if schedules(directive) => clause_by_word!(Schedule, Kind),
        Term::Nowait if waits(directive) => Some(&[
            Step::Open,
            Step::Expect(Term::Nowait),
            Step::Make(NodeKind::Nowait),
        ]),
        Term::If if defers(directive) => clause_with!(If, Expr, NodeKind::IfClause),
        _ => None,
    }
}

fn forks(directive: Directive) -> bool
    ensures { result ≡ forks directive }
{
    matches!(
        directive,
        Directive::Parallel | Directive::ParallelFor | Directive::ParallelSections
    )
}

fn shares(directive: Directive) -> bool
    ensures { result ≡ shares directive }
{
    matches!(
        directive,
        Directive::Parallel | Directive::ParallelFor | Directive::ParallelSections | Directive::Task
    )
}

fn has_data(directive: Directive) -> bool
    ensures { result ≡ has_data directive }
{
    matches!(
        directive,
        Directive::Parallel
            | Directive::For
            | Directive::Sections
            | Directive::Single
            | Directive::ParallelFor
            | Directive::ParallelSections
            | Directive::Task
    )
}

fn reduces(directive: Directive) -> bool
    ensures { result ≡ reduces directive }
{
    matches!(
        directive,
        Directive::Parallel
            | Directive::For
            | Directive::Sections
            | Directive::ParallelFor
            | Directive::ParallelSections
    )
}

fn schedules(directive: Directive) -> bool
    ensures { result ≡ schedules directive }
{
    matches!(directive, Directive::For | Directive::ParallelFor)
}

fn waits(directive: Directive) -> bool
    ensures { result ≡ waits directive }
{
    matches!(
        directive,
        Directive::For | Directive::Sections | Directive::Single
    )
}

fn defers(directive: Directive) -> bool
    ensures { result ≡ defers directive }
{
    matches!(directive, Directive::Task)
}
