//! The rules of constructs.

ghost use Rattle.std.specs.Prelude.{◌≡◌};
ghost use Rattle.std.specs.Option.{option_copied};
ghost use Rattle.c_syntax.specs.workings.Grammar.{after_parallel, behind_directive, construct, critical_name, first_section, item_directive, more_sections, section_or_construct, sections_body};

use super::Rule;
use crate::grammar::{Class, Sort, Step};
use crate::node::{Directive, NodeKind, Standalone};
use crate::term::Term;

/// A directive without statement.
macro_rules! standalone {
    ($directive:ident) => {
        Some(&[
            Step::Expect(Term::$directive),
            Step::Expect(Term::PragmaEnd),
            Step::Make(NodeKind::Standalone(Standalone::$directive)),
        ])
    };
}

/// A construct from the first word of its directive on, which is read by this step.
macro_rules! construct_from {
    ($step:ident, $directive:ident) => {
        Some(&[
            Step::$step(Term::$directive),
            Step::Read(Sort::Behind(Directive::$directive)),
            Step::Rise,
        ])
    };
}

/// What a directive still has in its head, and what it stands before.
macro_rules! construct_with {
    ($directive:ident, [$($head:expr)?], $body:ident) => {
        Some(&[
            $(Step::Read($head),)?
            Step::Expect(Term::PragmaEnd),
            Step::Read(Sort::$body),
            Step::Make(NodeKind::Construct(Directive::$directive)),
        ])
    };
}

/// The same of a directive with clauses.
macro_rules! construct_with_clauses {
    ($directive:ident, $body:ident) => {
        construct_with!($directive, [Sort::Clauses(Directive::$directive)], $body)
    };
}

/// A directive without statement, or a construct, which counts for the depth only now.
pub(super) fn item_directive(next: Term) -> Rule
    ensures { option_copied result ≡ item_directive next }
{
    match next {
        Term::Barrier => standalone!(Barrier),
        Term::Taskwait => standalone!(Taskwait),
        Term::Parallel => construct_from!(Deepen, Parallel),
        Term::For => construct_from!(Deepen, For),
        Term::Sections => construct_from!(Deepen, Sections),
        Term::Single => construct_from!(Deepen, Single),
        Term::Masked => construct_from!(Deepen, Masked),
        Term::Master => construct_from!(Deepen, Master),
        Term::Critical => construct_from!(Deepen, Critical),
        Term::Task => construct_from!(Deepen, Task),
        _ => None,
    }
}

/// `construct = # directive { [ , ] clause } statement`, from the directive on.
pub(super) fn construct(next: Term) -> Rule
    ensures { option_copied result ≡ construct next }
{
    match next {
        Term::Parallel => construct_from!(Expect, Parallel),
        Term::For => construct_from!(Expect, For),
        Term::Sections => construct_from!(Expect, Sections),
        Term::Single => construct_from!(Expect, Single),
        Term::Masked => construct_from!(Expect, Masked),
        Term::Master => construct_from!(Expect, Master),
        Term::Critical => construct_from!(Expect, Critical),
        Term::Task => construct_from!(Expect, Task),
        _ => None,
    }
}

/// What follows the first word of a directive.
pub(super) fn behind_directive(directive: Directive, _next: Term) -> Rule
    ensures { option_copied result ≡ behind_directive directive _next }
{
    match directive {
        Directive::Parallel => Some(&[Step::Read(Sort::AfterParallel)]),
        Directive::For => construct_with_clauses!(For, Statement),
        Directive::Sections => construct_with_clauses!(Sections, SectionsBody),
        Directive::Single => construct_with_clauses!(Single, Statement),
        Directive::ParallelFor => construct_with_clauses!(ParallelFor, Statement),
        Directive::ParallelSections => construct_with_clauses!(ParallelSections, SectionsBody),
        Directive::Masked => construct_with!(Masked, [], Statement),
        Directive::Master => construct_with!(Master, [], Statement),
        Directive::Critical => construct_with!(Critical, [Sort::CriticalName], Statement),
        Directive::Task => construct_with_clauses!(Task, Statement),
    }
}

/// Parallel, parallel for, parallel sections.
pub(super) fn after_parallel(next: Term) -> Rule
    ensures { option_copied result ≡ after_parallel next }
{
    match next {
        Term::For => Some(&[
            Step::Expect(Term::For),
            Step::Read(Sort::Behind(Directive::ParallelFor)),
        ]),
        Term::Sections => Some(&[
            Step::Expect(Term::Sections),
            Step::Read(Sort::Behind(Directive::ParallelSections)),
        ]),
        _ => construct_with_clauses!(Parallel, Statement),
    }
}

/// `[ ( name ) ]`.
pub(super) fn critical_name(next: Term) -> Rule
    ensures { option_copied result ≡ critical_name next }
{
    match next {
        Term::OpenParen => Some(&[
            Step::Expect(Term::OpenParen),
            Step::Open,
            Step::Take(Class::Name),
            Step::Make(NodeKind::Name),
            Step::Expect(Term::CloseParen),
        ]),
        _ => Some(&[]),
    }
}

/// `{ ( statement | section ) { section } }`.
pub(super) fn sections_body(_next: Term) -> Rule
    ensures { option_copied result ≡ sections_body _next }
{
    Some(&[
        Step::Expect(Term::OpenBrace),
        Step::Read(Sort::FirstSection),
        Step::Read(Sort::MoreSections),
        Step::Expect(Term::CloseBrace),
    ])
}

/// `statement | section`.
pub(super) fn first_section(next: Term) -> Rule
    ensures { option_copied result ≡ first_section next }
{
    match next {
        Term::Pragma => Some(&[
            Step::Open,
            Step::Deepen(Term::Pragma),
            Step::Read(Sort::SectionOrConstruct),
        ]),
        _ => Some(&[Step::Read(Sort::PlainStatement)]),
    }
}

/// A construct goes on behind the head of its directive.
pub(super) fn section_or_construct(next: Term) -> Rule
    ensures { option_copied result ≡ section_or_construct next }
{
    match next {
        Term::Section => Some(&[
            Step::Expect(Term::Section),
            Step::Expect(Term::PragmaEnd),
            Step::Read(Sort::Statement),
            Step::Make(NodeKind::Section),
            Step::Rise,
        ]),
        _ => Some(&[Step::Read(Sort::Construct)]),
    }
}

/// `{ section }`.
pub(super) fn more_sections(next: Term) -> Rule
    ensures { option_copied result ≡ more_sections next }
{
    match next {
        Term::Pragma => Some(&[
            Step::Open,
            Step::Deepen(Term::Pragma),
            Step::Expect(Term::Section),
            Step::Expect(Term::PragmaEnd),
            Step::Read(Sort::Statement),
            Step::Make(NodeKind::Section),
            Step::Rise,
            Step::Read(Sort::MoreSections),
        ]),
        _ => Some(&[]),
    }
}
