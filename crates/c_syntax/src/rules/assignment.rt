//! The rules of what begins with a name: assignments, calls and steps.

ghost use Rattle.std.specs.Prelude.{◌≡◌};
ghost use Rattle.std.specs.Option.{option_copied};
ghost use Rattle.c_syntax.specs.workings.Grammar.{after_assign_name, after_place, after_right_name, after_statement_name, assign_right, right, step_rest};

use super::Rule;
use crate::grammar::{Class, Sort, Step};
use crate::node::{Bump, NodeKind, Setting, Side};
use crate::term::Term;

/// An expression that a unary part begins, and what follows it.
macro_rules! expression {
    ($($after:expr),*) => {
        Some(&[
            Step::Read(Sort::Unary),
            Step::Read(Sort::ProdTail),
            Step::Read(Sort::SumTail),
            Step::Read(Sort::RelTail),
            Step::Read(Sort::EqualTail),
            Step::Read(Sort::AndTail),
            Step::Read(Sort::OrTail),
            $($after),*
        ])
    };
}

/// The rest of an expression whose first part is the place of a name that was read, and what follows it.
macro_rules! rest_of_expression {
    ($($after:expr),*) => {
        Some(&[
            Step::Read(Sort::IndexPart),
            Step::Make(NodeKind::Place),
            Step::Read(Sort::ProdTail),
            Step::Read(Sort::SumTail),
            Step::Read(Sort::RelTail),
            Step::Read(Sort::EqualTail),
            Step::Read(Sort::AndTail),
            Step::Read(Sort::OrTail),
            $($after),*
        ])
    };
}

/// `( arguments )` behind the name of a function, and what follows.
macro_rules! rest_of_call {
    ($($after:expr),*) => {
        Some(&[
            Step::Expect(Term::OpenParen),
            Step::Read(Sort::Args),
            Step::Expect(Term::CloseParen),
            Step::Make(NodeKind::Call),
            $($after),*
        ])
    };
}

/// What sets a place to an expression, and what follows.
macro_rules! sets {
    ($operator:ident, $setting:ident $(, $after:expr)*) => {
        Some(&[
            Step::Expect(Term::$operator),
            Step::Read(Sort::Expr),
            Step::Join(NodeKind::Assign(Setting::$setting)),
            $($after),*
        ])
    };
}

/// `++` or `--` behind a place, and what follows.
macro_rules! bumps {
    ($operator:ident, $bump:ident $(, $after:expr)*) => {
        Some(&[
            Step::Expect(Term::$operator),
            Step::Wrap(NodeKind::Bump(Bump::$bump, Side::Behind)),
            $($after),*
        ])
    };
}

/// A step as a statement.
macro_rules! statement_that {
    ($step:ident, $operator:ident, $how:ident) => {
        $step!($operator, $how, Step::Wrap(NodeKind::Step), Step::Expect(Term::Semicolon))
    };
}

/// `right = expression | call`. A name may begin either.
pub(super) fn right(next: Term) -> Rule
    ensures { option_copied result ≡ right next }
{
    match next {
        Term::TestLock => lock_call!([], TestLock, Step::Make(NodeKind::TestLock)),
        Term::Number
        | Term::OpenParen
        | Term::Minus
        | Term::Not
        | Term::GetThreadNum
        | Term::GetNumThreads
        | Term::GetMaxThreads => expression!(),
        _ => Some(&[
            Step::Open,
            Step::Take(Class::Name),
            Step::Read(Sort::AfterRightName),
        ]),
    }
}

/// The name goes on as a call, or as a place in an expression.
pub(super) fn after_right_name(next: Term) -> Rule
    ensures { option_copied result ≡ after_right_name next }
{
    match next {
        Term::OpenParen => rest_of_call!(),
        _ => rest_of_expression!(),
    }
}

/// A call ; or what is done with a place.
pub(super) fn after_statement_name(next: Term) -> Rule
    ensures { option_copied result ≡ after_statement_name next }
{
    match next {
        Term::OpenParen => rest_of_call!(
            Step::Wrap(NodeKind::Called),
            Step::Expect(Term::Semicolon)
        ),
        _ => Some(&[
            Step::Read(Sort::IndexPart),
            Step::Make(NodeKind::Place),
            Step::Read(Sort::AfterPlace),
        ]),
    }
}

/// `place = right ; | step ;`.
pub(super) fn after_place(next: Term) -> Rule
    ensures { option_copied result ≡ after_place next }
{
    match next {
        Term::Set => Some(&[
            Step::Expect(Term::Set),
            Step::Read(Sort::AssignRight),
            Step::Expect(Term::Semicolon),
        ]),
        Term::PlusSet => statement_that!(sets, PlusSet, Add),
        Term::MinusSet => statement_that!(sets, MinusSet, Subtract),
        Term::TimesSet => statement_that!(sets, TimesSet, Multiply),
        Term::SlashSet => statement_that!(sets, SlashSet, Divide),
        Term::PercentSet => statement_that!(sets, PercentSet, Remainder),
        Term::PlusPlus => statement_that!(bumps, PlusPlus, Increment),
        Term::MinusMinus => statement_that!(bumps, MinusMinus, Decrement),
        _ => None,
    }
}

/// An assignment of an expression is a step, one of a call is not.
pub(super) fn assign_right(next: Term) -> Rule
    ensures { option_copied result ≡ assign_right next }
{
    match next {
        Term::TestLock => lock_call!(
            [],
            TestLock,
            Step::Make(NodeKind::TestLock),
            Step::Join(NodeKind::SetCall)
        ),
        Term::Number
        | Term::OpenParen
        | Term::Minus
        | Term::Not
        | Term::GetThreadNum
        | Term::GetNumThreads
        | Term::GetMaxThreads => {
            expression!(
                Step::Join(NodeKind::Assign(Setting::Plain)),
                Step::Wrap(NodeKind::Step)
            )
        }
        _ => Some(&[
            Step::Open,
            Step::Take(Class::Name),
            Step::Read(Sort::AfterAssignName),
        ]),
    }
}

/// The name there goes on.
pub(super) fn after_assign_name(next: Term) -> Rule
    ensures { option_copied result ≡ after_assign_name next }
{
    match next {
        Term::OpenParen => rest_of_call!(Step::Join(NodeKind::SetCall)),
        _ => rest_of_expression!(
            Step::Join(NodeKind::Assign(Setting::Plain)),
            Step::Wrap(NodeKind::Step)
        ),
    }
}

/// `step = place ( = | += | -= | *= | /= | %= ) expression | place ++ | place -- | ++ place | -- place`.
pub(super) fn step_rest(next: Term) -> Rule
    ensures { option_copied result ≡ step_rest next }
{
    match next {
        Term::Set => sets!(Set, Plain),
        Term::PlusSet => sets!(PlusSet, Add),
        Term::MinusSet => sets!(MinusSet, Subtract),
        Term::TimesSet => sets!(TimesSet, Multiply),
        Term::SlashSet => sets!(SlashSet, Divide),
        Term::PercentSet => sets!(PercentSet, Remainder),
        Term::PlusPlus => bumps!(PlusPlus, Increment),
        Term::MinusMinus => bumps!(MinusMinus, Decrement),
        _ => None,
    }
}
