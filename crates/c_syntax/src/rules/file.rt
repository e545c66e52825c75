//! The rules of a file: functions, variables and locks.

ghost use Rattle.std.specs.Prelude.{◌≡◌};
ghost use Rattle.std.specs.Option.{option_copied};
ghost use Rattle.c_syntax.specs.workings.Grammar.{after_int_name, body, global_rest, globals, initial, locks, more_globals, more_locks, more_params, parameters, program};

use super::Rule;
use crate::grammar::{Class, Sort, Step};
use crate::node::{NodeKind, Parameters, Returns, Sign};
use crate::term::Term;

/// `program = { include | global } end`.
pub(super) fn program(_next: Term) -> Rule
    ensures { option_copied result ≡ program _next }
{
    Some(&[
        Step::Open,
        Step::Read(Sort::Globals),
        Step::Expect(Term::End),
        Step::Make(NodeKind::Program),
    ])
}

/// The includes, functions, variables and locks of a file. What follows the word `void` counts as its block for the depth.
pub(super) fn globals(next: Term) -> Rule
    ensures { option_copied result ≡ globals next }
{
    match next {
        Term::Include => Some(&[
            Step::Open,
            Step::Expect(Term::Include),
            Step::Make(NodeKind::Include),
            Step::Read(Sort::Globals),
        ]),
        Term::Int => Some(&[
            Step::Open,
            Step::Expect(Term::Int),
            Step::Open,
            Step::Take(Class::Name),
            Step::Read(Sort::AfterIntName),
            Step::Read(Sort::Globals),
        ]),
        Term::Void => Some(&[
            Step::Open,
            Step::Deepen(Term::Void),
            Step::Open,
            Step::Take(Class::Name),
            Step::Make(NodeKind::Name),
            Step::Expect(Term::OpenParen),
            Step::Read(Sort::Body),
            Step::Make(NodeKind::Function(Returns::Void)),
            Step::Rise,
            Step::Read(Sort::Globals),
        ]),
        Term::LockType => Some(&[Step::Read(Sort::Locks), Step::Read(Sort::Globals)]),
        _ => Some(&[]),
    }
}

/// `int` and a name begin a function, or variables. What follows the parenthesis counts as its block for the depth.
pub(super) fn after_int_name(next: Term) -> Rule
    ensures { option_copied result ≡ after_int_name next }
{
    match next {
        Term::OpenParen => Some(&[
            Step::Make(NodeKind::Name),
            Step::Deepen(Term::OpenParen),
            Step::Read(Sort::Body),
            Step::Make(NodeKind::Function(Returns::Int)),
            Step::Rise,
        ]),
        _ => Some(&[
            Step::Read(Sort::GlobalRest),
            Step::Read(Sort::MoreGlobals),
            Step::Expect(Term::Semicolon),
            Step::Make(NodeKind::Globals),
        ]),
    }
}

/// `function = .. name ( params ) block`.
pub(super) fn body(_next: Term) -> Rule
    ensures { option_copied result ≡ body _next }
{
    Some(&[
        Step::Read(Sort::Params),
        Step::Expect(Term::CloseParen),
        Step::Open,
        Step::Expect(Term::OpenBrace),
        Step::Read(Sort::Items),
        Step::Expect(Term::CloseBrace),
        Step::Make(NodeKind::Block),
    ])
}

/// `params = [ void | int name { , int name } ]`.
pub(super) fn parameters(next: Term) -> Rule
    ensures { option_copied result ≡ parameters next }
{
    match next {
        Term::Void => Some(&[
            Step::Open,
            Step::Expect(Term::Void),
            Step::Make(NodeKind::Params(Parameters::Void)),
        ]),
        Term::Int => Some(&[
            Step::Open,
            Step::Expect(Term::Int),
            Step::Open,
            Step::Take(Class::Name),
            Step::Make(NodeKind::Name),
            Step::Read(Sort::MoreParams),
            Step::Make(NodeKind::Params(Parameters::Listed)),
        ]),
        _ => Some(&[Step::Open, Step::Make(NodeKind::Params(Parameters::Empty))]),
    }
}

/// `.. { , int name }`.
pub(super) fn more_params(next: Term) -> Rule
    ensures { option_copied result ≡ more_params next }
{
    match next {
        Term::Comma => Some(&[
            Step::Expect(Term::Comma),
            Step::Expect(Term::Int),
            Step::Open,
            Step::Take(Class::Name),
            Step::Make(NodeKind::Name),
            Step::Read(Sort::MoreParams),
        ]),
        _ => Some(&[]),
    }
}

/// `global variable = name [ [ number ] | = [ - ] number ]`.
pub(super) fn global_rest(next: Term) -> Rule
    ensures { option_copied result ≡ global_rest next }
{
    match next {
        Term::OpenBracket => Some(&[
            Step::Expect(Term::OpenBracket),
            Step::Take(Class::Number),
            Step::Expect(Term::CloseBracket),
            Step::Make(NodeKind::GlobalArray),
        ]),
        Term::Set => Some(&[Step::Expect(Term::Set), Step::Read(Sort::Initial)]),
        _ => Some(&[Step::Make(NodeKind::GlobalVar)]),
    }
}

/// `[ - ] number`.
pub(super) fn initial(next: Term) -> Rule
    ensures { option_copied result ≡ initial next }
{
    match next {
        Term::Minus => Some(&[
            Step::Expect(Term::Minus),
            Step::Take(Class::Number),
            Step::Make(NodeKind::GlobalSet(Sign::Minus)),
        ]),
        _ => Some(&[
            Step::Take(Class::Number),
            Step::Make(NodeKind::GlobalSet(Sign::Plus)),
        ]),
    }
}

/// `.. { , global variable }`.
pub(super) fn more_globals(next: Term) -> Rule
    ensures { option_copied result ≡ more_globals next }
{
    match next {
        Term::Comma => Some(&[
            Step::Expect(Term::Comma),
            Step::Open,
            Step::Take(Class::Name),
            Step::Read(Sort::GlobalRest),
            Step::Read(Sort::MoreGlobals),
        ]),
        _ => Some(&[]),
    }
}

/// `locks = omp_lock_t name { , name } ;`.
pub(super) fn locks(_next: Term) -> Rule
    ensures { option_copied result ≡ locks _next }
{
    Some(&[
        Step::Open,
        Step::Expect(Term::LockType),
        Step::Open,
        Step::Take(Class::Name),
        Step::Make(NodeKind::Name),
        Step::Read(Sort::MoreLocks),
        Step::Expect(Term::Semicolon),
        Step::Make(NodeKind::Locks),
    ])
}

/// `.. { , name }`.
pub(super) fn more_locks(next: Term) -> Rule
    ensures { option_copied result ≡ more_locks next }
{
    match next {
        Term::Comma => Some(&[
            Step::Expect(Term::Comma),
            Step::Open,
            Step::Take(Class::Name),
            Step::Make(NodeKind::Name),
            Step::Read(Sort::MoreLocks),
        ]),
        _ => Some(&[]),
    }
}
