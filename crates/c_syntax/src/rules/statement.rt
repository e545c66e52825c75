//! The rules of blocks and statements.

ghost use Rattle.std.specs.Prelude.{◌≡◌};
ghost use Rattle.std.specs.Option.{option_copied};
ghost use Rattle.c_syntax.specs.workings.Grammar.{block, cond_part, else_part, init_part, items, local_rest, locals, more_locals, plain_statement, return_part, statement, step_part};

use super::Rule;
use crate::grammar::{Class, Sort, Step};
use crate::node::{Bump, LockCall, NodeKind, Side};
use crate::term::Term;

/// `if ( expression ) statement [ else statement ]`.
const IF: &[Step] = &[
    Step::Open,
    Step::Deepen(Term::If),
    Step::Expect(Term::OpenParen),
    Step::Read(Sort::Expr),
    Step::Expect(Term::CloseParen),
    Step::Read(Sort::Statement),
    Step::Read(Sort::ElsePart),
    Step::Make(NodeKind::If),
    Step::Rise,
];

/// `while ( expression ) statement`.
const WHILE: &[Step] = &[
    Step::Open,
    Step::Deepen(Term::While),
    Step::Expect(Term::OpenParen),
    Step::Read(Sort::Expr),
    Step::Expect(Term::CloseParen),
    Step::Read(Sort::Statement),
    Step::Make(NodeKind::While),
    Step::Rise,
];

/// `for ( [ .. ] ; [ expression ] ; [ step ] ) statement`.
const FOR: &[Step] = &[
    Step::Open,
    Step::Deepen(Term::For),
    Step::Expect(Term::OpenParen),
    Step::Read(Sort::InitPart),
    Step::Expect(Term::Semicolon),
    Step::Read(Sort::CondPart),
    Step::Expect(Term::Semicolon),
    Step::Read(Sort::StepPart),
    Step::Expect(Term::CloseParen),
    Step::Read(Sort::Statement),
    Step::Make(NodeKind::For),
    Step::Rise,
];

/// `return [ right ] ;`.
const RETURN: &[Step] = &[
    Step::Open,
    Step::Expect(Term::Return),
    Step::Read(Sort::ReturnPart),
    Step::Expect(Term::Semicolon),
    Step::Make(NodeKind::Return),
];

/// `printf ( text { , expression } ) ;`.
const PRINT: &[Step] = &[
    Step::Open,
    Step::Expect(Term::Printf),
    Step::Expect(Term::OpenParen),
    Step::Take(Class::Text),
    Step::Read(Sort::MoreArgs),
    Step::Expect(Term::CloseParen),
    Step::Expect(Term::Semicolon),
    Step::Make(NodeKind::Print),
];

/// The call of a routine that does something with a lock, as a statement.
macro_rules! lock_statement {
    ($routine:ident, $call:ident) => {
        lock_call!(
            [],
            $routine,
            Step::Expect(Term::Semicolon),
            Step::Make(NodeKind::LockCall(LockCall::$call))
        )
    };
}

/// `++` or `--` before a place, with what stands before and behind it.
macro_rules! bump {
    ([$($before:expr)?], $operator:ident, $bump:ident $(, $after:expr)*) => {
        Some(&[
            $($before,)?
            Step::Open,
            Step::Expect(Term::$operator),
            Step::Read(Sort::Place),
            Step::Make(NodeKind::Bump(Bump::$bump, Side::Before)),
            $($after),*
        ])
    };
}

/// The same as a statement.
macro_rules! bump_statement {
    ($operator:ident, $bump:ident) => {
        bump!(
            [Step::Open],
            $operator,
            $bump,
            Step::Expect(Term::Semicolon),
            Step::Make(NodeKind::Step)
        )
    };
}

/// `block = { { item } }`.
pub(super) fn block(_next: Term) -> Rule
    ensures { option_copied result ≡ block _next }
{
    Some(&[
        Step::Open,
        Step::Deepen(Term::OpenBrace),
        Step::Read(Sort::Items),
        Step::Expect(Term::CloseBrace),
        Step::Make(NodeKind::Block),
        Step::Rise,
    ])
}

/// `item = variables | locks | statement | directive without statement`.
pub(super) fn items(next: Term) -> Rule
    ensures { option_copied result ≡ items next }
{
    match next {
        Term::CloseBrace => Some(&[]),
        Term::Int => Some(&[Step::Read(Sort::Locals), Step::Read(Sort::Items)]),
        Term::LockType => Some(&[Step::Read(Sort::Locks), Step::Read(Sort::Items)]),
        Term::Pragma => Some(&[
            Step::Open,
            Step::Expect(Term::Pragma),
            Step::Read(Sort::ItemDirective),
            Step::Read(Sort::Items),
        ]),
        _ => Some(&[Step::Read(Sort::PlainStatement), Step::Read(Sort::Items)]),
    }
}

/// Int variable { , variable } ;.
pub(super) fn locals(_next: Term) -> Rule
    ensures { option_copied result ≡ locals _next }
{
    Some(&[
        Step::Open,
        Step::Expect(Term::Int),
        Step::Open,
        Step::Take(Class::Name),
        Step::Read(Sort::LocalRest),
        Step::Read(Sort::MoreLocals),
        Step::Expect(Term::Semicolon),
        Step::Make(NodeKind::Locals),
    ])
}

/// `variable = name [ [ number ] | = right ]`.
pub(super) fn local_rest(next: Term) -> Rule
    ensures { option_copied result ≡ local_rest next }
{
    match next {
        Term::OpenBracket => Some(&[
            Step::Expect(Term::OpenBracket),
            Step::Take(Class::Number),
            Step::Expect(Term::CloseBracket),
            Step::Make(NodeKind::LocalArray),
        ]),
        Term::Set => Some(&[
            Step::Expect(Term::Set),
            Step::Read(Sort::Right),
            Step::Make(NodeKind::LocalSet),
        ]),
        _ => Some(&[Step::Make(NodeKind::LocalVar)]),
    }
}

/// `.. { , variable }`.
pub(super) fn more_locals(next: Term) -> Rule
    ensures { option_copied result ≡ more_locals next }
{
    match next {
        Term::Comma => Some(&[
            Step::Expect(Term::Comma),
            Step::Open,
            Step::Take(Class::Name),
            Step::Read(Sort::LocalRest),
            Step::Read(Sort::MoreLocals),
        ]),
        _ => Some(&[]),
    }
}

/// `statement = plain statement | construct`.
pub(super) fn statement(next: Term) -> Rule
    ensures { option_copied result ≡ statement next }
{
    match next {
        Term::Pragma => Some(&[
            Step::Open,
            Step::Deepen(Term::Pragma),
            Step::Read(Sort::Construct),
        ]),
        _ => Some(&[Step::Read(Sort::PlainStatement)]),
    }
}

/// The statements that are no constructs.
pub(super) fn plain_statement(next: Term) -> Rule
    ensures { option_copied result ≡ plain_statement next }
{
    match next {
        Term::Semicolon => Some(&[
            Step::Open,
            Step::Expect(Term::Semicolon),
            Step::Make(NodeKind::Empty),
        ]),
        Term::OpenBrace => Some(&[Step::Read(Sort::Block)]),
        Term::If => Some(IF),
        Term::While => Some(WHILE),
        Term::For => Some(FOR),
        Term::Return => Some(RETURN),
        Term::Printf => Some(PRINT),
        Term::InitLock => lock_statement!(InitLock, Init),
        Term::DestroyLock => lock_statement!(DestroyLock, Destroy),
        Term::SetLock => lock_statement!(SetLock, Set),
        Term::UnsetLock => lock_statement!(UnsetLock, Unset),
        Term::TestLock => lock_call!(
            [Step::Open],
            TestLock,
            Step::Make(NodeKind::TestLock),
            Step::Expect(Term::Semicolon),
            Step::Make(NodeKind::Called)
        ),
        Term::PlusPlus => bump_statement!(PlusPlus, Increment),
        Term::MinusMinus => bump_statement!(MinusMinus, Decrement),
        _ => Some(&[
            Step::Open,
            Step::Take(Class::Name),
            Step::Read(Sort::AfterStatementName),
        ]),
    }
}

/// `[ else statement ]`. It belongs to the nearest `if`, since it is absent only where no `else` stands.
pub(super) fn else_part(next: Term) -> Rule
    ensures { option_copied result ≡ else_part next }
{
    match next {
        Term::Else => Some(&[Step::Expect(Term::Else), Step::Read(Sort::Statement)]),
        _ => Some(&[Step::Skip]),
    }
}

/// `[ int name = expression | step ]`.
pub(super) fn init_part(next: Term) -> Rule
    ensures { option_copied result ≡ init_part next }
{
    match next {
        Term::Semicolon => Some(&[Step::Skip]),
        Term::Int => Some(&[
            Step::Open,
            Step::Expect(Term::Int),
            Step::Open,
            Step::Take(Class::Name),
            Step::Make(NodeKind::Name),
            Step::Expect(Term::Set),
            Step::Read(Sort::Expr),
            Step::Make(NodeKind::Init),
        ]),
        Term::PlusPlus => bump!([], PlusPlus, Increment),
        Term::MinusMinus => bump!([], MinusMinus, Decrement),
        _ => Some(&[Step::Read(Sort::Place), Step::Read(Sort::StepRest)]),
    }
}

/// `[ expression ]`.
pub(super) fn cond_part(next: Term) -> Rule
    ensures { option_copied result ≡ cond_part next }
{
    match next {
        Term::Semicolon => Some(&[Step::Skip]),
        _ => Some(&[Step::Read(Sort::Expr)]),
    }
}

/// `[ step ]`.
pub(super) fn step_part(next: Term) -> Rule
    ensures { option_copied result ≡ step_part next }
{
    match next {
        Term::CloseParen => Some(&[Step::Skip]),
        Term::PlusPlus => bump!([], PlusPlus, Increment),
        Term::MinusMinus => bump!([], MinusMinus, Decrement),
        _ => Some(&[Step::Read(Sort::Place), Step::Read(Sort::StepRest)]),
    }
}

/// `[ right ]`.
pub(super) fn return_part(next: Term) -> Rule
    ensures { option_copied result ≡ return_part next }
{
    match next {
        Term::Semicolon => Some(&[]),
        _ => Some(&[Step::Read(Sort::Right)]),
    }
}
