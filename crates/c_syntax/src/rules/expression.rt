//! The rules of expressions.

ghost use Rattle.std.specs.Prelude.{◌≡◌};
ghost use Rattle.std.specs.Option.{option_copied};
ghost use Rattle.c_syntax.specs.workings.Grammar.{after_getter, and_chain, and_tail, args, equal_chain, equal_tail, expr, index_part, more_args, or_tail, place, prod_chain, prod_tail, rel_chain, rel_tail, sum_chain, sum_tail, unary};

use super::Rule;
use crate::grammar::{Class, Sort, Step};
use crate::node::{BinaryOp, Getter, NodeKind, UnaryOp};
use crate::term::Term;

/// A name with the index that it may have.
const PLACE: &[Step] = &[
    Step::Open,
    Step::Take(Class::Name),
    Step::Read(Sort::IndexPart),
    Step::Make(NodeKind::Place),
];

/// An operator and its right operand, and further ones of its rank.
macro_rules! operator {
    ($operator:ident, $operand:ident, $kind:ident, $more:ident) => {
        Some(&[
            Step::Expect(Term::$operator),
            Step::Read(Sort::$operand),
            Step::Join(NodeKind::Binary(BinaryOp::$kind)),
            Step::Read(Sort::$more),
        ])
    };
}

/// An operator and its one operand.
macro_rules! unary_operator {
    ($operator:ident, $kind:ident) => {
        Some(&[
            Step::Open,
            Step::Deepen(Term::$operator),
            Step::Read(Sort::Unary),
            Step::Make(NodeKind::Unary(UnaryOp::$kind)),
            Step::Rise,
        ])
    };
}

/// A routine that gives a number.
macro_rules! getter {
    ($getter:ident) => {
        Some(&[
            Step::Open,
            Step::Take(Class::Routine(Getter::$getter)),
            Step::Read(Sort::AfterGetter(Getter::$getter)),
        ])
    };
}

/// `( )` behind such a routine.
macro_rules! getter_call {
    ($getter:ident) => {
        Some(&[
            Step::Expect(Term::OpenParen),
            Step::Expect(Term::CloseParen),
            Step::Make(NodeKind::Getter(Getter::$getter)),
        ])
    };
}

/// `place = name [ [ expression ] ]`.
pub(super) fn place(_next: Term) -> Rule
    ensures { option_copied result ≡ place _next }
{
    Some(PLACE)
}

/// `[ expression { , expression } ]`.
pub(super) fn args(next: Term) -> Rule
    ensures { option_copied result ≡ args next }
{
    match next {
        Term::CloseParen => Some(&[]),
        _ => Some(&[Step::Read(Sort::Expr), Step::Read(Sort::MoreArgs)]),
    }
}

/// `.. { , expression }`.
pub(super) fn more_args(next: Term) -> Rule
    ensures { option_copied result ≡ more_args next }
{
    match next {
        Term::Comma => Some(&[
            Step::Expect(Term::Comma),
            Step::Read(Sort::Expr),
            Step::Read(Sort::MoreArgs),
        ]),
        _ => Some(&[]),
    }
}

/// `expression = and { || and }`.
pub(super) fn expr(_next: Term) -> Rule
    ensures { option_copied result ≡ expr _next }
{
    Some(&[Step::Read(Sort::AndChain), Step::Read(Sort::OrTail)])
}

/// `.. { || and }`.
pub(super) fn or_tail(next: Term) -> Rule
    ensures { option_copied result ≡ or_tail next }
{
    match next {
        Term::OrOr => operator!(OrOr, AndChain, Or, OrTail),
        _ => Some(&[]),
    }
}

/// `and = equal { && equal }`.
pub(super) fn and_chain(_next: Term) -> Rule
    ensures { option_copied result ≡ and_chain _next }
{
    Some(&[Step::Read(Sort::EqualChain), Step::Read(Sort::AndTail)])
}

/// `.. { && equal }`.
pub(super) fn and_tail(next: Term) -> Rule
    ensures { option_copied result ≡ and_tail next }
{
    match next {
        Term::AndAnd => operator!(AndAnd, EqualChain, And, AndTail),
        _ => Some(&[]),
    }
}

/// `equal = rel { ( == | != ) rel }`.
pub(super) fn equal_chain(_next: Term) -> Rule
    ensures { option_copied result ≡ equal_chain _next }
{
    Some(&[Step::Read(Sort::RelChain), Step::Read(Sort::EqualTail)])
}

/// `.. { ( == | != ) rel }`.
pub(super) fn equal_tail(next: Term) -> Rule
    ensures { option_copied result ≡ equal_tail next }
{
    match next {
        Term::EqualEqual => operator!(EqualEqual, RelChain, Equal, EqualTail),
        Term::NotEqual => operator!(NotEqual, RelChain, NotEqual, EqualTail),
        _ => Some(&[]),
    }
}

/// `rel = sum { ( < | <= | > | >= ) sum }`.
pub(super) fn rel_chain(_next: Term) -> Rule
    ensures { option_copied result ≡ rel_chain _next }
{
    Some(&[Step::Read(Sort::SumChain), Step::Read(Sort::RelTail)])
}

/// `.. { ( < | <= | > | >= ) sum }`.
pub(super) fn rel_tail(next: Term) -> Rule
    ensures { option_copied result ≡ rel_tail next }
{
    match next {
        Term::Less => operator!(Less, SumChain, Less, RelTail),
        Term::LessEqual => operator!(LessEqual, SumChain, LessEqual, RelTail),
        Term::Greater => operator!(Greater, SumChain, Greater, RelTail),
        Term::GreaterEqual => operator!(GreaterEqual, SumChain, GreaterEqual, RelTail),
        _ => Some(&[]),
    }
}

/// `sum = prod { ( + | - ) prod }`.
pub(super) fn sum_chain(_next: Term) -> Rule
    ensures { option_copied result ≡ sum_chain _next }
{
    Some(&[Step::Read(Sort::ProdChain), Step::Read(Sort::SumTail)])
}

/// `.. { ( + | - ) prod }`.
pub(super) fn sum_tail(next: Term) -> Rule
    ensures { option_copied result ≡ sum_tail next }
{
    match next {
        Term::Plus => operator!(Plus, ProdChain, Add, SumTail),
        Term::Minus => operator!(Minus, ProdChain, Subtract, SumTail),
        _ => Some(&[]),
    }
}

/// `prod = unary { ( * | / | % ) unary }`.
pub(super) fn prod_chain(_next: Term) -> Rule
    ensures { option_copied result ≡ prod_chain _next }
{
    Some(&[Step::Read(Sort::Unary), Step::Read(Sort::ProdTail)])
}

/// `.. { ( * | / | % ) unary }`.
pub(super) fn prod_tail(next: Term) -> Rule
    ensures { option_copied result ≡ prod_tail next }
{
    match next {
        Term::Star => operator!(Star, Unary, Multiply, ProdTail),
        Term::Slash => operator!(Slash, Unary, Divide, ProdTail),
        Term::Percent => operator!(Percent, Unary, Remainder, ProdTail),
        _ => Some(&[]),
    }
}

/// `unary = ( - | ! ) unary | number | ( expression ) | getter ( ) | place`.
pub(super) fn unary(next: Term) -> Rule
    ensures { option_copied result ≡ unary next }
{
    match next {
        Term::Minus => unary_operator!(Minus, Negate),
        Term::Not => unary_operator!(Not, Not),
        Term::Number => Some(&[
            Step::Open,
            Step::Take(Class::Number),
            Step::Make(NodeKind::Number),
        ]),
        Term::OpenParen => Some(&[
            Step::Open,
            Step::Deepen(Term::OpenParen),
            Step::Read(Sort::Expr),
            Step::Expect(Term::CloseParen),
            Step::Make(NodeKind::Paren),
            Step::Rise,
        ]),
        Term::GetThreadNum => getter!(ThreadNum),
        Term::GetNumThreads => getter!(NumThreads),
        Term::GetMaxThreads => getter!(MaxThreads),
        _ => Some(PLACE),
    }
}

/// `[ [ expression ] ]`.
pub(super) fn index_part(next: Term) -> Rule
    ensures { option_copied result ≡ index_part next }
{
    match next {
        Term::OpenBracket => Some(&[
            Step::Deepen(Term::OpenBracket),
            Step::Read(Sort::Expr),
            Step::Expect(Term::CloseBracket),
            Step::Rise,
        ]),
        _ => Some(&[]),
    }
}

/// `.. ( )`, or in the head of a directive the routine's name as a place.
pub(super) fn after_getter(which: Getter, next: Term) -> Rule
    ensures { option_copied result ≡ after_getter which next }
{
    match next {
        Term::OpenParen => match which {
            Getter::ThreadNum => getter_call!(ThreadNum),
            Getter::NumThreads => getter_call!(NumThreads),
            Getter::MaxThreads => getter_call!(MaxThreads),
        },
        _ => Some(&[
            Step::InHead,
            Step::Read(Sort::IndexPart),
            Step::Make(NodeKind::Place),
        ]),
    }
}
