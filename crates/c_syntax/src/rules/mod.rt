//! The rules of the grammar: by which steps a sort of text is read. Each file here is a table: a function a sort, a row a word that may be
//! next, with the steps of the rule. Rows that are alike are different rules of the grammar.

ghost use Rattle.std.specs.Prelude.{◌≡◌};
ghost use Rattle.std.specs.Option.{option_copied};
ghost use Rattle.c_syntax.specs.workings.Grammar.{choice};

/// The call of a routine for a lock, `routine ( & name )`, with what stands before and behind it.
macro_rules! lock_call {
    ([$($before:expr),*], $routine:ident, $($after:expr),+) => {
        Some(&[
            $($before,)*
            Step::Open,
            Step::Expect(Term::$routine),
            Step::Expect(Term::OpenParen),
            Step::Expect(Term::Ampersand),
            Step::Open,
            Step::Take(Class::Name),
            Step::Make(NodeKind::Name),
            Step::Expect(Term::CloseParen),
            $($after),+
        ])
    };
}

/// The rule of a sort: each row has a sort and the function that has its rule, in the module that it stands under.
macro_rules! rule_by_row {
    ($what:expr, $next:expr, $($module:ident: $($sort:ident $(($part:ident))? => $rule:ident),+;)+) => {
        match $what {
            $($(Sort::$sort $(($part))? => $module::$rule($($part,)? $next),)+)+
        }
    };
}

mod assignment;
mod clause;
mod construct;
mod expression;
mod file;
mod statement;

use crate::grammar::{Sort, Step};
use crate::term::Term;

/// The steps that read something, or `None` where nothing of its sort begins with the next word.
pub type Rule = Option<&'static [Step]>;

/// By which steps something of this sort is read, where this word is next.
pub fn choice(what: Sort, next: Term) -> Rule
    ensures { option_copied result ≡ choice what next }
{
    rule_by_row!(
        what, next,
        file:
            Program => program, Globals => globals, AfterIntName => after_int_name, Body => body,
            Params => parameters, MoreParams => more_params, GlobalRest => global_rest,
            Initial => initial, MoreGlobals => more_globals, Locks => locks,
            MoreLocks => more_locks;
        statement:
            Block => block, Items => items, Locals => locals, LocalRest => local_rest,
            MoreLocals => more_locals, Statement => statement, PlainStatement => plain_statement,
            ElsePart => else_part, InitPart => init_part, CondPart => cond_part,
            StepPart => step_part, ReturnPart => return_part;
        assignment:
            Right => right, AfterRightName => after_right_name,
            AfterStatementName => after_statement_name, AfterPlace => after_place,
            AssignRight => assign_right, AfterAssignName => after_assign_name,
            StepRest => step_rest;
        expression:
            Place => place, Args => args, MoreArgs => more_args, Expr => expr, OrTail => or_tail,
            AndChain => and_chain, AndTail => and_tail, EqualChain => equal_chain,
            EqualTail => equal_tail, RelChain => rel_chain, RelTail => rel_tail,
            SumChain => sum_chain, SumTail => sum_tail, ProdChain => prod_chain,
            ProdTail => prod_tail, Unary => unary, IndexPart => index_part,
            AfterGetter(which) => after_getter;
        construct:
            ItemDirective => item_directive, Construct => construct,
            Behind(directive) => behind_directive, AfterParallel => after_parallel,
            CriticalName => critical_name, SectionsBody => sections_body,
            FirstSection => first_section, SectionOrConstruct => section_or_construct,
            MoreSections => more_sections;
        clause:
            Clauses(directive) => clauses, DefaultWord => default_word, Operator => operator,
            Kind => kind_word, ChunkPart => chunk_part, Names => names, MoreNames => more_names,
            Clause(directive) => clause;
    )
}
