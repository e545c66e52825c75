//! The parts of a directive: its clauses, and its statement.

ghost use Rattle.std.specs.Prelude.{◌≡◌, ◌<◌, length, slice_index_or, IfSome};
ghost use Rattle.std.specs.Option.{option_map};
ghost use Rattle.c_syntax.specs.language.Tree.{nothing};
ghost use Rattle.c_syntax.specs.language.Numbered.{tree_at};
ghost use Rattle.c_check.specs.Statements as statements;
ghost use Rattle.c_model.specs.Clauses as clauses;
ghost use Rattle.c_model.specs.Parts.{parts};
ghost use Rattle.c_model.specs.Program.{place_of};
ghost use Rattle.c_steps.specs.Expressions.{expression_of, is_of};
ghost use Rattle.c_steps.specs.NodeTrees.{tree_of};
ghost use Rattle.c_steps.specs.Nodes.{IsPart, part_at};
ghost use Rattle.c_steps.specs.Rests.{clauses_from, statements_from, with_clause, with_statement, IsFound};

use crate::code::Code;
use crate::node::Node;
use c_model::Schedule;
use c_syntax::{NodeKind, ScheduleKind};

/// A part that was found among the children of a construct, and the place behind it.
#[derive(Clone, Copy)]
pub(crate) struct FoundPart {
    part: Option<u32>,
    next: u32,
}

/// A clause that is an expression.
#[derive(Clone, Copy)]
pub(crate) enum Expression {
    NumThreads,
    If,
}

/// The next clause of a construct from a place on.
#[tactic(auto, unfolding(c_model::specs::Clauses::clauses_among))]
fn next_clause(construct: Node, place: u32) -> Option<FoundPart>
    ensures clauses { clauses_from (tree_of construct.entry) place ≡
        with_clause construct.entry.code.now.trees (tree_of construct.entry) result }
    ensures there { IsFound construct.entry.code.now.trees result }
{
    let (code, number) = (construct.code, construct.number);
    let mut next = place;
    while let Some(child) = code.part(Some(number), next) {
        next += 1;
        if let NodeKind::Clause(_) = code.kind(Some(child)) {
            let part = code.child(Some(child), 0);
            return Some(FoundPart { part, next });
        }
    }
    None
}

/// The next part of a construct behind its clauses, from a place on.
#[tactic(auto, unfolding(c_model::specs::Clauses::statements_among))]
fn next_statement(construct: Node, place: u32) -> Option<FoundPart>
    ensures statements { statements_from (tree_of construct.entry) place ≡
        with_statement construct.entry.code.now.trees (tree_of construct.entry) result }
    ensures there { IsFound construct.entry.code.now.trees result }
    ensures ahead { IfSome result (λ found. place < found.next) }
{
    let (code, number) = (construct.code, construct.number);
    let mut next = place;
    while let Some(child) = code.part(Some(number), next) {
        next += 1;
        if !is_head(code.kind(Some(child))) {
            let part = Some(child);
            return Some(FoundPart { part, next });
        }
    }
    None
}

/// Whether a child of a construct stands before its statement.
fn is_head(kind: NodeKind) -> bool
    ensures { result ≡ statements.is_head kind }
{
    matches!(kind, NodeKind::Clause(_) | NodeKind::Name)
}

/// The expression of a construct's clause of this kind, if it has one.
#[tactic(auto, unfolding(c_model::specs::Clauses::expression_among, c_check::specs::Tasks::from_place))]
pub(crate) fn clause_expression(construct: Node, which: Expression) -> Option<Option<u32>>
    ensures clause { option_map (part_at construct.entry.code.now.trees) result ≡
        expression_of which (tree_of construct.entry) }
    ensures there { IfSome result (IsPart construct.entry.code.now.trees) }
{
    let (code, mut place) = (construct.code, 0);
    while let Some(found) = next_clause(construct, place) {
        if is_of(which, code.kind(found.part)) {
            return Some(code.child(found.part, 0));
        }
        place = found.next;
    }
    None
}

/// Whether a clause is of this kind.
fn is_of(which: Expression, kind: NodeKind) -> bool
    ensures { result ≡ is_of which kind }
{
    match which {
        Expression::NumThreads => matches!(kind, NodeKind::NumThreads),
        Expression::If => matches!(kind, NodeKind::IfClause),
    }
}

/// Whether a construct has a `nowait` clause.
#[tactic(auto, unfolding(c_check::specs::Tasks::from_place))]
pub(crate) fn has_nowait(construct: Node) -> bool
    ensures { result ≡ clauses.has_nowait (tree_of construct.entry) }
{
    let mut place = 0;
    while let Some(found) = next_clause(construct, place) {
        if let NodeKind::Nowait = construct.code.kind(found.part) {
            return true;
        }
        place = found.next;
    }
    false
}

/// How the iterations of a construct's loop are dealt: by its `schedule` clause, and without one in blocks.
#[tactic(auto, unfolding(c_model::specs::Clauses::schedule_among, c_check::specs::Tasks::from_place))]
pub(crate) fn schedule(construct: Node) -> Schedule
    ensures { result ≡ clauses.schedule_of (tree_of construct.entry) }
{
    let (code, mut place) = (construct.code, 0);
    while let Some(found) = next_clause(construct, place) {
        if let NodeKind::Schedule(which) = code.kind(found.part) {
            return schedule_by(code, which, found.part);
        }
        place = found.next;
    }
    Schedule::Static(0)
}

/// What a `schedule` clause says.
fn schedule_by(code: &Code, which: ScheduleKind, clause: Option<u32>) -> Schedule
    requires { IsPart code.now.trees clause }
    ensures { result ≡ clauses.schedule_by which (parts (part_at code.now.trees clause)) }
{
    match which {
        ScheduleKind::Static => Schedule::Static(chunk_size(code, clause, 0)),
        ScheduleKind::Dynamic => Schedule::Dynamic(chunk_size(code, clause, 1)),
        ScheduleKind::Guided => Schedule::Guided(chunk_size(code, clause, 1)),
    }
}

/// The chunk size of a `schedule` clause, or another number without one.
#[tactic(auto, unfolding(c_check::specs::Tasks::from_place))]
fn chunk_size(code: &Code, clause: Option<u32>, other: u32) -> u32
    requires { IsPart code.now.trees clause }
    ensures { result ≡ clauses.size_or other (parts (part_at code.now.trees clause)) }
{
    match code.part(clause, 0) {
        Some(size) => code.number(Some(size)) as u32,
        None => other,
    }
}

/// The statement of a construct. A part that is missing where it has none.
pub(crate) fn statement(construct: Node) -> Option<u32>
    ensures statement { part_at construct.entry.code.now.trees result ≡ clauses.construct_statement (tree_of construct.entry) }
    ensures there { IsPart construct.entry.code.now.trees result }
{
    match next_statement(construct, 0) {
        Some(found) => found.part,
        None => None,
    }
}

/// How many sections a construct has.
#[tactic(auto, unfolding(c_check::specs::Tasks::from_place))]
pub(crate) fn section_count(construct: Node) -> u32
    ensures { result ≡ length (clauses.sections_of (tree_of construct.entry)) }
{
    let (mut count, mut place) = (0, 0);
    while let Some(found) = next_statement(construct, place) {
        count += 1;
        place = found.next;
    }
    count
}

/// What a section executes, counted from 0: the first one may be a statement without a `section` before it. A part that is missing past the
/// last.
#[tactic(auto, using(crate::proofs::Sections::nth_section))]
pub(crate) fn section(construct: Node, number: u32) -> Option<u32>
    ensures statement { part_at construct.entry.code.now.trees result ≡
        slice_index_or (clauses.sections_of (tree_of construct.entry)) number nothing }
    ensures there { IsPart construct.entry.code.now.trees result }
{
    let (code, part) = (construct.code, nth_statement(construct, number));
    match code.kind(part) {
        NodeKind::Section => code.child(part, 0),
        _ => part,
    }
}

/// A part of a construct behind its clauses, counted from 0. A part that is missing past the last.
#[tactic(auto, unfolding(c_check::specs::Tasks::from_place))]
fn nth_statement(construct: Node, number: u32) -> Option<u32>
    ensures statement { part_at construct.entry.code.now.trees result ≡
        slice_index_or (clauses.statements_among (parts (tree_of construct.entry))) number nothing }
    ensures there { IsPart construct.entry.code.now.trees result }
{
    let (mut left, mut place) = (number, 0);
    while let Some(found) = next_statement(construct, place) {
        if left == 0 {
            return found.part;
        }
        left -= 1;
        place = found.next;
    }
    None
}

impl Code {
    /// The place of a section as tools are told it, counted from 0: its directive's, or its statement's where it has none. 0 past the last.
    pub fn section_place(&self, construct: u32, number: u32) -> u64
        requires { construct < length self.now.trees }
        ensures { result ≡ place_of (slice_index_or
            (clauses.statements_among (parts (tree_at self.now.trees construct))) number nothing) }
    {
        let construct = Node {
            code: self,
            number: construct,
        };
        match nth_statement(construct, number) {
            Some(part) => self.place(part),
            None => 0,
        }
    }
}
