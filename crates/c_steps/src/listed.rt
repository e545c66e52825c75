//! The variables that the clauses of a construct list.

ghost use Rattle.std.specs.Prelude.{◌≡◌, ◌+◌, ◌<◌, length, IfOk, IfSome};
ghost use Rattle.c_syntax.specs.language.Tree.{Tree as syntax_tree, kind_of};
ghost use Rattle.c_syntax.specs.language.Numbered.{tree_at};
ghost use Rattle.c_model.specs.Clauses.{clauses_of, listed_among, listed_by};
ghost use Rattle.c_model.specs.Copies as copies;
ghost use Rattle.c_model.specs.Parts.{parts};
ghost use Rattle.c_steps.specs.NodeTrees.{tree_of};
ghost use Rattle.c_steps.specs.Nodes.{IsPart, part_at};
ghost use Rattle.c_steps.specs.ListedNames.{listed_from, listed_in, names_by, names_from, with_found, with_name, with_name_of_clause, with_name_of_part, without_first};

use crate::loops::loop_nodes;
use crate::node::Node;
use crate::parts::{child_of_part, kind_of_part, name_of_part, next_part};
use c_syntax::{Data, Directive, NodeKind, ReductionOp, Tree};
use std::alloc::AllocError;

/// How a construct has a variable of its own (OpenMP 5.2, 5.4 and 5.5).
#[derive(Clone, Copy)]
pub(crate) enum Copying {
    Private,
    First,
    Reduced(ReductionOp),
}

/// Where a walk through the variables that a construct lists has come: at a part of the construct, and behind so many of its names.
#[derive(Clone, Copy)]
pub(crate) struct ListedPlace {
    part: u32,
    name: u32,
}

/// A variable that a clause lists: its name, and how the construct has it.
#[derive(Clone, Copy)]
pub(crate) struct ListedName {
    pub name: u32,
    pub copying: Copying,
}

/// A variable that was found, and the place behind it.
#[derive(Clone, Copy)]
pub(crate) struct FoundName {
    pub listed: ListedName,
    pub next: ListedPlace,
}

/// The place before all variables that a construct lists.
pub(crate) fn first_listed() -> ListedPlace
    ensures listed { (construct : syntax_tree) → listed_from construct result ≡ copies.listed_variables construct }
    ensures names { (construct : syntax_tree) → names_from construct result ≡ listed_among (clauses_of construct) }
{
    ListedPlace { part: 0, name: 0 }
}

/// The next variable that a construct lists, from a place on.
pub(crate) fn next_listed(construct: Node, from: ListedPlace) -> Option<FoundName>
    ensures { listed_from (tree_of construct.entry) from ≡ with_found (tree_of construct.entry) result }
{
    let mut place = from;
    while let Some(found) = next_name(construct.code.tree(), construct.number, place) {
        if !is_own_loop_variable(construct, found.listed.name) {
            return Some(found);
        }
        place = found.next;
    }
    None
}

/// The next name that the clauses of a construct list, from a place on.
#[tactic(auto, using(crate::proofs::ListedNames::listed_behind_start))]
pub(crate) fn next_name(tree: &Tree, construct: u32, from: ListedPlace) -> Option<FoundName>
    requires { construct < length tree.now.trees }
    ensures { names_from (tree_at tree.now.trees construct) from ≡ with_name (tree_at tree.now.trees construct) result }
{
    let mut place = from;
    while let Some(part) = next_part(tree, Some(construct), place.part) {
        if let Some(listed) = name_listed_by(tree, part, place.name) {
            let next = ListedPlace {
                part: place.part,
                name: place.name + 1,
            };
            return Some(FoundName { listed, next });
        }
        place = ListedPlace {
            part: place.part + 1,
            name: 0,
        };
    }
    None
}

/// The name that a part of a construct lists behind so many, if it is a clause that gives variables of its own.
#[tactic(auto, unfolding(c_model::specs::Clauses::listed_among))]
fn name_listed_by(tree: &Tree, part: u32, count: u32) -> Option<ListedName>
    requires { part < length tree.now.trees }
    ensures names { listed_in count (tree_at tree.now.trees part) ≡
        with_name_of_part count (tree_at tree.now.trees part) result }
    ensures fits { IfSome result (λ listed. count + 1 < 4294967295) }
{
    match kind_of_part(tree, Some(part)) {
        NodeKind::Clause(_) => name_of_clause(tree, child_of_part(tree, Some(part), 0), count),
        _ => None,
    }
}

/// The name that a clause lists behind so many, if it gives a construct variables of its own.
fn name_of_clause(tree: &Tree, clause: Option<u32>, count: u32) -> Option<ListedName>
    requires { IsPart tree.now.trees clause }
    ensures names { listed_by (kind_of (part_at tree.now.trees clause))
        (without_first count (part_at tree.now.trees clause)) ≡
        with_name_of_clause count (part_at tree.now.trees clause) result }
    ensures fits { IfSome result (λ listed. count + 1 < 4294967295) }
{
    let copying = copying_by(kind_of_part(tree, clause))?;
    let name = next_part(tree, clause, count)?;
    Some(ListedName {
        name: name_of_part(tree, Some(name)),
        copying,
    })
}

/// How the variables are had that a clause lists, if it gives a construct variables of its own.
fn copying_by(kind: NodeKind) -> Option<Copying>
    ensures { (clause : syntax_tree) → listed_by kind clause ≡ names_by result (parts clause) }
{
    match kind {
        NodeKind::Data(Data::Private) => Some(Copying::Private),
        NodeKind::Data(Data::Firstprivate) => Some(Copying::First),
        NodeKind::Reduction(operator) => Some(Copying::Reduced(operator)),
        _ => None,
    }
}

/// Whether a construct shares out a loop.
pub(crate) fn is_loop(construct: Node) -> bool
    ensures { result ≡ copies.is_loop (tree_of construct.entry) }
{
    matches!(
        construct.kind(),
        NodeKind::Construct(Directive::For | Directive::ParallelFor)
    )
}

/// Whether a name that a clause of a construct lists is that of the loop's own variable.
fn is_own_loop_variable(construct: Node, name: u32) -> bool
    ensures { result ≡ copies.is_own_loop_variable (tree_of construct.entry) name }
{
    if !is_loop(construct) {
        return false;
    }
    let variable = loop_nodes(construct).variable;
    match construct.code.kind(variable) {
        NodeKind::Name => false,
        _ => construct.code.name(variable) == name,
    }
}

/// Whether a construct makes cells of its own.
pub(crate) fn has_own_cells(construct: Node) -> bool
    ensures { result ≡ copies.has_own_cells (tree_of construct.entry) }
{
    is_loop(construct) || next_listed(construct, first_listed()).is_some()
}

/// How many variables the clauses of a construct list, the construct's own loop variable too. More than a `usize` counts are want of
/// memory.
pub(crate) fn listed_count(tree: &Tree, construct: u32) -> Result<usize, AllocError>
    requires { construct < length tree.now.trees }
    ensures { IfOk result (λ count. count ≡ length (listed_among (clauses_of (tree_at tree.now.trees construct)))) }
{
    let (mut count, mut place) = (0usize, first_listed());
    while let Some(found) = next_name(tree, construct, place) {
        count = count.checked_add(1).ok_or(AllocError)?;
        place = found.next;
    }
    Ok(count)
}
