//! How many names a program has in scope at most, and how many one step brings into scope.

ghost use Rattle.std.specs.Prelude.{◌≡◌, ◌<◌, length, map, take, IfOk};
ghost use Rattle.c_syntax.specs.language.Tree.{children_of, kind_of};
ghost use Rattle.c_syntax.specs.language.Numbered.{root_tree, tree_at};
ghost use Rattle.c_model.specs.Parts.{declarators_in, flat_declarations, parts};
ghost use Rattle.c_model.specs.Width as widths;
ghost use Rattle.c_steps.specs.Widths as numbers;

use crate::listed::listed_count;
use crate::parts::{child_of_part, is_declarator, next_part, part_count};
use c_check::Program;
use c_syntax::{NodeKind, Tree};
use std::alloc::{AllocError, Global};

/// For each node, how many names there are at most beside those around it while it is executed. Sums that pass a `usize` are want of
/// memory too.
pub(crate) fn inner_names(alloc: Global, program: &Program) -> Result<Vec<usize>, AllocError>
    ensures { IfOk result (λ inner. inner.items ≡ map (widths.inner_names program.now) program.now.trees) }
{
    let count = program.tree().len();
    let mut inner = Vec::new(alloc);
    for node in 0..count {
        let names = names_inside(program, &inner, node)?;
        inner.push(names)?;
    }
    Ok(inner)
}

/// How many names there are at most beside those around a node, where those of the nodes before it are known.
#[tactic(auto, using(crate::proofs::InnerNames::inner_names_is))]
fn names_inside(program: &Program, inner: &[usize], node: usize) -> Result<usize, AllocError>
    requires node { node < length program.now.trees }
    requires inner { inner.now ≡ map (widths.inner_names program.now) (take node program.now.trees) }
    ensures { IfOk result (λ names. names ≡ widths.inner_names program.now (tree_at program.now.trees node)) }
{
    let Ok(node) = u32::try_from(node) else {
        return Err(AllocError);
    };
    let own = own_names(program, node)?;
    own.checked_add(most_inside(program, inner, node))
        .ok_or(AllocError)
}

/// How many names the children of a node have at most, where those of the nodes before it are known.
#[tactic(auto, using(crate::proofs::InnerNames::most_among_is))]
fn most_inside(program: &Program, inner: &[usize], node: u32) -> usize
    requires node { node < length program.now.trees }
    requires inner { inner.now ≡ map (widths.inner_names program.now) (take node program.now.trees) }
    ensures { result ≡ widths.most_inside program.now (children_of (tree_at program.now.trees node)) }
{
    most_among(inner, program.tree().children(node))
}

/// The greatest number that one of these nodes has.
#[tactic(auto, using(crate::proofs::InnerNames::most_more), unfolding(crate::specs::Widths::most_among))]
fn most_among(inner: &[usize], nodes: &[Option<u32>]) -> usize
    ensures { result ≡ numbers.most_among inner.now nodes.now }
{
    let mut most = 0;
    for node in nodes {
        most = number_at(inner, *node).max(most);
    }
    most
}

/// The number that a node has, 0 where there is none.
fn number_at(inner: &[usize], node: Option<u32>) -> usize
    ensures { result ≡ numbers.number_at inner.now node }
{
    let Some(node) = node else {
        return 0;
    };
    match inner.get(node as usize) {
        Some(number) => *number,
        None => 0,
    }
}

/// How many names a node itself brings into scope: those that it declares, the copies that its clauses list, and those of a task by
/// rule.
fn own_names(program: &Program, node: u32) -> Result<usize, AllocError>
    requires { node < length program.now.trees }
    ensures { IfOk result (λ names.
        names ≡ widths.own_names program.now (kind_of (tree_at program.now.trees node))
        (tree_at program.now.trees node)) }
{
    let declared = declared_names(program.tree(), node)?;
    let listed = listed_count(program.tree(), node)?;
    let copies = program.task_copies(node).len();
    let own = declared.checked_add(listed).ok_or(AllocError)?;
    own.checked_add(copies).ok_or(AllocError)
}

/// How many names a node declares.
fn declared_names(tree: &Tree, node: u32) -> Result<usize, AllocError>
    requires { node < length tree.now.trees }
    ensures { IfOk result (λ names.
        names ≡ widths.declared_names (kind_of (tree_at tree.now.trees node)) (tree_at tree.now.trees node)) }
{
    match tree.kind(node) {
        NodeKind::Block => declarator_count(tree, node),
        NodeKind::For | NodeKind::Construct(_) => Ok(1),
        _ => Ok(0),
    }
}

/// How many declarators a block has.
#[tactic(auto, using(crate::proofs::InnerNames::declarators_cases), unfolding(c_check::specs::Tasks::from_place))]
fn declarator_count(tree: &Tree, block: u32) -> Result<usize, AllocError>
    requires { block < length tree.now.trees }
    ensures { IfOk result (λ count.
        count ≡ numbers.declarators_among (flat_declarations (parts (tree_at tree.now.trees block)))) }
{
    let (mut count, mut place) = (0usize, 0);
    while let Some(part) = next_part(tree, Some(block), place) {
        let more = declarators_of_part(tree, part)?;
        count = count.checked_add(more).ok_or(AllocError)?;
        place += 1;
    }
    Ok(count)
}

/// How many declarators a part of a block stands for.
fn declarators_of_part(tree: &Tree, part: u32) -> Result<usize, AllocError>
    requires { part < length tree.now.trees }
    ensures { IfOk result (λ count.
        count ≡ numbers.declarators_among (declarators_in (kind_of (tree_at tree.now.trees part))
        (tree_at tree.now.trees part))) }
{
    match tree.kind(part) {
        NodeKind::Globals | NodeKind::Locals | NodeKind::Locks => { listed_declarators(tree, part) }
        kind => Ok(count_of(is_declarator(kind))),
    }
}

/// How many declarators a declaration has.
#[tactic(auto, unfolding(c_check::specs::Tasks::from_place))]
fn listed_declarators(tree: &Tree, declaration: u32) -> Result<usize, AllocError>
    requires { declaration < length tree.now.trees }
    ensures { IfOk result (λ count. count ≡ numbers.declarators_among (parts (tree_at tree.now.trees declaration))) }
{
    let (mut count, mut place) = (0usize, 0);
    while let Some(part) = next_part(tree, Some(declaration), place) {
        let more = count_of(is_declarator(tree.kind(part)));
        count = count.checked_add(more).ok_or(AllocError)?;
        place += 1;
    }
    Ok(count)
}

/// 1 for one that counts, and 0 for one that doesn't.
fn count_of(counts: bool) -> usize
    ensures { result ≡ numbers.count_of counts }
{
    if counts { 1 } else { 0 }
}

/// The most names that a function may have beside those of the file.
#[tactic(auto, using(crate::proofs::InnerNames::functions_cases), unfolding(c_check::specs::Tasks::from_place))]
pub(crate) fn most_of_functions(program: &Program, inner: &[usize]) -> Result<usize, AllocError>
    requires { inner.now ≡ map (widths.inner_names program.now) program.now.trees }
    ensures { IfOk result (λ most. most ≡ widths.most_of_functions program.now (parts (root_tree program.now))) }
{
    let root = program.tree().root();
    let (mut most, mut place) = (0usize, 0);
    while let Some(part) = next_part(program.tree(), Some(root), place) {
        most = function_names(program, inner, part)?.max(most);
        place += 1;
    }
    Ok(most)
}

/// How many names a function has at most beside those of the file.
#[tactic(auto, using(crate::proofs::InnerNames::number_at_is))]
fn function_names(program: &Program, inner: &[usize], function: u32) -> Result<usize, AllocError>
    requires function { function < length program.now.trees }
    requires inner { inner.now ≡ map (widths.inner_names program.now) program.now.trees }
    ensures { IfOk result (λ names. names ≡ widths.function_names program.now (tree_at program.now.trees function)) }
{
    let tree = program.tree();
    let parameters = part_count(tree, child_of_part(tree, Some(function), 1));
    let body = child_of_part(tree, Some(function), 2);
    (parameters as usize)
        .checked_add(number_at(inner, body))
        .ok_or(AllocError)
}

/// No silent step brings more names into scope: one more than the most of any node.
#[tactic(auto, using(crate::proofs::InnerNames::steps_more), unfolding(crate::specs::Widths::most_of_steps))]
pub(crate) fn step_names(tree: &Tree) -> Result<usize, AllocError>
    ensures { IfOk result (λ most. most ≡ numbers.step_names tree.now) }
{
    let count = tree.len();
    let mut most = 0usize;
    for node in 0..count {
        let Ok(node) = u32::try_from(node) else {
            return Err(AllocError);
        };
        let listed = listed_count(tree, node)?;
        most = (part_count(tree, Some(node)) as usize)
            .max(listed)
            .max(most);
    }
    most.checked_add(1).ok_or(AllocError)
}
