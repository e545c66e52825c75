//! The loops that a `for` directive can share out.

ghost use Rattle.std.specs.Prelude.{◌≡◌, ◌<◌, ◌&&◌, ◌||◌, ◌==◌, not, length, IfOk};
ghost use Rattle.c_syntax.specs.language.Tree.{kind_of, name_of};
ghost use Rattle.c_syntax.specs.language.Numbered.{tree_at};
ghost use Rattle.c_check.specs.Loops as loops;

use crate::acts::child_places::next_place;
use c_syntax::{BinaryOp, Bump, NodeKind, Setting, Tree};
use std::alloc::{AllocError, Global};

/// The name of the variable of a statement that is a loop: what its first part assigns or declares, without an index.
pub fn loop_name(tree: &Tree, statement: u32) -> Option<u32>
    requires { statement < length tree.now.trees }
    ensures { result ≡ loops.loop_name (tree_at tree.now.trees statement) }
{
    if !matches!(tree.kind(statement), NodeKind::For) {
        return None;
    }
    let first = tree.child(statement, 0)?;
    assigned_by(tree, first)
}

/// The name of what the first part of a loop assigns or declares, without an index.
fn assigned_by(tree: &Tree, first: u32) -> Option<u32>
    requires { first < length tree.now.trees }
    ensures { result ≡ loops.assigned_by (kind_of (tree_at tree.now.trees first))
        (loops.child_at (tree_at tree.now.trees first) 0) }
{
    match tree.kind(first) {
        NodeKind::Init => Some(name_at(tree, first, 0)),
        NodeKind::Assign(_) | NodeKind::Bump(_, _) => variable_at(tree, first, 0),
        _ => None,
    }
}

/// The name of the child at a place, if it is a variable without an index.
fn variable_at(tree: &Tree, node: u32, place: u32) -> Option<u32>
    requires { node < length tree.now.trees }
    ensures { result ≡ loops.name_if_variable (loops.child_at (tree_at tree.now.trees node) place) }
{
    let name = name_at(tree, node, place);
    if is_variable_at(tree, name, node, place) {
        Some(name)
    } else {
        None
    }
}

/// Whether a statement is a loop `for (i = a; i < b; i++)` or one of its kin (OpenMP 5.2, 4.4.1). An error means that memory ran out.
pub fn has_form(alloc: Global, tree: &Tree, statement: u32) -> Result<bool, AllocError>
    requires { statement < length tree.now.trees }
    ensures { IfOk result (λ holds. holds ≡ loops.has_form (tree_at tree.now.trees statement)) }
{
    let Some(name) = loop_name(tree, statement) else {
        return Ok(false);
    };
    Ok(has_head(tree, name, statement) && is_apart(alloc, tree, name, statement)?)
}

/// Whether the head of a loop begins and goes on with the variable, as one of the form does.
pub fn has_head(tree: &Tree, name: u32, statement: u32) -> bool
    requires { statement < length tree.now.trees }
    ensures { result ≡ loops.has_head name (tree_at tree.now.trees statement) }
{
    let (Some(first), Some(second), Some(third)) = (
        tree.child(statement, 0),
        tree.child(statement, 1),
        tree.child(statement, 2),
    ) else {
        return false;
    };
    is_start(tree.kind(first))
        && is_variable_at(tree, name, second, 0)
        && is_variable_at(tree, name, third, 0)
        && go_one_way(tree, second, third)
}

/// Whether the first part of a loop is `i = a` or `int i = a`.
fn is_start(kind: NodeKind) -> bool
    ensures { result ≡ loops.is_start kind }
{
    matches!(kind, NodeKind::Init | NodeKind::Assign(Setting::Plain))
}

/// Whether the variable stands neither in the start of a loop nor in its end.
fn is_apart(alloc: Global, tree: &Tree, name: u32, statement: u32) -> Result<bool, AllocError>
    requires { statement < length tree.now.trees }
    ensures { IfOk result (λ holds. holds ≡ loops.is_apart name (tree_at tree.now.trees statement)) }
{
    Ok(
        is_apart_from_start(alloc, tree, name, statement)?
            && is_apart_from_end(alloc, tree, name, statement)?,
    )
}

/// Whether the variable doesn't stand in the start of a loop. One that the loop declares may seem to.
#[tactic(auto, unfolding(crate::specs::Loops::stands_in))]
fn is_apart_from_start(
    alloc: Global,
    tree: &Tree,
    name: u32,
    statement: u32,
) -> Result<bool, AllocError>
    requires { statement < length tree.now.trees }
    ensures { IfOk result (λ holds.
        holds ≡ (loops.may_have_name (kind_of (loops.child_at (tree_at tree.now.trees statement) 0)) || not
        (loops.stands_in name (loops.child_at (loops.child_at (tree_at tree.now.trees statement) 0) 1)))) }
{
    let Some(first) = tree.child(statement, 0) else {
        return Ok(true);
    };
    Ok(matches!(tree.kind(first), NodeKind::Init) || !stands_at(alloc, tree, name, first, 1)?)
}

/// Whether the variable doesn't stand in the end of a loop.
#[tactic(auto, unfolding(crate::specs::Loops::stands_in))]
fn is_apart_from_end(
    alloc: Global,
    tree: &Tree,
    name: u32,
    statement: u32,
) -> Result<bool, AllocError>
    requires { statement < length tree.now.trees }
    ensures { IfOk result (λ holds.
        holds ≡ not (loops.stands_in name (loops.child_at (loops.child_at (tree_at tree.now.trees statement) 1) 1))) }
{
    let Some(second) = tree.child(statement, 1) else {
        return Ok(true);
    };
    Ok(!stands_at(alloc, tree, name, second, 1)?)
}

/// Whether the second part of a loop bounds the variable on the side to which the third moves it.
fn go_one_way(tree: &Tree, second: u32, third: u32) -> bool
    requires second { second < length tree.now.trees }
    requires third { third < length tree.now.trees }
    ensures { result ≡ (loops.goes_up (kind_of (tree_at tree.now.trees second)) && loops.is_step_up
        (tree_at tree.now.trees third) || loops.goes_down
        (kind_of (tree_at tree.now.trees second)) && loops.is_step_down (tree_at tree.now.trees third)) }
{
    match tree.kind(second) {
        NodeKind::Binary(BinaryOp::Less | BinaryOp::LessEqual) => adds(tree, third),
        NodeKind::Binary(BinaryOp::Greater | BinaryOp::GreaterEqual) => takes(tree, third),
        _ => false,
    }
}

/// Whether the third part of a loop makes the variable greater.
fn adds(tree: &Tree, third: u32) -> bool
    requires { third < length tree.now.trees }
    ensures { result ≡ loops.is_step_up (tree_at tree.now.trees third) }
{
    match tree.kind(third) {
        NodeKind::Bump(Bump::Increment, _) => true,
        NodeKind::Assign(Setting::Add) => is_stride(tree, third),
        _ => false,
    }
}

/// Whether the third part of a loop makes the variable less.
fn takes(tree: &Tree, third: u32) -> bool
    requires { third < length tree.now.trees }
    ensures { result ≡ loops.is_step_down (tree_at tree.now.trees third) }
{
    match tree.kind(third) {
        NodeKind::Bump(Bump::Decrement, _) => true,
        NodeKind::Assign(Setting::Subtract) => is_stride(tree, third),
        _ => false,
    }
}

/// Whether what an assignment adds or takes is a number from 1 on.
fn is_stride(tree: &Tree, assignment: u32) -> bool
    requires { assignment < length tree.now.trees }
    ensures { result ≡ loops.is_stride (loops.child_at (tree_at tree.now.trees assignment) 1) }
{
    match tree.child(assignment, 1) {
        Some(stride) => matches!(tree.kind(stride), NodeKind::Number) && tree.number(stride) >= 1,
        None => false,
    }
}

/// The name of the child at a place, or 0.
fn name_at(tree: &Tree, node: u32, place: u32) -> u32
    requires { node < length tree.now.trees }
    ensures { result ≡ name_of (loops.child_at (tree_at tree.now.trees node) place) }
{
    match tree.child(node, place) {
        Some(child) => tree.name(child),
        None => 0,
    }
}

/// Whether the child at a place is the variable with this name, without an index.
fn is_variable_at(tree: &Tree, name: u32, node: u32, place: u32) -> bool
    requires { node < length tree.now.trees }
    ensures { result ≡ loops.is_variable_named name (loops.child_at (tree_at tree.now.trees node) place) }
{
    match tree.child(node, place) {
        Some(child) => is_named(tree, name, child) && tree.child(child, 0).is_none(),
        None => false,
    }
}

/// Whether a variable with this name stands in the child at a place.
fn stands_at(
    alloc: Global,
    tree: &Tree,
    name: u32,
    node: u32,
    place: u32,
) -> Result<bool, AllocError>
    requires { node < length tree.now.trees }
    ensures { IfOk result (λ stands.
        stands ≡ loops.stands_in name (loops.child_at (tree_at tree.now.trees node) place)) }
{
    match tree.child(node, place) {
        Some(child) => stands_in(alloc, tree, name, child),
        None => Ok(false),
    }
}

/// Whether a variable with this name stands in an expression.
fn stands_in(alloc: Global, tree: &Tree, name: u32, expression: u32) -> Result<bool, AllocError>
    requires { expression < length tree.now.trees }
    ensures { IfOk result (λ stands. stands ≡ loops.stands_in name (tree_at tree.now.trees expression)) }
{
    if is_named(tree, name, expression) {
        return Ok(true);
    }
    // Nodes whose children from a place on aren't looked at yet.
    let mut left = Vec::new(alloc);
    left.push((expression, 0))?;
    while let Some((node, place)) = left.pop() {
        let Some(child) = tree.child(node, place) else {
            continue;
        };
        if is_named(tree, name, child) {
            return Ok(true);
        }
        left.push((node, next_place(place)?))?;
        left.push((child, 0))?;
    }
    Ok(false)
}

/// Whether a node is a place with this name.
fn is_named(tree: &Tree, name: u32, node: u32) -> bool
    requires { node < length tree.now.trees }
    ensures { result ≡ (loops.is_place (kind_of (tree_at tree.now.trees node)) && name_of
        (tree_at tree.now.trees node) == name) }
{
    matches!(tree.kind(node), NodeKind::Place) && tree.name(node) == name
}
