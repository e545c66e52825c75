//! The parts of the loop that a construct shares out.

ghost use Rattle.std.specs.Prelude.{◌≡◌, ◌<◌, None, Some, length, pos, IfNone, IfSome};
ghost use Rattle.std.specs.Option.{option_map};
ghost use Rattle.c_syntax.specs.language.Tree.{number_of};
ghost use Rattle.c_syntax.specs.language.Numbered.{tree_at};
ghost use Rattle.c_check.specs.Loops.{child_at};
ghost use Rattle.c_check.specs.SharedLoops.{IsBefore, loop_at};
ghost use Rattle.c_check.specs.LoopParts.{comparison_of, loop_parts, parts_in, statement_parts, step_of};

use crate::acts::directive::{shares_loop, statement_of};
use crate::acts::shared_loops::{has_head, loop_name};
use c_syntax::{BinaryOp, Bump, NodeKind, Setting, Tree};

/// The parts of a loop `for (i = a; i < b; i += c) body` or one of its kin (OpenMP 5.2, 4.4.1).
#[derive(Clone, Copy)]
pub struct SharedLoop {
    /// The node of `i`: a place, or the name that the loop declares.
    pub variable: u32,
    /// The node of `a`.
    pub start: u32,
    /// The node of `b`.
    pub end: u32,
    /// The node of the body.
    pub body: u32,
    /// The sign between `i` and `b`: `<`, `<=`, `>` or `>=`.
    pub comparison: BinaryOp,
    /// What each iteration adds to `i`: `c`, or `-c` where the loop goes down.
    pub step: i32,
}

/// The parts of the loop that a construct shares out, if it does and the loop's head is of the form.
pub fn shared_loop(tree: &Tree, construct: u32) -> Option<SharedLoop>
    requires { construct < length tree.now.trees }
    ensures parts { IfSome result (λ found.
        loop_parts (tree_at tree.now.trees construct) ≡ Some (loop_at tree.now.trees found)) }
    ensures none { IfNone result (loop_parts (tree_at tree.now.trees construct) ≡ None) }
    ensures before { IfSome result (λ found. IsBefore construct found) }
{
    match tree.kind(construct) {
        NodeKind::Construct(directive) if shares_loop(directive) => {
            match statement_of(tree, construct) {
                Some(statement) => statement_parts(tree, statement),
                _ => None,
            }
        }
        _ => None,
    }
}

/// The parts of a statement, if it is a loop whose head is of the form.
fn statement_parts(tree: &Tree, statement: u32) -> Option<SharedLoop>
    requires { statement < length tree.now.trees }
    ensures parts { option_map (loop_at tree.now.trees) result ≡ statement_parts (tree_at tree.now.trees statement) }
    ensures before { IfSome result (λ found. IsBefore statement found) }
{
    let name = loop_name(tree, statement)?;
    if has_head(tree, name, statement) {
        parts_in(tree, statement)
    } else {
        None
    }
}

/// The parts of a loop.
fn parts_in(tree: &Tree, statement: u32) -> Option<SharedLoop>
    requires { statement < length tree.now.trees }
    ensures parts { option_map (loop_at tree.now.trees) result ≡ parts_in (tree_at tree.now.trees statement) }
    ensures before { IfSome result (λ found. IsBefore statement found) }
{
    let first = tree.child(statement, 0)?;
    let variable = tree.child(first, 0)?;
    let start = tree.child(first, 1)?;
    let second = tree.child(statement, 1)?;
    let end = tree.child(second, 1)?;
    let body = tree.child(statement, 3)?;
    let comparison = comparison_of(tree.kind(second))?;
    let step = step_of(tree, tree.child(statement, 2)?)?;
    Some(SharedLoop {
        variable,
        start,
        end,
        body,
        comparison,
        step,
    })
}

/// The operator of a node, if it has one between two expressions.
fn comparison_of(kind: NodeKind) -> Option<BinaryOp>
    ensures { result ≡ comparison_of kind }
{
    match kind {
        NodeKind::Binary(operator) => Some(operator),
        _ => None,
    }
}

/// What the third part of a loop adds to its variable.
fn step_of(tree: &Tree, third: u32) -> Option<i32>
    requires { third < length tree.now.trees }
    ensures { result ≡ step_of (tree_at tree.now.trees third) }
{
    match tree.kind(third) {
        NodeKind::Bump(Bump::Increment, _) => Some(1),
        NodeKind::Bump(Bump::Decrement, _) => Some(-1),
        NodeKind::Assign(Setting::Add) => Some(stride(tree, third)),
        NodeKind::Assign(Setting::Subtract) => Some(-stride(tree, third)),
        _ => None,
    }
}

/// The number that an assignment adds or takes, 0 where it is none.
fn stride(tree: &Tree, assignment: u32) -> i32
    requires { assignment < length tree.now.trees }
    ensures { result ≡ pos (number_of (child_at (tree_at tree.now.trees assignment) 1)) }
{
    match tree.child(assignment, 1) {
        Some(stride) => tree.number(stride),
        None => 0,
    }
}
