//! Directives: the loop that they share out, their statement, their clauses.

ghost use Rattle.std.specs.Prelude.{◌≡◌, ◌<◌, ◌&&◌, None, not, length, if◌then◌else◌, unwrap_or, IfOk, IfSome, OnErr};
ghost use Rattle.std.specs.Option.{option_map};
ghost use Rattle.c_syntax.specs.language.Tree.{children_of, nothing};
ghost use Rattle.c_syntax.specs.language.Numbered.{tree_at};
ghost use Rattle.c_check.specs.Clauses as clauses;
ghost use Rattle.c_check.specs.Statements as statements;
ghost use Rattle.c_check.specs.Loops.{has_form as is_of_form, loop_name as loop_name_of};
ghost use Rattle.c_check.specs.Steps.{clause_in};

use crate::acts::act::DataClause;
use crate::acts::node_acts::number_at;
use crate::acts::role::Role;
use crate::acts::shared_loops::{has_form, loop_name};
use c_syntax::{Data, Directive, NodeKind, Tree};
use std::alloc::{AllocError, Global};

/// Whether a directive shares out a loop: `for` and `parallel for` (OpenMP 5.2, 11.5.1).
pub fn shares_loop(directive: Directive) -> bool
    ensures { result ≡ statements.shares_loop directive }
{
    matches!(directive, Directive::For | Directive::ParallelFor)
}

/// The name of the variable of the loop that a directive shares out, if it does and the loop has one.
pub fn shared_loop_name(tree: &Tree, directive: Directive, node: u32) -> Option<u32>
    requires { node < length tree.now.trees }
    ensures { result ≡ (if statements.shares_loop directive
        then loop_name_of (statements.statement_of (children_of (tree_at tree.now.trees node))) else None) }
{
    if !shares_loop(directive) {
        return None;
    }
    match statement_of(tree, node) {
        Some(statement) => loop_name(tree, statement),
        None => None,
    }
}

/// Whether a directive shares out a loop and its statement is no loop of the form. An error means that memory ran out.
pub fn has_odd_loop(
    alloc: Global,
    tree: &Tree,
    directive: Directive,
    node: u32,
) -> Result<bool, AllocError>
    requires { node < length tree.now.trees }
    ensures { IfOk result (λ odd. odd ≡
        (statements.shares_loop directive && not
        (is_of_form (statements.statement_of (children_of (tree_at tree.now.trees node)))))) }
{
    if !shares_loop(directive) {
        return Ok(false);
    }
    match statement_of(tree, node) {
        Some(statement) => Ok(!has_form(alloc, tree, statement)?),
        None => Ok(true),
    }
}

/// What stands around the statement of a construct whose loop has a variable with this name, if it has one.
pub fn role_with(name: Option<u32>) -> Role
    ensures { result ≡ statements.role_with name }
{
    match name {
        Some(name) => Role::Looped(name),
        None => Role::Plain,
    }
}

/// The statement of a construct, if there is one.
pub fn statement_of(tree: &Tree, node: u32) -> Option<u32>
    requires { node < length tree.now.trees }
    ensures statement { unwrap_or (option_map (tree_at tree.now.trees) result) nothing ≡
        statements.statement_of (children_of (tree_at tree.now.trees node)) }
    ensures there { IfSome result (λ statement. statement < node) }
{
    let mut place = 0;
    while let Some(child) = tree.child(node, place) {
        if !is_head(tree.kind(child)) {
            return Some(child);
        }
        place += 1;
    }
    None
}

/// Whether a child of a construct stands before its statement.
pub fn is_head(kind: NodeKind) -> bool
    ensures { result ≡ statements.is_head kind }
{
    matches!(kind, NodeKind::Clause(_) | NodeKind::Name)
}

/// The number of the name of a critical, or 0.
pub fn critical_name(tree: &Tree, node: u32) -> u32
    requires { node < length tree.now.trees }
    ensures { result ≡ statements.name_of_critical (children_of (tree_at tree.now.trees node)) }
{
    match tree.child(node, 0) {
        Some(child) if matches!(tree.kind(child), NodeKind::Name) => tree.name(child),
        _ => 0,
    }
}

/// What a clause is, if a node is a clause.
pub fn clause_of(tree: &Tree, node: u32) -> Option<u32>
    requires { node < length tree.now.trees }
    ensures clause { option_map (tree_at tree.now.trees) result ≡ clause_in (tree_at tree.now.trees node) }
    ensures before { IfSome result (λ clause. clause < node) }
{
    match tree.kind(node) {
        NodeKind::Clause(_) => tree.child(node, 0),
        _ => None,
    }
}

/// What a clause on names alone makes them.
pub fn data_of(which: Data) -> DataClause
    ensures { result ≡ clauses.data_of which }
{
    match which {
        Data::Shared => DataClause::Shared,
        Data::Private => DataClause::Private,
        Data::Firstprivate => DataClause::First,
    }
}

/// The chunk size of a `schedule`, 1 where there is none.
pub fn chunk_of(tree: &Tree, clause: u32) -> u32
    requires { clause < length tree.now.trees }
    ensures { result ≡ clauses.chunk_of (children_of (tree_at tree.now.trees clause)) }
{
    match tree.child(clause, 0) {
        Some(number) => number_at(tree, number),
        None => 1,
    }
}
