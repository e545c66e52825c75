//! A program that breaks no rule.

ghost use Rattle.std.specs.Prelude.{◌≡◌, ◌<◌, None, Some, length, IfNone, IfSome};
ghost use Rattle.c_syntax.specs.language.Numbered.{tree_at};
ghost use Rattle.c_check.specs.Checked.{Checked, end_of};
ghost use Rattle.c_check.specs.LoopParts.{loop_parts};
ghost use Rattle.c_check.specs.Seen.{critical_count, critical_number, sharing_by_node, slot_of_name, task_copies};
ghost use Rattle.c_check.specs.SharedLoops.{IsBefore, loop_at};
ghost use Rattle.c_check.specs.Standing.{Stands};

use crate::acts::directive::critical_name;
use crate::acts::loop_parts::{SharedLoop, shared_loop};
use crate::constructs::arena::Constructs;
use crate::constructs::criticals::Criticals;
use crate::constructs::task_copies::TaskCopies;
use crate::rules::checker::Checker;
use crate::scopes::declarations::Declarations;
use crate::scopes::slots::Slots;
use crate::sharing::Sharing;
use c_syntax::{Directive, NodeKind, Tree};
use std::marker::Model;

/// A program that breaks no rule: its tree, the slots of its names, and how its constructs see variables. Contracts see the tree.
#[derive(Drop)]
pub struct Program {
    tree: Tree,
    names: Declarations,
    constructs: Constructs,
    slots: Slots,
    copies: TaskCopies,
    criticals: Criticals,
}

impl Model for Program {
    ghost use Rattle.c_syntax.specs.language.Numbered.{TreeView};
    ghost use Rattle.c_syntax.specs.workings.Codes.{tree_view_code};

    ghost Value = { TreeView };

    ghost coded = { tree_view_code };

    ghost use Rattle.c_check.specs.Ended.{IsChecked};

    ghost view = { λ program. program.tree };

    ghost invariant = { λ program. IsChecked program.tree program.names program.constructs program.slots program.copies
        program.criticals };
}

impl Program {
    /// The program of a tree that was checked, and broke no rule.
    pub(crate) fn new(tree: Tree, checker: Checker) -> Program
        requires stands { Stands checker (end_of tree) }
        requires none { Checked tree }
        ensures { result ≡ tree }
    {
        let Checker {
            names,
            constructs,
            slots,
            copies,
            criticals,
            ..
        } = checker;
        Program {
            tree,
            names,
            constructs,
            slots,
            copies,
            criticals,
        }
    }

    /// The program's tree.
    pub fn tree(&self) -> &Tree
        ensures { result.now ≡ self.now }
    {
        &self.tree
    }

    /// The slot of the name that stands where a node begins, which is the number of the declaration that it is of, from 0 in the order of
    /// the text. 0 where no name that is declared stands there.
    pub fn slot(&self, node: u32) -> u32
        requires { node < length self.now.trees }
        ensures { result ≡ slot_of_name self.now (tree_at self.now.trees node) }
    {
        self.slots.slot(self.tree.spot(node)).unwrap_or(0)
    }

    /// How a construct sees the variable with a slot (OpenMP 5.2, 5.1). [`Sharing::Shared`] where no construct stands where the node
    /// begins, or nothing has the slot. The variable needn't be in scope: one that is declared behind the beginning of the construct,
    /// inside it or not, is [`Sharing::Local`], and one declared before is seen as if it were in scope.
    pub fn sharing(&self, construct: u32, slot: u32) -> Sharing
        requires { construct < length self.now.trees }
        ensures { result ≡ sharing_by_node self.now (tree_at self.now.trees construct) slot }
    {
        let Some(declared) = self.names.declaration(slot) else {
            return Sharing::Shared;
        };
        let spot = self.tree.spot(construct);
        self.constructs
            .sharing(spot, declared)
            .unwrap_or(Sharing::Shared)
    }

    /// The slots of the variables that a task copies by rule, and not by its own clauses: each once, in the order in which they are
    /// first used inside it (OpenMP 5.2, 5.1.1). None for a node that is no task construct.
    pub fn task_copies(&self, construct: u32) -> &[u32]
        requires { construct < length self.now.trees }
        ensures { result.now ≡ task_copies self.now (tree_at self.now.trees construct) }
    {
        match self.tree.kind(construct) {
            NodeKind::Construct(Directive::Task) => {
                self.copies.of_task(self.tree.spot(construct))
            }
            _ => &[],
        }
    }

    /// The parts of the loop that a construct shares out. `None` for a node that is no `for` or `parallel for`. Of a checked program
    /// each other one has parts, by a law of `c_model`.
    pub fn shared_loop(&self, construct: u32) -> Option<SharedLoop>
        requires { construct < length self.now.trees }
        ensures parts { IfSome result (λ found.
            loop_parts (tree_at self.now.trees construct) ≡ Some (loop_at self.now.trees found)) }
        ensures none { IfNone result (loop_parts (tree_at self.now.trees construct) ≡ None) }
        ensures before { IfSome result (λ found. IsBefore construct found) }
    {
        shared_loop(&self.tree, construct)
    }

    /// The number of a critical's name: from 1, in the order in which the names first appear, and those without a name have one together
    /// (OpenMP 5.2, 15.2). 0 for a node that is no critical.
    pub fn critical_number(&self, construct: u32) -> u32
        requires { construct < length self.now.trees }
        ensures { result ≡ critical_number self.now (tree_at self.now.trees construct) }
    {
        match self.tree.kind(construct) {
            NodeKind::Construct(Directive::Critical) => {
                let name = critical_name(&self.tree, construct);
                self.criticals.number(name).unwrap_or(0)
            }
            _ => 0,
        }
    }

    /// How many names the criticals have.
    pub fn critical_count(&self) -> u32
        ensures { result ≡ critical_count self.now }
    {
        self.criticals.count()
    }
}
