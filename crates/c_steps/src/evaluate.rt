//! The numbers of expressions in a scope.

ghost use Rattle.std.specs.Prelude.{◌≡◌, ◌<◌, ◌≤◌, length, pos, IfOk};
ghost use Rattle.c_syntax.specs.language.Numbered.{tree_at};
ghost use Rattle.c_model.specs.declared.limits.TheConstants.{CELL_LIMIT};
ghost use Rattle.c_model.specs.Cells.{cell_at, entry_at_slot, entry_of};
ghost use Rattle.c_model.specs.Parts.{parts};
ghost use Rattle.c_model.specs.Value.{all_values, binary_value, cell_of, element, getter_number, value};
ghost use Rattle.c_syntax.specs.language.Tree.{kind_of};
ghost use Rattle.c_steps.specs.Arguments.{without_values};
ghost use Rattle.c_steps.specs.Chains.{IsChain, left_below};
ghost use Rattle.c_steps.specs.Entering.{HaveNoTrap, IsNextArgument};
ghost use Rattle.c_steps.specs.Nodes.{IsPart, part_at};
ghost use Rattle.c_steps.specs.Rooming.{AreEntries, IsEntry};
ghost use Rattle.c_steps.specs.Scopes.{operand_at, scope_of};
ghost use Rattle.c_steps.specs.Views.{HasNumbers};

use crate::chains::{chain_from, operand_below};
use crate::in_scope::{entry_among, slot_entry};
use crate::numbers::{binary_result, deciding_value, unary_result};
use crate::parts::next_part;
use crate::scope::Scope;
use c_model::{Entry, INDEX, View};
use c_syntax::{BinaryOp, Getter, NodeKind};

/// How many binary operators may stand in one another whose numbers are found by calls in one another. What is deeper is found chain by chain.
const DEPTH: u32 = 64;

/// The number of an argument of a call, and the place of the next one.
#[derive(Clone, Copy)]
pub(crate) struct Argument {
    pub(crate) number: i32,
    pub(crate) next: u32,
}

impl<'a> Scope<'a> {
    /// The entry of a name, the newest one. A name that nothing declares has one that no cell belongs to.
    #[tactic(auto, using(crate::proofs::Entries::is_entry))]
    #[inline(always)]
    pub(crate) fn entry(&self, name: u32) -> Entry
        ensures entry { result ≡ entry_of (scope_of self.now).env name }
        ensures cells { AreEntries (scope_of self.now).env → IsEntry result }
    {
        entry_among(self.file, self.names, name)
    }

    /// The entry of the declaration with a slot, the newest one. A slot that nothing has gives one that no cell belongs to.
    pub(crate) fn entry_at_slot(&self, slot: u32) -> Entry
        ensures { result ≡ entry_at_slot (scope_of self.now).env slot }
    {
        slot_entry(self.file, self.names, slot)
    }

    /// The number of an expression, or its trap. One that is missing is 0.
    #[tactic(auto, using(crate::proofs::Values::value_is))]
    #[inline(always)]
    pub(crate) fn value(&self, part: Option<u32>) -> Result<i32, u8>
        requires { IsPart self.now.tree.now.trees part }
        ensures { result ≡ value (scope_of self.now) (part_at self.now.tree.now.trees part) }
    {
        match part {
            Some(node) => self.node_value(node, DEPTH),
            None => Ok(0),
        }
    }

    /// The cell of a place, or a trap.
    #[tactic(auto, using(crate::proofs::Values::cell_is))]
    #[inline(always)]
    pub(crate) fn place_cell(&self, place: Option<u32>) -> Result<usize, u8>
        requires { IsPart self.now.tree.now.trees place }
        ensures cell { result ≡ cell_of (scope_of self.now) (part_at self.now.tree.now.trees place) }
        ensures within { AreEntries (scope_of self.now).env → IfOk result (λ cell. cell ≤ CELL_LIMIT) }
    {
        match place {
            Some(node) => self.node_cell(node, DEPTH),
            None => Ok(self.entry(0).first as usize),
        }
    }

    /// The first trap of the children of a node, from left to right up to the first that is absent.
    #[inline(always)]
    #[tactic(auto, using(crate::proofs::ValuesAll::all_cases))]
    pub(crate) fn check_all(&self, node: u32) -> Result<(), u8>
        requires { node < length self.now.tree.now.trees }
        ensures { result ≡ without_values
            (all_values (scope_of self.now) (parts (tree_at self.now.tree.now.trees node))) }
    {
        let mut place = 0;
        while let Some(child) = self.tree.child(node, place) {
            match self.node_value(child, DEPTH) {
                Err(trap) => return Err(trap),
                Ok(_) => place += 1,
            }
        }
        Ok(())
    }

    /// The argument of a call at a place. Where there is none its number is 0, and none follow it. The arguments have no trap.
    #[tactic(auto, using(crate::proofs::Entering::argument_trap))]
    pub(crate) fn argument(&self, call: Option<u32>, place: u32) -> Argument
        requires call { IsPart self.now.tree.now.trees call }
        requires values { HaveNoTrap (scope_of self.now) (part_at self.now.tree.now.trees call) place }
        ensures { IsNextArgument (scope_of self.now) (part_at self.now.tree.now.trees call) place result }
    {
        match next_part(self.tree, call, place) {
            Some(child) => match self.node_value(child, DEPTH) {
                Ok(number) => Argument {
                    number,
                    next: place + 1,
                },
                Err(_) => unreachable!(),
            },
            None => Argument {
                number: 0,
                next: place,
            },
        }
    }

    /// The number of an expression, or its trap. A chain of operators that is no longer than this depth is told by calls in one another.
    #[cycle(values)]
    #[tactic(auto, using(crate::proofs::Values::value_is, crate::proofs::Values::cell_is))]
    fn node_value(&self, node: u32, depth: u32) -> Result<i32, u8>
        requires { node < length self.now.tree.now.trees }
        ensures { result ≡ value (scope_of self.now) (tree_at self.now.tree.now.trees node) }
    {
        match self.tree.kind(node) {
            NodeKind::Number => Ok(self.tree.number(node)),
            NodeKind::Place => match self.node_cell(node, depth) {
                Err(trap) => Err(trap),
                Ok(cell) => Ok(number_in(self.cells, cell)),
            },
            NodeKind::Paren => self.operand(node, 0, depth),
            NodeKind::Getter(which) => Ok(thread_number(which, self.view)),
            NodeKind::Unary(operator) => match self.operand(node, 0, depth) {
                Err(trap) => Err(trap),
                Ok(number) => unary_result(operator, number),
            },
            NodeKind::Binary(operator) => match depth.checked_sub(1) {
                Some(depth) => self.joined(operator, node, self.operand(node, 0, depth), depth),
                None => self.binary(operator, node),
            },
            _ => Ok(0),
        }
    }

    /// The number of an operand. One that is missing is 0. Numbers and plain names are told without a call.
    #[cycle(values)]
    #[tactic(auto, using(crate::proofs::Values::value_is, crate::proofs::Values::cell_is))]
    #[inline(always)]
    fn operand(&self, node: u32, place: u32, depth: u32) -> Result<i32, u8>
        requires { node < length self.now.tree.now.trees }
        ensures { result ≡ operand_at self.now node place }
    {
        let Some(child) = self.tree.child(node, place) else {
            return Ok(0);
        };
        match self.tree.kind(child) {
            NodeKind::Number => Ok(self.tree.number(child)),
            NodeKind::Place => match self.tree.child(child, 0) {
                None => {
                    let entry = self.entry(self.tree.name(child));
                    Ok(number_in(self.cells, entry.first as usize))
                }
                Some(_) => self.node_value(child, depth),
            },
            _ => self.node_value(child, depth),
        }
    }

    #[cycle(values)]
    #[tactic(auto, using(crate::proofs::Values::cell_is))]
    #[inline(always)]
    fn node_cell(&self, node: u32, depth: u32) -> Result<usize, u8>
        requires { node < length self.now.tree.now.trees }
        ensures { result ≡ cell_of (scope_of self.now) (tree_at self.now.tree.now.trees node) }
    {
        let entry = self.entry(self.tree.name(node));
        match self.tree.child(node, 0) {
            None => Ok(entry.first as usize),
            Some(child) => match self.node_value(child, depth) {
                Err(trap) => Err(trap),
                Ok(index) => element(entry, index),
            },
        }
    }

    /// The number of an operator. Its left operands are a chain, which may be as long as the text.
    #[cycle(values)]
    #[tactic(auto, using(crate::proofs::Values::value_is, crate::proofs::LeftOperands::left_values_cases))]
    fn binary(&self, operator: BinaryOp, node: u32) -> Result<i32, u8>
        requires node { node < length self.now.tree.now.trees }
        requires kind { kind_of (tree_at self.now.tree.now.trees node) ≡ NodeKind.Binary operator }
        ensures { result ≡ value (scope_of self.now) (tree_at self.now.tree.now.trees node) }
    {
        match self.tree.child(node, 0) {
            None => self.joined(operator, node, Ok(0), 0),
            Some(left) => {
                let chain = chain_from(self.tree, left);
                let lowest = self.node_value(chain.lowest, 0);
                self.chain_value(node, chain.levels + 1, lowest)
            }
        }
    }

    /// The number of a node with a chain of so many operators, by that of the operand below them. The lower half is found before the upper
    /// one, so that calls stand in one another no deeper than the number of operators has binary digits.
    #[cycle(values)]
    #[tactic(auto, using(crate::proofs::LeftOperands::halves_cases))]
    fn chain_value(&self, node: u32, levels: u32, lowest: Result<i32, u8>) -> Result<i32, u8>
        requires node { node < length self.now.tree.now.trees }
        requires some { 0 < levels }
        requires chain { IsChain levels (tree_at self.now.tree.now.trees node) }
        requires lowest { lowest ≡ value (scope_of self.now)
            (left_below levels (tree_at self.now.tree.now.trees node)) }
        ensures { result ≡ value (scope_of self.now) (tree_at self.now.tree.now.trees node) }
    {
        if levels == 1 {
            return match self.tree.kind(node) {
                NodeKind::Binary(operator) => self.joined(operator, node, lowest, 0),
                _ => unreachable!(),
            };
        }
        let upper = levels / 2;
        let middle = operand_below(self.tree, node, upper);
        let number = self.chain_value(middle, levels - upper, lowest);
        self.chain_value(node, upper, number)
    }

    /// The number of an operator by that of its left operand. The right one isn't looked at where the left one decides.
    #[cycle(values)]
    #[inline(always)]
    fn joined(
        &self,
        operator: BinaryOp,
        node: u32,
        left: Result<i32, u8>,
        depth: u32,
    ) -> Result<i32, u8>
        requires { node < length self.now.tree.now.trees }
        ensures { result ≡ binary_value operator left (operand_at self.now node 1) }
    {
        match left {
            Err(trap) => Err(trap),
            Ok(left) => match deciding_value(operator, left) {
                Some(number) => Ok(number),
                None => match self.operand(node, 1, depth) {
                    Err(trap) => Err(trap),
                    Ok(right) => binary_result(operator, left, right),
                },
            },
        }
    }
}

/// The cell of an element, or the trap of its index.
#[inline(always)]
fn element(entry: Entry, index: i32) -> Result<usize, u8>
    ensures { result ≡ element entry index }
{
    match u32::try_from(index) {
        Ok(index) if index < entry.size => Ok(entry.first as usize + index as usize),
        _ => Err(INDEX),
    }
}

/// What is in a cell; 0 where there is none.
#[inline(always)]
pub(crate) fn number_in(cells: &[i32], cell: usize) -> i32
    ensures { result ≡ cell_at cells.now cell }
{
    match cells.get(cell) {
        Some(number) => *number,
        None => 0,
    }
}

/// What a routine of threads gives.
fn thread_number(which: Getter, view: View) -> i32
    requires { HasNumbers view }
    ensures { result ≡ pos (getter_number which view) }
{
    match which {
        Getter::ThreadNum => view.index as i32,
        Getter::NumThreads => view.team as i32,
        Getter::MaxThreads => view.max as i32,
    }
}
