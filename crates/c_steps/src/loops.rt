//! The loop that a construct shares out.

ghost use Rattle.std.specs.Prelude.{◌≡◌, ◌<◌, ℕ, List, length, nat_abs};
ghost use Rattle.c_syntax.specs.language.Tree.{Tree as Part};
ghost use Rattle.c_check.specs.SharedLoops.{IsBefore, loop_at};
ghost use Rattle.c_model.specs.Loops as loops;
ghost use Rattle.c_steps.specs.LoopNodes.{AreParts, GoesOn, parts_at};
ghost use Rattle.c_steps.specs.NodeTrees.{tree_of};

use crate::node::Node;
use c_check::SharedLoop;
use c_syntax::BinaryOp;

/// The parts of the loop that a construct shares out. Where it shares out none all parts are missing.
#[derive(Clone, Copy)]
pub(crate) struct LoopNodes {
    /// The node of the variable: a place, or the name that the loop declares.
    pub variable: Option<u32>,
    /// The node of what the variable starts with.
    pub start: Option<u32>,
    /// The node of what the variable is compared with.
    pub end: Option<u32>,
    /// The node of the body.
    pub body: Option<u32>,
    /// The sign between the variable and the end.
    pub comparison: BinaryOp,
    /// What each iteration adds to the variable.
    pub step: i32,
}

/// The parts of the loop that a construct shares out.
#[tactic(auto, using(crate::proofs::Iterating::loop_goes_on), unfolding(crate::specs::Nodes::IsPart))]
pub(crate) fn loop_nodes(construct: Node) -> LoopNodes
    ensures parts { parts_at construct.entry.code.now.trees result ≡ loops.loop_of (tree_of construct.entry) }
    ensures there { AreParts construct.entry.code.now.trees result }
    ensures goes_on { GoesOn result.comparison result.step }
{
    match construct.code.program().shared_loop(construct.number) {
        Some(found) => nodes_of(found),
        None => LoopNodes {
            variable: None,
            start: None,
            end: None,
            body: None,
            comparison: BinaryOp::Less,
            step: 1,
        },
    }
}

/// The parts of a loop that was found.
fn nodes_of(found: SharedLoop) -> LoopNodes
    ensures parts { (trees : List Part) → parts_at trees result ≡ loop_at trees found }
    ensures comparison { result.comparison ≡ found.comparison }
    ensures step { result.step ≡ found.step }
    ensures there { (trees : List Part) (construct : ℕ) → IsBefore construct found → construct < length trees →
        AreParts trees result }
{
    LoopNodes {
        variable: Some(found.variable),
        start: Some(found.start),
        end: Some(found.end),
        body: Some(found.body),
        comparison: found.comparison,
        step: found.step,
    }
}

/// How many iterations a loop has, where its variable starts with one number and the test has the other one.
pub(crate) fn iteration_count(comparison: BinaryOp, start: i32, end: i32, step: i32) -> u64
    ensures { result ≡ loops.count_by comparison start end (nat_abs step) }
{
    let (start, end) = (i64::from(start), i64::from(end));
    let size = u64::from(step.unsigned_abs());
    match comparison {
        BinaryOp::Less => steps_in(distance(start, end), size),
        BinaryOp::LessEqual => steps_in(distance(start, end + 1), size),
        BinaryOp::Greater => steps_in(distance(end, start), size),
        BinaryOp::GreaterEqual => steps_in(distance(end - 1, start), size),
        _ => 0,
    }
}

/// How far a number is above another one; 0 where it isn't above.
fn distance(from: i64, to: i64) -> u64
    ensures { result ≡ loops.distance from to }
{
    if from < to { to.abs_diff(from) } else { 0 }
}

/// How often a step of this size goes into a distance, where a part counts as a whole.
#[tactic(auto, using(crate::proofs::Iterating::rounded_up))]
fn steps_in(distance: u64, size: u64) -> u64
    ensures { result ≡ loops.steps_in distance size }
{
    if size == 0 {
        0
    } else {
        distance.div_ceil(size)
    }
}
