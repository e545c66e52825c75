//! The iterations of loops that are shared out, and reductions.

ghost use Rattle.std.specs.Prelude.{◌≡◌, ◌<◌, ◌≤◌, drop, take};
ghost use Rattle.c_syntax.specs.language.Numbered.{TreeView};
ghost use Rattle.c_model.specs.Cells.{entry_of, first_named};
ghost use Rattle.c_model.specs.Constructs as constructs;
ghost use Rattle.c_model.specs.Loops.{iteration_value};
ghost use Rattle.c_steps.specs.ControlView.{env_at, here_at};
ghost use Rattle.c_steps.specs.Items.{item_at, loop_at, with_file};
ghost use Rattle.c_steps.specs.Ready.{AreLoopNumbers, IsItem, IsLoop, IsStepping};
ghost use Rattle.c_steps.specs.Steps.{Advances, CanStep};

use crate::cells::Cells;
use crate::code::Code;
use crate::control::Control;
use crate::evaluate::number_in;
use crate::in_scope::{entry_among, first_named};
use crate::item::{Item, Loop};
use crate::next::Next;
use crate::numbers::reduction_result;
use c_model::View;
use c_syntax::ReductionOp;

impl Control {
    /// An iteration begins: the loop's variable is set, and the body stands next, and then the iterations behind, or the next chunk.
    #[tactic(auto, unfolding(crate::specs::Items::todo_at, crate::specs::Items::calls_at))]
    #[inline(never)]
    pub(super) fn begin_iteration(
        &mut self,
        code: &Code,
        cells: &mut Cells,
        view: View,
        shared: Loop,
        at: u64,
        upto: u64,
    ) -> Next
        requires ready { CanStep code.now view self.old }
        requires shared { IsLoop code.now shared }
        requires at { at < upto }
        requires upto { upto ≤ shared.count }
        ensures { Advances code.now result self.old cells.old self.new cells.new
            (constructs.begin_iteration (here_at code.now view self.old cells.old) (loop_at code.now shared) at upto) }
    {
        let cell = self
            .scope(code, cells.items(), view)
            .entry(shared.variable)
            .first;
        let number = iteration_value(shared, at);
        self.step();
        self.then(iterations_from(shared, at + 1, upto));
        self.then(Item::Start(shared.body));
        cells.set(cell as usize, number);
        Next::Quiet
    }

    /// A reduction variable is combined with the one among the first so many names.
    #[inline(never)]
    pub(super) fn combine(
        &mut self,
        code: &Code,
        cells: &mut Cells,
        view: View,
        operator: ReductionOp,
        name: u32,
        names: usize,
    ) -> Next
        requires { IsStepping code.now self.old }
        ensures { Advances code.now result self.old cells.old self.new cells.new
            (constructs.combine (here_at code.now view self.old cells.old) operator name (with_file code.now names)) }
    {
        let around = self.cell_around(code, name, names);
        let own = self.cell_of_copy(code, name, names);
        let (held, copy) = (
            number_in(cells.items(), around),
            number_in(cells.items(), own),
        );
        match reduction_result(operator, held, copy) {
            Err(trap) => Next::Trap(trap),
            Ok(number) => {
                self.step();
                cells.set(around, number);
                Next::Quiet
            }
        }
    }

    /// The cell of the variable among the first so many names.
    fn cell_around(&self, code: &Code, name: u32, names: usize) -> usize
        ensures { result ≡ (entry_of (take (with_file code.now names) (env_at code.now self.now)) name).first }
    {
        let own = self.own_entries();
        let around = &own[..names.min(own.len())];
        entry_among(code.file(), around, name).first as usize
    }

    /// The cell of a construct's copy of it, behind those names.
    fn cell_of_copy(&self, code: &Code, name: u32, names: usize) -> usize
        ensures { result ≡ (first_named name (drop (with_file code.now names) (env_at code.now self.now))).first }
    {
        let own = self.own_entries();
        first_named(&own[names.min(own.len())..], name).first as usize
    }
}

/// The iterations behind one number, up to another one; behind the last one the next chunk.
fn iterations_from(shared: Loop, at: u64, upto: u64) -> Item
    requires upto { upto ≤ shared.count }
    ensures item { (program : TreeView) →
        item_at program result ≡ constructs.iterations_from (loop_at program shared) at upto }
    ensures is_item { (program : TreeView) → IsLoop program shared → IsItem program result }
{
    if at < upto {
        Item::Iterations { shared, at, upto }
    } else {
        Item::NextChunk(shared)
    }
}

/// The value of a loop's variable in an iteration.
fn iteration_value(shared: Loop, at: u64) -> i32
    requires numbers { AreLoopNumbers shared.start shared.count shared.step }
    requires at { at < shared.count }
    ensures { result ≡ iteration_value shared.start shared.step at }
{
    let moved = at as i64 * shared.step;
    (shared.start + moved) as i32
}
