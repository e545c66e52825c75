//! The numbers of expressions, in the scope of a control.

ghost use Rattle.std.specs.Prelude.{◌≡◌, ◌≤◌, length, drop, IfOk};
ghost use Rattle.c_model.specs.Cells.{entry_of};
ghost use Rattle.c_model.specs.Value as values;
ghost use Rattle.c_model.specs.declared.limits.TheConstants.{CELL_LIMIT};
ghost use Rattle.c_steps.specs.ControlView.{env_at, scope_in};
ghost use Rattle.c_steps.specs.Nodes.{IsPart, part_at};
ghost use Rattle.c_steps.specs.Rooming.{AreEntries, IsEntry};
ghost use Rattle.c_steps.specs.Scopes.{scope_of};
ghost use Rattle.c_steps.specs.Views.{HasNumbers};

use crate::cells::Cells;
use crate::code::Code;
use crate::control::Control;
use crate::in_scope::entry_among;
use crate::scope::Scope;
use c_model::{Entry, View};

impl Control {
    /// What the expressions of the function that was called last are evaluated in.
    #[tactic(auto, using(crate::proofs::Entries::are_together), unfolding(crate::specs::Items::file_names))]
    #[inline(always)]
    pub(super) fn scope<'a>(&'a self, code: &'a Code, cells: &'a [i32], view: View) -> Scope<'a>
        requires { HasNumbers view }
        ensures tree { result.tree.now ≡ code.now }
        ensures scope { scope_of result ≡ record { env = env_at code.now self.now; cells = cells.now; view = view } }
        ensures view { result.view ≡ view }
        ensures entries { AreEntries (scope_of result).env }
    {
        Scope {
            tree: code.tree(),
            file: code.file(),
            names: self.own_entries(),
            cells,
            view,
        }
    }

    /// The names of the function that was called last.
    #[tactic(auto, using(crate::proofs::Entries::are_own))]
    #[inline(always)]
    pub(super) fn own_entries(&self) -> &[Entry]
        ensures names { result.now ≡ drop self.now.base self.now.names }
        ensures entries { AreEntries result.now }
    {
        &self.names.items()[self.base..]
    }

    /// The entry of a name, the newest one. A name that nothing declares has one that no cell belongs to.
    #[tactic(auto, using(crate::proofs::Entries::is_entry_there), unfolding(crate::specs::Items::file_names))]
    #[inline(always)]
    pub(super) fn entry(&self, code: &Code, name: u32) -> Entry
        ensures entry { result ≡ entry_of (env_at code.now self.now) name }
        ensures cells { IsEntry result }
    {
        entry_among(code.file(), self.own_entries(), name)
    }

    /// The number of an expression, or the number of its trap: 1 where a result doesn't fit a cell, 2 where a divisor is 0, 3 where an index is
    /// outside its array. An expression that is missing is 0. The names are those in scope where the code stands, and neither control nor
    /// cells change.
    #[inline(always)]
    pub fn value(
        &self,
        code: &Code,
        cells: &Cells,
        view: View,
        part: Option<u32>,
    ) -> Result<i32, u8>
        requires part { IsPart code.now.trees part }
        requires view { HasNumbers view }
        ensures { result ≡ values.value (scope_in code.now view self.now cells.now) (part_at code.now.trees part) }
    {
        self.scope(code, cells.items(), view).value(part)
    }

    /// The cell of a place, or a trap.
    #[inline(always)]
    pub(super) fn place_cell(
        &self,
        code: &Code,
        cells: &Cells,
        view: View,
        place: Option<u32>,
    ) -> Result<usize, u8>
        requires place { IsPart code.now.trees place }
        requires view { HasNumbers view }
        ensures cell { result ≡ values.cell_of (scope_in code.now view self.now cells.now)
            (part_at code.now.trees place) }
        ensures within { IfOk result (λ cell. cell ≤ CELL_LIMIT) }
    {
        self.scope(code, cells.items(), view).place_cell(place)
    }

    /// How many names of the function that was called last are in scope.
    #[inline(always)]
    pub(super) fn own_names(&self) -> usize
        ensures { result ≡ length (drop self.now.base self.now.names) }
    {
        self.names.len() - self.base
    }
}
