//! `printf`.

ghost use Rattle.std.specs.Prelude.{◌≡◌, ◌++◌, length, not, nat_lt, Ok, if◌then◌else◌};
ghost use Rattle.c_syntax.specs.language.Tree.{text_of};
ghost use Rattle.c_model.specs.declared.limits.TheConstants.{TEXT_LIMIT};
ghost use Rattle.c_model.specs.Parts.{parts};
ghost use Rattle.c_model.specs.Statements as statements;
ghost use Rattle.c_model.specs.Text.{printed_text};
ghost use Rattle.c_model.specs.Value.{all_values};
ghost use Rattle.c_steps.specs.Arguments.{values_in, without_values};
ghost use Rattle.c_steps.specs.ControlView.{scope_in};
ghost use Rattle.c_steps.specs.Forms.{MakesBy};
ghost use Rattle.c_steps.specs.NodeTrees.{tree_of};
ghost use Rattle.c_steps.specs.Views.{HasNumbers};
ghost use Rattle.c_steps.specs.Steps.{CanStep};

use crate::cells::Cells;
use crate::control::Control;
use crate::next::{Made, Refusal};
use crate::node::Node;
use crate::printing::print;
use c_model::{TEXT, View};

impl Control {
    /// `printf`: its numbers from left to right, and then its text.
    #[tactic(auto, using(crate::proofs::ValuesAll::ok_values, crate::proofs::ValuesAll::trap_values))]
    #[inline(never)]
    pub(super) fn begin_print(&mut self, cells: &mut Cells, view: View, node: Node) -> Made
        requires { CanStep node.code.now view self.old }
        ensures { MakesBy statements.begin_print node.entry view result self.old cells.old self.new cells.new }
    {
        let scope = self.scope(node.code, cells.items(), view);
        match scope.check_all(node.number) {
            Err(trap) => Err(Refusal::Trap(trap)),
            Ok(()) => {
                if !self.print(cells, view, node) {
                    return Err(Refusal::Limit(TEXT));
                }
                self.step();
                Ok(())
            }
        }
    }

    /// Prints, and answers whether that is no more than may be; else nothing is printed. The numbers have no trap.
    fn print(&self, cells: &mut Cells, view: View, node: Node) -> bool
        requires view { HasNumbers view }
        requires values { without_values (all_values (scope_in node.code.now view self.now cells.old)
            (parts (tree_of node))) ≡ Ok tt }
        ensures text { let numbers = values_in (all_values (scope_in node.entry.code.now view self.now cells.old)
            (parts (tree_of node.entry))) in
            cells.new ≡ (if result then record cells.old {
              text = cells.old.text ++ printed_text (text_of (tree_of node.entry)) numbers;
            } else cells.old) }
        ensures limit { let numbers = values_in (all_values (scope_in node.entry.code.now view self.now cells.old)
            (parts (tree_of node.entry))) in
            nat_lt TEXT_LIMIT (length (cells.old.text ++ printed_text (text_of (tree_of node.entry)) numbers)) ≡ not
            result }
    {
        let scope = self.scope(node.code, &cells.cells, view);
        print(&scope, node.number, &mut cells.text)
    }
}
