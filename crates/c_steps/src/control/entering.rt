//! A call begins: its parameters come into scope, with the numbers of its arguments, and the function's body stands next.

ghost use Rattle.std.specs.Prelude.{◌≡◌, ◌+◌, ◌<◌, ◌≤◌, length, IfSome};
ghost use Rattle.c_syntax.specs.language.Numbered.{tree_at};
ghost use Rattle.c_model.specs.declared.limits.TheConstants.{CALL_LIMIT, CELL_LIMIT};
ghost use Rattle.c_model.specs.Calls.{bound_in, open_call, with_parameters};
ghost use Rattle.c_model.specs.Parts.{parts};
ghost use Rattle.c_model.specs.Program.{parameters_of};
ghost use Rattle.c_model.specs.Value.{all_values};
ghost use Rattle.c_steps.specs.Arguments.{values_in};
ghost use Rattle.c_steps.specs.Entering.{BindsParameter, HasMore, HaveNoTrap, IsCall, IsCaller, arguments_from, bound_at, caller_scope, moment_entered};
ghost use Rattle.c_steps.specs.ControlView.{env_at, here_at, moment_at, scope_in};
ghost use Rattle.c_steps.specs.Moves.{bound_if, env_with};
ghost use Rattle.c_steps.specs.Nodes.{IsPart, part_at};
ghost use Rattle.c_steps.specs.Ready.{AreFrames, IsAfterStep};
ghost use Rattle.c_steps.specs.Rooming.{IsEntry, open_calls};
ghost use Rattle.c_steps.specs.Scopes.{scope_of};
ghost use Rattle.c_steps.specs.Steps.{CanStep};
ghost use Rattle.c_steps.specs.Views.{HasNumbers};

use crate::cells::Cells;
use crate::code::Code;
use crate::control::Control;
use crate::control::calls::Call;
use crate::item::Item;
use crate::scope::Scope;
use c_model::{Entry, View};

/// The names and the cells of a function that calls, as they were when the call began.
#[derive(Clone, Copy)]
pub(super) struct Caller {
    /// Where its names begin.
    base: usize,
    /// How many names there were.
    names: usize,
    /// How many cells there were.
    cells: usize,
}

impl Control {
    /// The function is entered. Its arguments have no trap, and there is room for its parameters.
    pub(super) fn enter(
        &mut self,
        code: &Code,
        cells: &mut Cells,
        view: View,
        call: Call,
        function: Option<u32>,
    )
        requires ready { CanStep code.now view self.old }
        requires call { IsCall code.now call }
        requires function { IsPart code.now.trees function }
        requires values { HaveNoTrap (scope_in code.now view self.old cells.old) (part_at code.now.trees call.part) 0 }
        requires few { open_calls self.old.frames < CALL_LIMIT }
        requires room { length cells.old.cells + length (parameters_of (part_at code.now.trees function)) ≤ CELL_LIMIT }
        ensures step { moment_at code.now self.new cells.new ≡ moment_entered (here_at code.now view self.old cells.old)
            (part_at code.now.trees function) (open_call (here_at code.now view self.old cells.old)
            (env_with call.declared (env_at code.now self.old)) call.to) (bound_in (here_at code.now view self.old cells.old)
            (part_at code.now.trees function) (values_in (all_values (scope_in code.now view self.old cells.old)
            (parts (part_at code.now.trees call.part))))) }
        ensures settled { IsAfterStep self.old self.new }
        ensures frames { AreFrames code.now self.new.frames }
    {
        let caller = self.caller(cells);
        self.step();
        self.bind_if(call.declared);
        self.open(call.to);
        let parameters = code.child(function, 1);
        self.bind_parameters(code, cells, view, caller, call.part, parameters);
        self.then(Item::FallOff);
        self.then(Item::Start(code.child(function, 2)));
    }

    /// The function that was called last, as it is now.
    fn caller(&self, cells: &Cells) -> Caller
        ensures is { IsCaller result self.now cells.now }
        ensures base { result.base ≡ self.now.base }
        ensures names { result.names ≡ length self.now.names }
        ensures cells { result.cells ≡ length cells.now.cells }
    {
        Caller {
            base: self.base,
            names: self.names.len(),
            cells: cells.count(),
        }
    }

    /// A name more is in scope, if there is one.
    #[tactic(auto, using(crate::proofs::StepNames::no_name_more))]
    fn bind_if(&mut self, entry: Option<Entry>)
        requires room { 0 < self.old.names_now }
        requires entry { IfSome entry IsEntry }
        ensures { self.new ≡ bound_if entry self.old }
    {
        if let Some(entry) = entry {
            self.bind(entry);
        }
    }

    /// The parameters come into scope, with the numbers of the arguments.
    #[tactic(auto, using(crate::proofs::Parameters::under_way_cases))]
    fn bind_parameters(
        &mut self,
        code: &Code,
        cells: &mut Cells,
        view: View,
        caller: Caller,
        call: Option<u32>,
        parameters: Option<u32>,
    )
        requires call { IsPart code.now.trees call }
        requires parameters { IsPart code.now.trees parameters }
        requires view { HasNumbers view }
        requires caller { IsCaller caller self.old cells.old }
        requires base { self.old.base ≤ length self.old.names }
        requires values { HaveNoTrap (caller_scope code.now view caller self.old cells.old)
            (part_at code.now.trees call) 0 }
        requires names { length (parts (part_at code.now.trees parameters)) ≤ self.old.names_now }
        requires room { length cells.old.cells + length (parts (part_at code.now.trees parameters)) ≤ CELL_LIMIT }
        ensures bound { bound_at code.now self.new cells.new ≡
            with_parameters code.now (bound_at code.now self.old cells.old) (parts (part_at code.now.trees parameters))
            (values_in (arguments_from (caller_scope code.now view caller self.old cells.old)
            (part_at code.now.trees call) 0)) }
        ensures more { HasMore self.old self.new cells.old cells.new }
    {
        let (mut place, mut argument) = (0, 0);
        while let Some(parameter) = code.part(parameters, place) {
            argument = self.bind_parameter(code, cells, view, caller, call, parameter, argument);
            place += 1;
        }
    }

    /// A parameter comes into scope, with the number of the argument at a place. Answers the place of the next argument.
    #[tactic(auto, using(crate::proofs::Parameters::binds_parameter))]
    fn bind_parameter(
        &mut self,
        code: &Code,
        cells: &mut Cells,
        view: View,
        caller: Caller,
        call: Option<u32>,
        parameter: u32,
        place: u32,
    ) -> u32
        requires call { IsPart code.now.trees call }
        requires parameter { parameter < length code.now.trees }
        requires view { HasNumbers view }
        requires caller { IsCaller caller self.old cells.old }
        requires values { HaveNoTrap (caller_scope code.now view caller self.old cells.old)
            (part_at code.now.trees call) place }
        requires base { self.old.base ≤ length self.old.names }
        requires names { 0 < self.old.names_now }
        requires room { length cells.old.cells < CELL_LIMIT }
        ensures { BindsParameter code.now view caller (part_at code.now.trees call)
            (tree_at code.now.trees parameter) place result self.old self.new cells.old cells.new }
    {
        let argument = self
            .caller_scope(code, cells, view, caller)
            .argument(call, place);
        let entry = Entry {
            name: code.name(Some(parameter)),
            first: cells.count() as u32,
            size: 1,
            slot: code.slot(parameter),
        };
        self.bind(entry);
        cells.push(argument.number);
        argument.next
    }

    /// What the arguments of a call are evaluated in.
    #[tactic(auto, unfolding(crate::specs::Items::file_names))]
    fn caller_scope<'a>(
        &'a self,
        code: &'a Code,
        cells: &'a Cells,
        view: View,
        caller: Caller,
    ) -> Scope<'a>
        requires caller { IsCaller caller self.now cells.now }
        requires view { HasNumbers view }
        ensures tree { result.tree.now ≡ code.now }
        ensures view { result.view ≡ view }
        ensures scope { scope_of result ≡ caller_scope code.now view caller self.now cells.now }
    {
        Scope {
            tree: code.tree(),
            file: code.file(),
            names: &self.names.items()[..caller.names][caller.base..],
            cells: &cells.items()[..caller.cells],
            view,
        }
    }
}
