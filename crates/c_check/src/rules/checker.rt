//! What a program breaks, act by act.
#![tactic(auto, using(crate::proofs::Found::first_fault_cases), unfolding(crate::specs::Here::after))]

ghost use Rattle.std.specs.Prelude.{◌≡◌, ◌==◌, ◌+◌, ◌&&◌, nat_lt, None, Some, false, true, OnOk};
ghost use Rattle.c_check.specs.declared.acts.act.Act.TheVariants as act;
ghost use Rattle.c_check.specs.Cells.{cells_of, most_cells};
ghost use Rattle.c_check.specs.Declarations.{find, is_at_level};
ghost use Rattle.c_check.specs.Faults.{first_of};
ghost use Rattle.c_check.specs.Here.{Here, before_all, declared, is_variable};
ghost use Rattle.c_check.specs.Standing.{DoesAct, Stands, if_so};

use crate::acts::act::{Act, DataClause, Printed, Returned, Single, Thing, Usage};
use crate::constructs::arena::Constructs;
use crate::constructs::criticals::Criticals;
use crate::constructs::task_copies::TaskCopies;
use crate::fault::CheckFault;
use crate::rules::breaches::{bad_loop, is_listed, spoiled, wrong_clause};
use crate::rules::finding::sooner_if;
use crate::rules::nesting::{binds_badly, is_critical, is_within, nests_badly};
use crate::rules::uses::{
    calls_main, is_lock, is_odd_main, is_odd_size, is_variable, is_wrong, is_wrong_return,
};
use crate::scopes::cells::CellCount;
use crate::scopes::declarations::Declarations;
use crate::scopes::declared::Declared;
use crate::scopes::slots::Slots;
use c_syntax::{Directive, Returns};
use c_tokens::Spot;
use std::alloc::{AllocError, Global};

/// Where a program stands, and the first fault so far.
#[derive(Drop)]
pub struct Checker {
    /// The number of the name `main`.
    main: u32,
    /// The declarations.
    pub names: Declarations,
    /// How many cells the variables of the file have, up to one more than they may have.
    cells: CellCount,
    /// Whether a function main is declared.
    has_main: bool,
    /// What the function returns.
    returns: Returns,
    /// The constructs.
    pub constructs: Constructs,
    /// The slots of the names so far.
    pub slots: Slots,
    /// The copies by rule of the variables that were used so far.
    pub copies: TaskCopies,
    /// The names of the criticals so far.
    pub criticals: Criticals,
    /// The first fault so far.
    pub found: Option<CheckFault>,
}

impl Checker {
    /// Before the first act of a program, in which the name `main` has this number, or 0.
    pub fn new(alloc: Global, main: u32) -> Checker
        ensures stands { Stands result (before_all main) }
        ensures found { result.found ≡ None }
    {
        Checker {
            main,
            names: Declarations::new(alloc),
            cells: CellCount::new(),
            has_main: false,
            returns: Returns::Int,
            constructs: Constructs::new(alloc),
            slots: Slots::new(alloc),
            copies: TaskCopies::new(alloc),
            criticals: Criticals::new(alloc),
            found: None,
        }
    }

    /// One more act.
    pub fn does(&mut self, one: Act) -> Result<(), AllocError>
        ensures { OnOk result (DoesAct self.old one self.new) }
    {
        match one {
            Act::Open => self.open(),
            Act::Close => self.close(),
            Act::End => self.end(),
            Act::Begin {
                name,
                spot,
                returns,
                parameters,
            } => self.begin(name, spot, returns, parameters),
            Act::Declare { name, spot, thing } => self.declare(name, spot, thing),
            Act::Use { name, spot, usage } => self.use_name(name, spot, usage),
            Act::Assign { name } => self.assign(name),
            Act::Print { spot, printed } => self.print(spot, printed),
            Act::Return { spot, returned } => self.return_(spot, returned),
            Act::Barrier { spot } => self.barrier(spot),
            Act::Enter {
                spot,
                directive,
                critical,
            } => self.enter(spot, directive, critical),
            Act::Clause(single) => self.clause(single),
            Act::List { name, spot, clause } => self.list(name, spot, clause),
            Act::OddLoop => self.odd_loop(),
            Act::Loop { name } => self.share_loop(name),
            Act::Leave => self.leave(),
            Act::Finish { spot } => self.finish(spot),
        }
    }

    /// A fault, where this is so.
    fn note_if(&mut self, broken: bool, fault: CheckFault)
        ensures { self.new ≡ record self.old { found = first_of self.old.found (if_so broken fault) } }
    {
        self.found = sooner_if(self.found, broken, fault);
    }

    /// A name is declared, with a slot.
    fn add(&mut self, name: u32, spot: Spot, thing: Thing) -> Result<(), AllocError>
        ensures stands { OnOk result ((here : Here) → Stands self.old here →
            Stands self.new (declared here name spot thing)) }
        ensures found { OnOk result (self.new.found ≡ self.old.found) }
    {
        if self.names.level() == 0 {
            self.cells.add(thing);
        }
        let slot = self.names.declare(name, thing)?;
        self.slots.add(spot, slot)
    }

    /// Whether the name is declared in the innermost scope.
    fn is_twice(&self, name: u32) -> bool
        ensures { result ≡ is_at_level self.now.names.level (find self.now.names.visible name) }
    {
        match self.names.find(name) {
            Some(found) => found.level == self.names.level(),
            None => false,
        }
    }

    /// A scope begins.
    fn open(&mut self) -> Result<(), AllocError>
        ensures { OnOk result (DoesAct self.old act.Open self.new) }
    {
        self.names.open()
    }

    /// The innermost scope ends.
    fn close(&mut self) -> Result<(), AllocError>
        ensures { OnOk result (DoesAct self.old act.Close self.new) }
    {
        self.names.close()
    }

    /// A function ends.
    fn end(&mut self) -> Result<(), AllocError>
        ensures { OnOk result (DoesAct self.old act.End self.new) }
    {
        self.names.close()
    }

    /// A function begins.
    fn begin(
        &mut self,
        name: u32,
        spot: Spot,
        returns: Returns,
        parameters: u32,
    ) -> Result<(), AllocError>
        ensures { OnOk result (DoesAct self.old (act.Begin name spot returns parameters) self.new) }
    {
        self.note_if(self.is_twice(name), CheckFault::TwiceDeclared(spot));
        self.note_if(
            name == self.main && is_odd_main(returns, parameters),
            CheckFault::WrongUse(spot),
        );
        self.add(name, spot, Thing::Function(returns, parameters))?;
        self.has_main = self.has_main || name == self.main;
        self.returns = returns;
        self.constructs.begin_function();
        self.names.open()
    }

    /// A name is declared.
    fn declare(&mut self, name: u32, spot: Spot, thing: Thing) -> Result<(), AllocError>
        ensures { OnOk result (DoesAct self.old (act.Declare name spot thing) self.new) }
    {
        self.note_if(self.is_twice(name), CheckFault::TwiceDeclared(spot));
        self.note_if(
            is_odd_size(thing) || self.is_too_much(thing),
            CheckFault::WrongUse(spot),
        );
        self.add(name, spot, thing)
    }

    /// Whether the variables of the file would have too many cells.
    fn is_too_much(&self, thing: Thing) -> bool
        ensures { result ≡ (self.now.names.level == 0 && nat_lt most_cells (self.now.cells + cells_of thing)) }
    {
        self.names.level() == 0 && self.cells.is_too_much(thing)
    }

    /// A name is used.
    fn use_name(&mut self, name: u32, spot: Spot, usage: Usage) -> Result<(), AllocError>
        ensures { OnOk result (DoesAct self.old (act.Use name spot usage) self.new) }
    {
        let Some(found) = self.names.find(name) else {
            self.note_if(true, CheckFault::UnknownName(spot));
            return Ok(());
        };
        if is_variable(found.thing) {
            self.use_variable(name, spot, usage, found)
        } else {
            self.use_function(name, spot, usage, found)
        }
    }

    /// A function is used.
    fn use_function(
        &mut self,
        name: u32,
        spot: Spot,
        usage: Usage,
        found: Declared,
    ) -> Result<(), AllocError>
        requires found { find self.old.names.visible name ≡ Some found }
        requires function { is_variable found.thing ≡ false }
        ensures { OnOk result (DoesAct self.old (act.Use name spot usage) self.new) }
    {
        let misused = is_wrong(found.thing, usage) || calls_main(usage, name == self.main);
        self.note_if(misused, CheckFault::WrongUse(spot));
        self.slots.add(spot, found.slot)
    }

    /// A variable or a lock is used.
    fn use_variable(
        &mut self,
        name: u32,
        spot: Spot,
        usage: Usage,
        found: Declared,
    ) -> Result<(), AllocError>
        requires found { find self.old.names.visible name ≡ Some found }
        requires variable { is_variable found.thing ≡ true }
        ensures { OnOk result (DoesAct self.old (act.Use name spot usage) self.new) }
    {
        let copied = self
            .constructs
            .note_copies(&mut self.copies, found.level == 0, found.slot)?;
        let misused = is_wrong(found.thing, usage)
            || calls_main(usage, name == self.main)
            || is_lock(found.thing) && copied;
        self.note_if(misused, CheckFault::WrongUse(spot));
        self.constructs.use_variable(spot, found.slot)?;
        self.slots.add(spot, found.slot)
    }

    /// A variable is assigned, which spoils the loops around that have it.
    fn assign(&mut self, name: u32) -> Result<(), AllocError>
        ensures { OnOk result (DoesAct self.old (act.Assign name) self.new) }
    {
        if let Some(found) = self.names.find(name) {
            self.found = spoiled(self.constructs.around(), found.slot, self.found);
        }
        Ok(())
    }

    fn print(&mut self, spot: Spot, printed: Printed) -> Result<(), AllocError>
        ensures { OnOk result (DoesAct self.old (act.Print spot printed) self.new) }
    {
        self.note_if(printed == Printed::Wrong, CheckFault::WrongUse(spot));
        Ok(())
    }

    fn return_(&mut self, spot: Spot, returned: Returned) -> Result<(), AllocError>
        ensures { OnOk result (DoesAct self.old (act.Return spot returned) self.new) }
    {
        self.note_if(
            is_wrong_return(self.returns, returned),
            CheckFault::WrongUse(spot),
        );
        let within = is_within(self.constructs.around());
        self.note_if(within, CheckFault::BadNesting(spot));
        Ok(())
    }

    fn barrier(&mut self, spot: Spot) -> Result<(), AllocError>
        ensures { OnOk result (DoesAct self.old (act.Barrier spot) self.new) }
    {
        let misplaced = binds_badly(self.constructs.around());
        self.note_if(misplaced, CheckFault::BadNesting(spot));
        Ok(())
    }

    /// A construct begins.
    fn enter(&mut self, spot: Spot, directive: Directive, critical: u32) -> Result<(), AllocError>
        ensures { OnOk result (DoesAct self.old (act.Enter spot directive critical) self.new) }
    {
        let misplaced = nests_badly(self.constructs.around(), directive, critical);
        self.note_if(misplaced, CheckFault::BadNesting(spot));
        if is_critical(directive) {
            self.criticals.add(critical)?;
        }
        let first = self.names.count();
        self.constructs.enter(spot, directive, critical, first)
    }

    /// The construct that began last has this clause.
    fn clause(&mut self, single: Single) -> Result<(), AllocError>
        ensures { OnOk result (DoesAct self.old (act.Clause single) self.new) }
    {
        self.found = wrong_clause(self.constructs.newest(), single, self.found);
        self.constructs.clause(single);
        Ok(())
    }

    /// A data clause of the construct that began last lists this name.
    fn list(&mut self, name: u32, spot: Spot, clause: DataClause) -> Result<(), AllocError>
        ensures { OnOk result (DoesAct self.old (act.List name spot clause) self.new) }
    {
        let found = self.names.find(name);
        let again = is_listed(self.constructs.newest(), found);
        self.note_if(again, CheckFault::WrongUse(spot));
        match found {
            Some(found) => self.constructs.mention(found.slot, clause),
            None => Ok(()),
        }
    }

    fn odd_loop(&mut self) -> Result<(), AllocError>
        ensures { OnOk result (DoesAct self.old act.OddLoop self.new) }
    {
        self.found = bad_loop(self.constructs.newest(), self.found);
        Ok(())
    }

    /// The body of the innermost construct's loop begins, whose variable has this name.
    fn share_loop(&mut self, name: u32) -> Result<(), AllocError>
        ensures { OnOk result (DoesAct self.old (act.Loop name) self.new) }
    {
        let found = self.names.find(name);
        if !matches!(
            found,
            Some(Declared {
                thing: Thing::Int,
                ..
            })
        ) {
            self.found = bad_loop(self.constructs.newest(), self.found);
        }
        match found {
            Some(found) => self.constructs.share_loop(found.slot),
            None => Ok(()),
        }
    }

    fn leave(&mut self) -> Result<(), AllocError>
        ensures { OnOk result (DoesAct self.old act.Leave self.new) }
    {
        self.constructs.leave()
    }

    /// The text ends.
    fn finish(&mut self, spot: Spot) -> Result<(), AllocError>
        ensures { OnOk result (DoesAct self.old (act.Finish spot) self.new) }
    {
        self.note_if(!self.has_main, CheckFault::NoMain(spot));
        self.found = self.constructs.not_listed(self.found);
        Ok(())
    }
}
