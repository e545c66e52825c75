//! The constructs of a program: those that are open, and those that have ended.

ghost use Rattle.std.specs.Prelude.{◌≡◌, ◌++◌, List, Some, map, IfOk, OnOk};
ghost use Rattle.std.specs.Option.{option_copied};
ghost use Rattle.c_check.specs.Constructs.{no_constructs, open_constructs, with_begun, with_clause, with_ended, with_loop, with_mention, with_none_open, with_use};
ghost use Rattle.c_check.specs.Copies.{AreCopies};
ghost use Rattle.c_check.specs.Faults.{first_of};
ghost use Rattle.c_check.specs.Rules.{is_some_copy, not_listed};
ghost use Rattle.c_check.specs.Seen.{construct_at, seen_by};
ghost use Rattle.c_check.specs.Shares.{TaskCopy, copies_around};

use crate::acts::act::{DataClause, Single};
use crate::constructs::around::Around;
use crate::constructs::construct::Construct;
use crate::constructs::copying::{note_older, note_one};
use crate::constructs::inner_loops::InnerLoops;
use crate::constructs::noted::{note_loop, note_use};
use crate::constructs::parts::{EndedNumber, Head, Mention, Unlisted};
use crate::constructs::shares::sharing;
use crate::constructs::spots::Spots;
use crate::constructs::task_copies::TaskCopies;
use crate::fault::CheckFault;
use crate::rules::breaches::not_listed;
use crate::scopes::declared::Declared;
use crate::sharing::Sharing;
use c_syntax::Directive;
use c_tokens::Spot;
use std::alloc::{AllocError, Global};
use std::marker::Model;

/// The constructs so far. Contracts see those that are open, those that have ended, and what is noted.
#[derive(Drop)]
pub struct Constructs {
    alloc: Global,
    /// The construct that began last, as long as no other has begun in it and it hasn't ended. It alone changes.
    newest: Option<Construct>,
    /// All others: each stands at its number.
    older: Vec<Construct>,
    /// The numbers of those that are open, the innermost last.
    around: Vec<usize>,
    /// Those that have ended, the first one first.
    ended: Vec<EndedNumber>,
    /// Where these stand, in the same order.
    spots: Spots,
    /// The uses of variables that a construct with `default(none)` doesn't list.
    unlisted: Vec<Unlisted>,
    /// The loops inside constructs.
    loops: InnerLoops,
}

impl Model for Constructs {
    ghost use Rattle.std.specs.Prelude.{reverse};
    ghost use Rattle.c_check.specs.Constructs.{Constructs};

    ghost Value = { Constructs };

    ghost use Rattle.c_check.specs.Around.{AreKept, ended_in, numbered};

    ghost view = { λ them. record {
      newest = them.newest;
      around = numbered them.older.items (reverse them.around.items);
      ended = ended_in them.older.items them.ended.items;
      unlisted = them.unlisted.items;
      loops = them.loops;
    } };

    ghost invariant = { λ them. AreKept them.older.items (reverse them.around.items) them.ended.items them.spots };
}

impl Constructs {
    /// No constructs.
    pub fn new(alloc: Global) -> Constructs
        ensures { result ≡ no_constructs }
    {
        Constructs {
            alloc,
            newest: None,
            older: Vec::new(alloc),
            around: Vec::new(alloc),
            ended: Vec::new(alloc),
            spots: Spots::new(alloc),
            unlisted: Vec::new(alloc),
            loops: InnerLoops::new(alloc),
        }
    }

    /// The construct that began last, if no other has begun in it and it hasn't ended.
    pub fn newest(&self) -> Option<&Construct>
        ensures { option_copied result ≡ self.now.newest }
    {
        self.newest.as_ref()
    }

    /// Those that are open.
    pub fn around(&self) -> Around<'_>
        ensures { result ≡ open_constructs self.now }
    {
        Around::new(self.newest.as_ref(), &self.older, &self.around)
    }

    /// A construct begins where so many declarations stand before it, with the number of a critical's name, or 0.
    pub fn enter(
        &mut self,
        spot: Spot,
        directive: Directive,
        critical: u32,
        first: usize,
    ) -> Result<(), AllocError>
        ensures { OnOk result (self.new ≡ with_begun self.old spot directive critical first) }
    {
        self.settle()?;
        let head = Head {
            spot,
            directive,
            critical,
            first,
        };
        self.newest = Some(Construct::new(self.alloc, head));
        Ok(())
    }

    /// The construct that began last gets a number. It changes no more.
    fn settle(&mut self) -> Result<(), AllocError>
        ensures { OnOk result (self.new ≡ record self.old { newest = None; around = open_constructs self.old }) }
    {
        self.older.reserve(1)?;
        self.around.reserve(1)?;
        if let Some(newest) = self.newest.take() {
            let number = self.older.len();
            self.older.push(newest)?;
            self.around.push(number)?;
        }
        Ok(())
    }

    /// The construct that began last has this clause.
    pub fn clause(&mut self, single: Single)
        ensures { self.new ≡ with_clause self.old single }
    {
        if let Some(newest) = &mut self.newest {
            newest.add_clause(single);
        }
    }

    /// A data clause of the construct that began last lists a variable.
    pub fn mention(&mut self, slot: u32, clause: DataClause) -> Result<(), AllocError>
        ensures { OnOk result (self.new ≡ with_mention self.old slot clause) }
    {
        if let Some(newest) = &mut self.newest {
            newest.add_mention(Mention { slot, clause })?;
        }
        Ok(())
    }

    /// The construct that began last shares out a loop with this variable.
    pub fn share_loop(&mut self, slot: u32) -> Result<(), AllocError>
        ensures { OnOk result (self.new ≡ with_loop self.old slot) }
    {
        let around = Around::new(self.newest.as_ref(), &self.older, &self.around);
        note_loop(&mut self.loops, around, slot)?;
        if let Some(newest) = &mut self.newest {
            newest.set_loop(slot);
        }
        Ok(())
    }

    /// A variable is used.
    pub fn use_variable(&mut self, spot: Spot, slot: u32) -> Result<(), AllocError>
        ensures { OnOk result (self.new ≡ with_use self.old spot slot) }
    {
        let around = Around::new(self.newest.as_ref(), &self.older, &self.around);
        note_use(&mut self.unlisted, around, spot, slot)
    }

    /// Notes the copies by rule of the tasks around a use of a variable, and answers whether there are any.
    pub fn note_copies(
        &self,
        copies: &mut TaskCopies,
        of_file: bool,
        slot: u32,
    ) -> Result<bool, AllocError>
        ensures copied { IfOk result (λ copied.
            copied ≡ is_some_copy (copies_around (open_constructs self.now) of_file slot)) }
        ensures noted { OnOk result ((before : List TaskCopy) → AreCopies before copies.old →
            AreCopies (before ++ copies_around (open_constructs self.now) of_file slot) copies.new) }
    {
        let found = note_older(copies, &self.older, &self.around, of_file, slot)?;
        match &self.newest {
            Some(newest) => Ok(note_one(copies, newest, found, slot)?.copied),
            None => Ok(found.copied),
        }
    }

    /// The innermost construct ends.
    pub fn leave(&mut self) -> Result<(), AllocError>
        ensures { OnOk result (self.new ≡ with_ended self.old) }
    {
        self.settle()?;
        let Some(construct) = self.around.pop() else {
            return Ok(());
        };
        let outer = Vec::from_slice(self.alloc, &self.around)?;
        let spot = self.older[construct].head().spot;
        self.ended.reserve(1)?;
        self.spots.add(spot)?;
        self.ended.push(EndedNumber { construct, outer })?;
        Ok(())
    }

    /// A function begins, in which none is open.
    pub fn begin_function(&mut self)
        ensures { self.new ≡ with_none_open self.old }
    {
        self.newest = None;
        self.around.clear();
    }

    /// The first fault, with those of variables that a construct would have to list and doesn't.
    pub fn not_listed(&self, found: Option<CheckFault>) -> Option<CheckFault>
        ensures { result ≡ first_of found (map CheckFault.NotListed (not_listed self.now.loops self.now.unlisted)) }
    {
        not_listed(&self.loops, &self.unlisted, found)
    }

    /// How the construct that stands there sees a variable. `None` where none stands there.
    pub fn sharing(&self, spot: Spot, variable: Declared) -> Option<Sharing>
        ensures { result ≡ seen_by (construct_at self.now.ended spot) (Some variable) }
    {
        let number = self.spots.number(spot)?;
        let ended = &self.ended[number];
        let construct = &self.older[ended.construct];
        let outer = Around::new(None, &self.older, &ended.outer);
        Some(sharing(construct, outer, variable.level == 0, variable.slot))
    }
}
