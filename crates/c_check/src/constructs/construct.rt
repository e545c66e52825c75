//! A construct.

ghost use Rattle.std.specs.Prelude.{◌≡◌, ◌++◌, ◌∷◌, [], OnErr, OnOk};
ghost use Rattle.c_check.specs.Constructs.{is_inside, leaves_out, mention, no_clauses, with_single};
ghost use Rattle.c_check.specs.Shares.{is_loop_variable};

use crate::acts::act::{DataClause, Single};
use crate::constructs::mentions::Mentions;
use crate::constructs::parts::{Clauses, Head, Mention};
use c_syntax::Default;
use std::alloc::{AllocError, Global};
use std::marker::Model;

/// A construct.
#[derive(Drop)]
pub struct Construct {
    head: Head,
    clauses: Clauses,
    mentions: Mentions,
    /// The slot of the variable of the loop that it shares out.
    loop_slot: Option<u32>,
}

impl Model for Construct {
    ghost use Rattle.c_check.specs.Constructs.{Construct};

    ghost Value = { Construct };

    ghost view = { λ it. record { head = it.head; clauses = it.clauses; mentions = it.mentions; loop = it.loop_slot } };
}

impl Construct {
    /// One that begins.
    pub fn new(alloc: Global, head: Head) -> Construct
        ensures { result ≡ record { head = head; clauses = no_clauses; mentions = []; loop = None } }
    {
        Construct {
            head,
            clauses: Clauses {
                num_threads: false,
                default_shared: false,
                default_none: false,
                schedule: false,
                nowait: false,
                condition: false,
            },
            mentions: Mentions::new(alloc),
            loop_slot: None,
        }
    }

    /// How it begins.
    pub fn head(&self) -> Head
        ensures { result ≡ self.now.head }
    {
        self.head
    }

    /// Which clauses it has of those that may stand once.
    pub fn clauses(&self) -> Clauses
        ensures { result ≡ self.now.clauses }
    {
        self.clauses
    }

    /// The clause that lists a variable, if one does.
    pub fn mention(&self, slot: u32) -> Option<DataClause>
        ensures { result ≡ mention self.now.mentions slot }
    {
        self.mentions.clause(slot)
    }

    /// Whether a variable is declared inside.
    pub fn is_inside(&self, slot: u32) -> bool
        ensures { result ≡ is_inside self.now slot }
    {
        self.head.first <= slot as usize
    }

    /// Whether a variable is that of the loop that it shares out.
    pub fn has_loop(&self, slot: u32) -> bool
        ensures { result ≡ is_loop_variable self.now.loop slot }
    {
        match self.loop_slot {
            Some(loop_slot) => loop_slot == slot,
            None => false,
        }
    }

    /// Whether it has `default(none)` and doesn't list a variable that is declared outside of it.
    pub fn leaves_out(&self, slot: u32) -> bool
        ensures { result ≡ leaves_out self.now slot }
    {
        self.clauses.default_none && !self.is_inside(slot) && self.mention(slot).is_none()
    }

    /// It has this clause.
    pub fn add_clause(&mut self, single: Single)
        ensures { self.new ≡ record self.old { clauses = with_single single self.old.clauses } }
    {
        match single {
            Single::NumThreads => self.clauses.num_threads = true,
            Single::Default(Default::Shared) => self.clauses.default_shared = true,
            Single::Default(Default::None) => self.clauses.default_none = true,
            Single::Schedule(_) => self.clauses.schedule = true,
            Single::Nowait => self.clauses.nowait = true,
            Single::If => self.clauses.condition = true,
        }
    }

    /// It lists a variable.
    pub fn add_mention(&mut self, mention: Mention) -> Result<(), AllocError>
        ensures added { OnOk result (self.new ≡ record self.old { mentions = self.old.mentions ++ mention ∷ [] }) }
        ensures err { OnErr result (self.new ≡ self.old) }
    {
        self.mentions.add(mention)
    }

    /// It shares out a loop with this variable.
    pub fn set_loop(&mut self, slot: u32)
        ensures { self.new ≡ record self.old { loop = Some slot } }
    {
        self.loop_slot = Some(slot);
    }
}
