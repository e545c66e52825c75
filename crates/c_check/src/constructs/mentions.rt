//! The variables that data clauses list.

ghost use Rattle.std.specs.Prelude.{◌≡◌, ◌++◌, ◌∷◌, [], ℕ, nat_eq, OnErr, OnOk};
ghost use Rattle.std.specs.HashMap.{get};
ghost use Rattle.c_check.specs.Constructs.{mention};
ghost use Rattle.std.specs.Option.{option_or};

use crate::acts::act::DataClause;
use crate::constructs::parts::Mention;
use std::alloc::{AllocError, Global};
use std::collections::HashMap;
use std::marker::Model;

/// The variables that the data clauses of a construct list. Contracts see them in their order.
#[derive(Drop)]
pub struct Mentions {
    all: Vec<Mention>,
    /// The first clause that lists each variable, by its slot.
    clauses: HashMap<u32, DataClause>,
}

impl Model for Mentions {
    ghost use Rattle.std.specs.Prelude.{◌≡◌, ℕ, List, nat_eq};
    ghost use Rattle.std.specs.HashMap.{get};
    ghost use Rattle.c_check.specs.declared.constructs.parts.Mention.{Mention};

    ghost Value = { List Mention };

    ghost use Rattle.c_check.specs.Constructs.{mention};

    ghost view = { λ mentions. mentions.all.items };

    ghost invariant = { λ mentions. (slot : ℕ) → get nat_eq mentions.clauses slot ≡ mention mentions.all.items slot };
}

impl Mentions {
    /// None.
    pub fn new(alloc: Global) -> Mentions
        ensures { result ≡ [] }
    {
        Mentions {
            all: Vec::new(alloc),
            clauses: HashMap::new(alloc),
        }
    }

    /// The clause that lists a variable, if one does. Where two do, it is the first.
    pub fn clause(&self, slot: u32) -> Option<DataClause>
        ensures { result ≡ mention self.now slot }
    {
        self.clauses.get(&slot).copied()
    }

    /// One more.
    pub fn add(&mut self, mention: Mention) -> Result<(), AllocError>
        ensures added { OnOk result (self.new ≡ self.old ++ mention ∷ []) }
        ensures err { OnErr result (self.new ≡ self.old) }
    {
        self.all.reserve(1)?;
        keep_first(&mut self.clauses, mention)?;
        self.all.push(mention)?;
        Ok(())
    }
}

/// A variable is listed by this clause, if none listed it before.
fn keep_first(clauses: &mut HashMap<u32, DataClause>, one: Mention) -> Result<(), AllocError>
    ensures kept { OnOk result ((slot : ℕ) →
        get nat_eq clauses.new slot ≡ option_or (get nat_eq clauses.old slot) (mention (one ∷ []) slot)) }
    ensures err { OnErr result ((slot : ℕ) → get nat_eq clauses.new slot ≡ get nat_eq clauses.old slot) }
{
    if !clauses.contains_key(&one.slot) {
        clauses.insert(one.slot, one.clause)?;
    }
    Ok(())
}
