//! The longest chains to the events so far.

ghost use Rattle.std.specs.Prelude.{◌≡◌, ◌⊎◌, ◌+◌, [], List, IfOk, OnOk, Some, max};
ghost use Rattle.ompt_calls.specs.declared.event.EventRecord.{EventRecord as EventOf};
ghost use Rattle.tool_tasks.specs.declared.reaches.Link.{Link as LinkOf};
ghost use Rattle.tool_tasks.specs.Holding.{Adds, AreAllShort, AreShort, Ends, EndsFor, GivesAll, GivesKey, HoldsEnds, HoldsReaches, length_for, reach_for};
ghost use Rattle.tool_tasks.specs.Reaching.{span_of};

use crate::chains::Chains;
use crate::key::Key;
use std::alloc::{AllocError, Global};
use std::collections::BTreeMap;

/// The longest chain to an event.
#[derive(Clone, Copy)]
pub(crate) struct Reach {
    /// Its length.
    pub length: u32,
    /// The number of its last link, counted from 1; 0 where the length is 0.
    pub link: u32,
}

/// A charged event, and the one before it in a longest chain to it.
#[derive(Clone, Copy)]
pub(crate) struct Link {
    /// The event's position.
    pub seq: u32,
    /// The link before it, or 0 where it is the first.
    pub back: u32,
}

/// The longest chains to the events so far.
#[derive(Drop)]
pub(crate) struct Reaches {
    /// The longest chain to an event that gave a key, by the key's number.
    pub bests: BTreeMap<u128, Reach>,
    /// A link for each charged event.
    pub links: Vec<Link>,
    /// The longest chain of all.
    pub greatest: Reach,
}

/// No chain.
pub(crate) const NOWHERE: Reach = Reach { length: 0, link: 0 };

impl Reaches {
    /// No event was charged yet.
    pub fn new(alloc: Global) -> Reaches
        ensures { HoldsReaches result [] }
    {
        Reaches {
            bests: BTreeMap::new(alloc),
            links: Vec::new(alloc),
            greatest: NOWHERE,
        }
    }

    /// The chains of the events so far.
    pub fn finish(self) -> Chains
        ensures longest { result.longest ≡ self.greatest }
        ensures links { result.links ≡ self.links }
    {
        Chains {
            links: self.links,
            longest: self.greatest,
        }
    }

    /// The longest chain to an event that gave this key.
    fn best(&self, key: Option<Key>) -> Reach
        ensures reach { result ≡ reach_for self.now.bests key }
        ensures length { result.length ≡ length_for self.now.bests key }
        ensures short { AreShort key }
    {
        match key {
            Some(key) => self.bests.get(&key.number()).copied().unwrap_or(NOWHERE),
            None => NOWHERE,
        }
    }

    /// Adds the link of a charged event that takes these keys, and says which chain it is the end of.
    pub fn add(
        &mut self,
        seq: u32,
        next: Option<Key>,
        taken: (Option<Key>, Option<Key>),
    ) -> Result<Reach, AllocError>
        ensures length { IfOk result (λ reach. reach.length
            ≡ max (max (length_for self.old.bests next) (length_for self.old.bests taken.0))
            (length_for self.old.bests taken.1) + 1) }
        ensures adds { IfOk result (λ reach. Adds self.old self.new seq next taken reach) }
        ensures greatest { IfOk result (λ reach. self.new.greatest.length ≡ max self.old.greatest.length reach.length) }
        ensures bests { self.new.bests ≡ self.old.bests }
        ensures next_short { AreShort next }
        ensures first_short { AreShort taken.0 }
        ensures second_short { AreShort taken.1 }
    {
        let before = longer(
            longer(self.best(next), self.best(taken.0)),
            self.best(taken.1),
        );
        let length = before.length.checked_add(1).ok_or(AllocError)?;
        self.links.push(Link {
            seq,
            back: before.link,
        })?;
        let link = u32::try_from(self.links.len()).map_err(|_| AllocError)?;
        let reach = Reach { length, link };
        self.greatest = longer(self.greatest, reach);
        Ok(reach)
    }

    /// The event at the end of this chain gives these keys.
    pub fn give_all(
        &mut self,
        next: Key,
        given: (Option<Key>, Option<Key>, Option<Key>),
        reach: Reach,
    ) -> Result<(), AllocError>
        ensures gives { OnOk result (GivesAll self.old.bests self.new.bests next given reach.length) }
        ensures short { OnOk result (AreAllShort next given) }
        ensures ends { OnOk result ((links : List LinkOf) (past : List EventOf) → HoldsEnds links past self.old.bests →
            Ends links past next reach → EndsFor links past given.0 reach → EndsFor links past given.1 reach →
            EndsFor links past given.2 reach → HoldsEnds links past self.new.bests) }
        ensures links { self.new.links ≡ self.old.links }
        ensures greatest { self.new.greatest ≡ self.old.greatest }
    {
        self.give(Some(next), reach)?;
        self.give(given.0, reach)?;
        self.give(given.1, reach)?;
        self.give(given.2, reach)?;
        Ok(())
    }

    /// The event at the end of this chain gives a key.
    fn give(&mut self, key: Option<Key>, reach: Reach) -> Result<(), AllocError>
        ensures gives { OnOk result (GivesKey self.old.bests self.new.bests key reach.length) }
        ensures ends { OnOk result ((links : List LinkOf) (past : List EventOf) → HoldsEnds links past self.old.bests →
            EndsFor links past key reach → HoldsEnds links past self.new.bests) }
        ensures links { self.new.links ≡ self.old.links }
        ensures greatest { self.new.greatest ≡ self.old.greatest }
        ensures short { AreShort key }
    {
        let Some(key) = key else {
            return Ok(());
        };
        let best = longer(self.best(Some(key)), reach);
        self.bests.insert(key.number(), best)?;
        Ok(())
    }
}

/// The longer of two chains.
fn longer(first: Reach, second: Reach) -> Reach
    ensures length { result.length ≡ max first.length second.length }
    ensures either { (result ≡ first) ⊎ (result ≡ second) }
{
    if first.length < second.length {
        second
    } else {
        first
    }
}
