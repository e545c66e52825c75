//! The checker.

ghost use Rattle.std.specs.Prelude.{◌≡◌, ◌<◌, ◌≤◌, ◌++◌, ◌∷◌, [], List, IfSome, MatchResult, OnErr, OnOk, None, Some, min, reverse};
ghost use Rattle.ompt_calls.specs.declared.event.EventRecord.{EventRecord};
ghost use Rattle.trace_check.specs.Before.{is_just};
ghost use Rattle.trace_check.specs.Checking.{BreaksOne, Checks, entries_of, last_of};
ghost use Rattle.trace_check.specs.Nested.{IsFirstBreach, Nested, has_returned, is_whole_mask};
ghost use Rattle.trace_check.specs.Opened.{open_of};
ghost use Rattle.trace_format.specs.declared.trace.Header.{Header as HeaderOf};

use crate::breach::Breach;
use crate::kept::Kept;
use omp_codes::PROFILE_MASK;
use ompt_calls::EventRecord;
use std::alloc::{AllocError, Global};
use trace_format::{EndMark, Header, RECORDED, VERSION};

/// The mask of a whole trace without dispatch, which the first version doesn't know.
const FIRST_MASK: u64 = 0x0FB3_00FE;

/// What is told of the events of a trace, one after the other, and says whether the trace is nested.
#[derive(Drop)]
pub struct Checker {
    /// What is open, as long as no rule is broken.
    kept: Kept,
    /// The first rule that is broken.
    breach: Option<Breach>,
    /// The position of the last event.
    last: Option<u32>,
}

impl Checker {
    /// A checker of a trace with this header, that was told of no event yet.
    pub fn new(alloc: Global, header: Header) -> Checker
        ensures checks { Checks result header [] }
        ensures last { last_of result ≡ None }
    {
        let breach = if is_whole_mask(&header) {
            None
        } else {
            Some(Breach { rule: 1, seq: 0 })
        };
        Checker {
            kept: Kept::new(alloc),
            breach,
            last: None,
        }
    }

    /// Takes the next event. Where its position is greater than that of the last one, the checker checks one event more. Where it finds no memory it has
    /// taken none.
    pub fn step(&mut self, event: &EventRecord) -> Result<(), AllocError>
        ensures last { OnOk result (last_of self.new ≡ Some event.now.seq) }
        ensures stays { OnErr result (last_of self.new ≡ last_of self.old) }
        ensures checks { OnOk result ((header : HeaderOf) (events : List EventRecord) → Checks self.old header events →
            IfSome (last_of self.old) (λ last. last < event.now.seq) →
            Checks self.new header (events ++ event.now ∷ [])) }
        ensures unchanged { OnErr result ((header : HeaderOf) (events : List EventRecord) →
            Checks self.old header events →
            Checks self.new header events) }
    {
        if self.breach.is_none() {
            match self.kept.first_broken(event) {
                Some(rule) => {
                    self.breach = Some(Breach {
                        rule,
                        seq: event.seq,
                    });
                    self.kept.clear();
                }
                None => self.kept.learn(event)?,
            }
        }
        self.last = Some(event.seq);
        Ok(())
    }

    /// Whether the trace of the events so far with this end is nested, and else the first breach: the least by position, and then by rule.
    pub fn verdict(&self, end: &EndMark) -> Result<(), Breach>
        ensures { (header : HeaderOf) (events : List EventRecord) → Checks self.now header events →
            MatchResult result (λ _. Nested header events end.now) (IsFirstBreach header events end.now) }
    {
        let returned = has_returned(end);
        match self.breach {
            Some(breach) => {
                // Rule 13 comes before rule 14, and is broken too by an end in which the thread of the last event has none.
                if returned && breach.rule == 14 && is_at(self.last, breach.seq) {
                    Err(Breach { rule: 13, ..breach })
                } else {
                    Err(breach)
                }
            }
            None => {
                if returned && !self.kept.is_closed() {
                    Err(Breach {
                        rule: 13,
                        seq: self.last.unwrap_or(0),
                    })
                } else {
                    Ok(())
                }
            }
        }
    }

    /// How much it keeps: the sum of the lengths of its lists, or the greatest number where that is less. It is at most what the trace has open, and
    /// nothing once a rule is broken.
    #[tactic(auto, using(crate::proofs::Verdicts::keeps_nothing))]
    pub fn kept(&self) -> usize
        ensures sum { result ≡ min (entries_of self.now) 18446744073709551615 }
        ensures few { (header : HeaderOf) (events : List EventRecord) → Checks self.now header events →
            result ≤ open_of (reverse events) }
        ensures none { (header : HeaderOf) (events : List EventRecord) → Checks self.now header events →
            BreaksOne header events → result ≡ 0 }
    {
        self.kept.length()
    }
}

/// Whether main returned, for an end with this mark.
fn has_returned(end: &EndMark) -> bool
    ensures { result ≡ has_returned end.now }
{
    end.status == 0 || end.status == 1
}

/// Whether the last position is this one.
fn is_at(last: Option<u32>, seq: u32) -> bool
    ensures { result ≡ is_just seq last }
{
    match last {
        Some(position) => position == seq,
        None => false,
    }
}

/// Whether all callbacks of the profile were registered, as far as the version has them.
fn is_whole_mask(header: &Header) -> bool
    ensures { result ≡ is_whole_mask header.now }
{
    if header.version == VERSION && header.origin == RECORDED {
        header.mask == PROFILE_MASK
    } else {
        header.mask == FIRST_MASK
    }
}
