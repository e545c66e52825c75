//! The waits of events, counted by construct, cause and thread.

ghost use Rattle.std.specs.Prelude.{◌≡◌, ◌+◌, ◌*◌, IfOk, OnOk, if◌then◌else◌};
ghost use Rattle.trace_view.specs.declared.wait_ends.WaitKey.{WaitKey as KeyOf};
ghost use Rattle.trace_view.specs.Waits.{same_key, wait_end};
ghost use Rattle.trace_view.specs.WaitTallies.{HasTallies, no_positions, no_waits, one_end, one_event, one_position, open_of, tally_at, waited_until};

use crate::wait_ends::{WaitKey, wait_end};
use ompt_calls::EventRecord;
use std::alloc::{AllocError, Global};
use std::collections::BTreeMap;

/// How many positions there are, and their sum.
#[derive(Clone, Copy)]
pub(crate) struct Positions {
    /// How many there are.
    pub count: u64,
    /// Their sum.
    pub total: u64,
}

impl Positions {
    /// No position.
    fn new() -> Positions
        ensures { result ≡ no_positions }
    {
        Positions { count: 0, total: 0 }
    }

    /// With one more. A number past the greatest is told as want of memory, which no trace comes to.
    fn with(self, seq: u32) -> Result<Positions, AllocError>
        ensures { IfOk result (λ positions. positions ≡ one_position self seq) }
    {
        let count = self.count.checked_add(1).ok_or(AllocError)?;
        let total = self.total.checked_add(u64::from(seq)).ok_or(AllocError)?;
        Ok(Positions { count, total })
    }
}

/// The waits of a key.
#[derive(Clone, Copy)]
pub(crate) struct Tally {
    /// The positions of their begins.
    pub begins: Positions,
    /// The positions of their ends.
    pub ends: Positions,
}

impl Tally {
    /// No wait.
    fn new() -> Tally
        ensures { result ≡ no_waits }
    {
        Tally {
            begins: Positions::new(),
            ends: Positions::new(),
        }
    }

    /// With one begin more, or one end.
    fn with(self, is_end: bool, seq: u32) -> Result<Tally, AllocError>
        ensures { IfOk result (λ tally. tally ≡ one_end self is_end seq) }
    {
        if is_end {
            let ends = self.ends.with(seq)?;
            Ok(Tally {
                begins: self.begins,
                ends,
            })
        } else {
            let begins = self.begins.with(seq)?;
            Ok(Tally {
                begins,
                ends: self.ends,
            })
        }
    }

    /// How many have no end.
    pub fn open(&self) -> u64
        ensures { result ≡ open_of self.now }
    {
        self.begins.count.saturating_sub(self.ends.count)
    }

    /// How many positions they took together, where the last event has this one. One that has no end takes until then.
    pub fn waited(&self, last: u32) -> Result<u64, AllocError>
        ensures { IfOk result (λ positions. positions ≡ waited_until last self.now) }
    {
        let open = self.open().checked_mul(u64::from(last)).ok_or(AllocError)?;
        let ends = self.ends.total.checked_add(open).ok_or(AllocError)?;
        Ok(ends.saturating_sub(self.begins.total))
    }
}

/// The waits of these events by their keys.
pub(crate) fn tallies_of(
    alloc: Global,
    events: &[EventRecord],
) -> Result<BTreeMap<WaitKey, Tally>, AllocError>
    ensures { IfOk result (λ tallies. HasTallies tallies events.now) }
{
    let mut tallies = BTreeMap::new(alloc);
    for event in events {
        count_event(&mut tallies, event)?;
    }
    Ok(tallies)
}

/// Counts the begin or end of a wait that an event tells, if it tells one.
fn count_event(
    tallies: &mut BTreeMap<WaitKey, Tally>,
    event: &EventRecord,
) -> Result<(), AllocError>
    ensures { OnOk result ((key : KeyOf) → tally_at tallies.new key
        ≡ one_event key (tally_at tallies.old key) event.now.thread event.now.seq (wait_end event.now.call)) }
{
    match wait_end(&event.call) {
        Some(wait) => {
            let key = WaitKey {
                place: wait.place,
                cause: wait.cause,
                thread: event.thread,
            };
            count_end(tallies, key, wait.is_end, event.seq)
        }
        None => Ok(()),
    }
}

/// Counts a begin or an end under a key.
fn count_end(
    tallies: &mut BTreeMap<WaitKey, Tally>,
    key: WaitKey,
    is_end: bool,
    seq: u32,
) -> Result<(), AllocError>
    ensures { OnOk result ((other : KeyOf) → tally_at tallies.new other
        ≡ (if same_key key other then one_end (tally_at tallies.old other) is_end seq
        else tally_at tallies.old other)) }
{
    let tally = tally_at(tallies, key).with(is_end, seq)?;
    tallies.insert(key, tally)?;
    Ok(())
}

/// What is counted at a key.
fn tally_at(tallies: &BTreeMap<WaitKey, Tally>, key: WaitKey) -> Tally
    ensures { result ≡ tally_at tallies.now key }
{
    tallies.get(&key).copied().unwrap_or(Tally::new())
}
