//! A part that counts what it is told.

ghost use Rattle.std.specs.Prelude.{◌≡◌, ◌<◌, [], slice_index_or, ⊤};
ghost use Rattle.omp_codes.specs.declared.callbacks.TheConstants.{COUNT, PROFILE};
ghost use Rattle.ompt_calls.specs.Number.{number_of};
ghost use Rattle.tool_report.specs.Counts.{counts_of};
ghost use Rattle.tool_report.specs.KeeperRelation.{ProfileFor};

use crate::shipped::{ACTIVE, NOTHING};
use omp_codes::callbacks::{COUNT, PROFILE};
use ompt_calls::{Call, Snapshot};
use std::alloc::AllocError;
use std::marker::Model;
use tool_api::{Registrar, Response, ToolPart};

/// A part that counts the calls of `callback`, and keeps nothing else of them. Contracts see it as that list of counts: one for each callback
/// of the profile, by rising numbers.
#[derive(Drop)]
pub struct Profile {
    /// The counts. A count that would pass its greatest value is answered as want of memory.
    counts: [u64; COUNT],
}

impl Model for Profile {
    ghost use Rattle.std.specs.Prelude.{ℕ, List};

    ghost Value = { List ℕ };

    ghost view = { λ profile. profile.counts };
}

impl Profile {
    /// A profile that was told nothing yet.
    pub fn new() -> Profile
        ensures { result ≡ counts_of [] }
    {
        Profile { counts: [0; COUNT] }
    }

    /// How many calls of each callback of the profile there were, by rising numbers.
    pub fn counts(&self) -> &[u64]
        ensures { result.now ≡ self.now }
    {
        &self.counts
    }

    /// How many calls of the callback at this place of `PROFILE` there were, and 0 past the last place.
    pub(crate) fn count(&self, place: usize) -> u64
        ensures { result ≡ slice_index_or self.now place 0 }
    {
        if place < COUNT { self.counts[place] } else { 0 }
    }
}

impl ToolPart for Profile {
    ghost stands_for = { ProfileFor };

    ghost same = { λ profile other. ⊤ };

    ghost same_itself = { λ profile. tt };

    ghost same_onward = { λ first second third one other. tt };

    fn initialize(&mut self, registrar: &mut Registrar) -> u32 {
        registrar.set_profile();
        ACTIVE
    }

    fn callback(&mut self, _seq: u32, _thread: u8, call: &Call, _snapshot: &Snapshot) -> Response {
        let place = place_of(call);
        let Some(count) = self.counts[place].checked_add(1) else {
            return Err(AllocError);
        };
        self.counts[place] = count;
        Ok(NOTHING)
    }

    fn finalize(&mut self) {}
}

/// The place of a call's callback among those of the profile.
fn place_of(call: &Call) -> usize
    ensures place { slice_index_or PROFILE result 0 ≡ number_of call.now }
    ensures few { result < COUNT }
{
    let number = call.number();
    match PROFILE.iter().position(|listed| *listed == number) {
        Some(place) => place,
        None => unreachable!(),
    }
}
