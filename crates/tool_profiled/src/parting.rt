//! Parts and profiles that are parted after a run.

ghost use Rattle.std.specs.Prelude.{◌≡◌, ◌≤◌, ◌+◌, ◌++◌, ◌∷◌, [], IfOk, length, map, vec_capacity, vec_len};
ghost use Rattle.tool_profiled.specs.Joining.{HasRoom, part_in, profile_in};

use crate::joining::Profiled;
use std::alloc::{AllocError, Global};
use tool_api::ToolPart;
use tool_report::Profile;

/// Parts and profiles, apart.
#[derive(Drop)]
pub struct Parted<P> {
    /// The parts, by thread.
    pub parts: Vec<P>,
    /// The profiles, by thread.
    pub profiles: Vec<Profile>,
}

/// Parts what is joined, in its order. There has to be room for all, so it takes no memory.
pub fn part_all<P: ToolPart>(room: Parted<P>, joined: Vec<Profiled<P>>) -> Parted<P>
    requires parts { HasRoom (length joined.items) room.parts }
    requires profiles { HasRoom (length joined.items) room.profiles }
    ensures parts { result.parts.items ≡ map part_in joined.items }
    ensures profiles { result.profiles.items ≡ map profile_in joined.items }
{
    let (mut room, mut waiting) = (room, joined);
    waiting.reverse();
    while let Some(both) = waiting.pop() {
        room.take(both);
    }
    room
}

impl<P: ToolPart> Parted<P> {
    /// None, with room for so many.
    pub(crate) fn with_room(alloc: Global, count: usize) -> Result<Parted<P>, AllocError>
        ensures parts { IfOk result (λ room. HasRoom count room.parts) }
        ensures profiles { IfOk result (λ room. HasRoom count room.profiles) }
    {
        Ok(Parted {
            parts: Vec::with_capacity(alloc, count)?,
            profiles: Vec::with_capacity(alloc, count)?,
        })
    }

    /// Takes one more part and its profile, apart. There has to be room for it.
    fn take(&mut self, both: Profiled<P>)
        requires parts { vec_len self.old.parts + 1 ≤ vec_capacity self.old.parts }
        requires profiles { vec_len self.old.profiles + 1 ≤ vec_capacity self.old.profiles }
        ensures parts { self.new.parts.items ≡ self.old.parts.items ++ part_in both ∷ [] }
        ensures profiles { self.new.profiles.items ≡ self.old.profiles.items ++ profile_in both ∷ [] }
        ensures part_room { vec_capacity self.old.parts ≤ vec_capacity self.new.parts }
        ensures profile_room { vec_capacity self.old.profiles ≤ vec_capacity self.new.profiles }
    {
        let (asked, profile) = both.split();
        self.parts.push(asked.0).unwrap();
        self.profiles.push(profile).unwrap();
    }
}
