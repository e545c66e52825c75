//! Parts that are joined with profiles before a run.

ghost use Rattle.std.specs.Prelude.{◌≡◌, ◌≤◌, ◌++◌, All, IfOk, OnOk, length, map, reverse};
ghost use Rattle.tool_api.specs.Registering.{AreAlways};
ghost use Rattle.tool_profiled.specs.Joining.{AreJoined, HasRoom, IsFresh, WasAsked, part_in};

use crate::asked::Asked;
use crate::parting::Parted;
use std::alloc::{AllocError, Global};
use tool_api::ToolPart;
use tool_both::{Both, Masks};
use tool_report::Profile;

/// A part beside a profile. Each is told of the events of one thread that it has registered.
pub type Profiled<P> = Both<Asked<P>, Profile>;

/// Parts that are joined with profiles, and room for both apart.
#[derive(Drop)]
pub struct Joined<P> {
    /// What is joined, by thread.
    pub parts: Vec<Profiled<P>>,
    /// What the part of thread 0 registered, and what the profile beside it did.
    pub masks: Masks,
    /// Room for as many parts and profiles.
    pub room: Parted<P>,
}

/// The first part with its profile, and their registrations.
#[derive(Drop)]
struct First<P> {
    both: Profiled<P>,
    masks: Masks,
}

/// Joins each part with a profile. The first part is asked for its registration, once, and so is the profile beside it. There is room then for all of
/// them apart, so that parting them takes no memory.
pub fn join_all<P: ToolPart>(alloc: Global, parts: Vec<P>) -> Result<Joined<P>, AllocError>
    requires some { 1 ≤ length parts.items }
    ensures joined { IfOk result (λ joined. AreJoined P.stands_for P.same parts.items joined.masks joined.parts.items) }
    ensures room_for_parts { IfOk result (λ joined. HasRoom (length parts.items) joined.room.parts) }
    ensures room_for_profiles { IfOk result (λ joined. HasRoom (length parts.items) joined.room.profiles) }
{
    let room = Parted::with_room(alloc, parts.len())?;
    let mut waiting = parts;
    waiting.reverse();
    let mut joined = Vec::new(alloc);
    let First { both, masks } = first_joined(waiting.pop().unwrap());
    joined.push(both)?;
    join_rest(masks, &mut waiting, &mut joined)?;
    Ok(Joined {
        parts: joined,
        masks,
        room,
    })
}

/// Asks the part and a profile for their registrations, and joins them.
fn first_joined<P: ToolPart>(part: P) -> First<P>
    ensures asked { WasAsked P.stands_for P.same part result.masks (part_in result.both) }
    ensures fresh { IsFresh P.stands_for result.masks result.both }
    ensures always { AreAlways result.masks.first × AreAlways result.masks.second }
{
    let mut asked = part;
    let mut profile = Profile::new();
    let masks = Masks::ask(&mut asked, &mut profile);
    First {
        both: Both::new(Asked(asked), profile, masks),
        masks,
    }
}

/// Joins each part that waits with a profile, the last one first, with these registrations.
fn join_rest<P: ToolPart>(
    masks: Masks,
    waiting: &mut Vec<P>,
    joined: &mut Vec<Profiled<P>>,
) -> Result<(), AllocError>
    requires always { AreAlways masks.first × AreAlways masks.second }
    ensures parts { OnOk result (map part_in joined.new.items ≡ map part_in joined.old.items ++
        reverse waiting.old.items) }
    ensures fresh { OnOk result (All (IsFresh P.stands_for masks) joined.old.items →
        All (IsFresh P.stands_for masks) joined.new.items) }
{
    while let Some(part) = waiting.pop() {
        joined.push(Both::new(Asked(part), Profile::new(), masks))?;
    }
    Ok(())
}
