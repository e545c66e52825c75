//! What is kept of a region beside its team.

ghost use Rattle.std.specs.Prelude.{◌≡◌, Bool, true, slice_set, take};
ghost use Rattle.std.specs.List.{list_all};
ghost use Rattle.omp_model.specs.State.{fresh_head};

use omp_model::RegionHead;
use team_parts::TEAM_LIMIT;

/// What stands for a region where there is none.
pub const NO_HEAD: RegionHead = RegionHead {
    task: 0,
    size: 0,
    word: 0,
    members: [0; TEAM_LIMIT],
    left: [false; TEAM_LIMIT],
    ended: false,
};

/// A region of a task, which so many members are to join.
pub fn fresh_head(task: u32, size: u8) -> RegionHead
    ensures { result ≡ fresh_head task size }
{
    RegionHead {
        task,
        size,
        ..NO_HEAD
    }
}

/// The member with this number has begun, with this implicit task.
#[tactic(auto, using(std::proofs::lemmas::List::set_past))]
pub fn member_begun(mut head: RegionHead, member: u8, task: u32) -> RegionHead
    ensures { result ≡ record head { members = slice_set head.members member task } }
{
    let place = usize::from(member);
    if place < TEAM_LIMIT {
        head.members[place] = task;
    }
    head
}

/// The member with this number has left.
#[tactic(auto, using(std::proofs::lemmas::List::set_past))]
pub fn member_left(mut head: RegionHead, member: u8) -> RegionHead
    ensures { result ≡ record head { left = slice_set head.left member true } }
{
    let place = usize::from(member);
    if place < TEAM_LIMIT {
        head.left[place] = true;
    }
    head
}

/// Whether all members have left.
pub fn all_left(head: &RegionHead) -> bool
    ensures { result ≡ list_all (λ (flag : Bool). flag) (take head.now.size head.now.left) }
{
    head.left.iter().take(head.size as usize).all(|flag| *flag)
}
