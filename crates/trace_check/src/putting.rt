//! New values of keys that are there, which take no memory.

ghost use Rattle.std.specs.Prelude.{◌≡◌, IsSome, Some};
ghost use Rattle.std.specs.Ordering.{nat_cmp};
ghost use Rattle.std.specs.BTreeMap.{Updates, get};

use crate::things::{Created, Member, Region, Thread};
use std::collections::BTreeMap;

/// Puts a new value at a thread that is there.
pub(crate) fn put_thread(threads: &mut BTreeMap<u8, Thread>, key: u8, thread: Thread)
    requires { IsSome (get nat_cmp threads.old key) }
    ensures { Updates nat_cmp threads.old threads.new key (Some thread) }
{
    let _before = threads.insert(key, thread);
}

/// Puts a new value at an open region.
pub(crate) fn put_region(regions: &mut BTreeMap<u32, Region>, key: u32, region: Region)
    requires { IsSome (get nat_cmp regions.old key) }
    ensures { Updates nat_cmp regions.old regions.new key (Some region) }
{
    let _before = regions.insert(key, region);
}

/// Puts a new value at an implicit task that is there.
pub(crate) fn put_member(members: &mut BTreeMap<u64, Member>, key: u64, member: Member)
    requires { IsSome (get nat_cmp members.old key) }
    ensures { Updates nat_cmp members.old members.new key (Some member) }
{
    let _before = members.insert(key, member);
}

/// Puts a new value at a created task that isn't complete.
pub(crate) fn put_created(created: &mut BTreeMap<u32, Created>, key: u32, task: Created)
    requires { IsSome (get nat_cmp created.old key) }
    ensures { Updates nat_cmp created.old created.new key (Some task) }
{
    let _before = created.insert(key, task);
}
