//! Two numbers as one key.

ghost use Rattle.std.specs.Prelude.{◌≡◌, ◌<◌, ◌+◌, ◌*◌};

/// The key of the bracket at this place of a thread's, from the outermost.
pub(crate) fn bracket_key(thread: u8, place: u32) -> u64
    ensures key { result ≡ thread * 4294967296 + place }
    ensures fits { place < 4294967296 }
{
    u64::from(thread) * 0x1_0000_0000 + u64::from(place)
}

/// The key of the implicit task with this index in a region.
pub(crate) fn member_key(region: u32, index: u32) -> u64
    ensures key { result ≡ region * 4294967296 + index }
    ensures fits { index < 4294967296 }
{
    u64::from(region) * 0x1_0000_0000 + u64::from(index)
}
