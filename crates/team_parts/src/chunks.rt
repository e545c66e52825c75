//! The chunks of a loop.

ghost use Rattle.std.specs.Prelude.{◌≡◌, ◌≤◌, ◌<◌, ◌+◌, ◌^◌, IfSome};
ghost use Rattle.team_parts.specs.Chunks.{chunk_at, own_chunk, next_length};
ghost use Rattle.team_parts.specs.declared.meeting.TheConstants.{TEAM_LIMIT};

use crate::meeting::Schedule;

/// The chunk of a loop that begins at this iteration, of at most so many.
pub fn chunk_at(start: u128, most: u64, count: u64) -> Option<(u64, u64)>
    ensures chunk { result ≡ chunk_at start most count }
    ensures fits { IfSome result (λ chunk. chunk.0 + chunk.1 < 2 ^ 64) }
{
    if start >= u128::from(count) {
        return None;
    }
    let start = start as u64;
    Some((start, most.min(count - start)))
}

/// The next chunk of a member that has taken so many of a loop whose chunks come round and round.
pub fn own_chunk(chunk: u32, size: u64, count: u64, member: u32, turn: u64) -> Option<(u64, u64)>
    requires some { 1 ≤ size }
    requires few { size ≤ TEAM_LIMIT }
    ensures chunk { result ≡ own_chunk chunk size count member turn }
    ensures fits { IfSome result (λ chunk. chunk.0 + chunk.1 < 2 ^ 64) }
{
    if chunk > 0 {
        let before = u128::from(turn) * u128::from(size) + u128::from(member);
        return chunk_at(before * u128::from(chunk), u64::from(chunk), count);
    }
    if turn > 0 {
        return None;
    }
    let block = count.div_ceil(size);
    chunk_at(u128::from(member) * u128::from(block), block, count)
}

/// How many iterations the next chunk has, of a loop that is dealt to the members that ask and has so many left.
pub fn next_length(schedule: Schedule, size: u64, rest: u64) -> u64
    requires { 1 ≤ size }
    ensures { result ≡ next_length schedule size rest }
{
    match schedule {
        Schedule::Static(_) => 0,
        Schedule::Dynamic(chunk) => u64::from(chunk).min(rest),
        Schedule::Guided(chunk) => u64::from(chunk).max(rest.div_ceil(size)).min(rest),
    }
}
