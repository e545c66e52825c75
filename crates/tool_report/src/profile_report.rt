//! The report of how many calls there were.

ghost use Rattle.std.specs.Prelude.{ℕ, ◌≡◌, ◌<◌, ◌≤◌, ◌==◌, IfOk, List, [], ◌∷◌, ◌++◌, codes, length, nat_lt, slice_index_or, string_bytes, sum, true, if◌then◌else◌};
ghost use Rattle.std.specs.Fmt.{decimal};
ghost use Rattle.std.specs.List.{list_all, sum_by};
ghost use Rattle.omp_codes.specs.declared.callbacks.TheConstants.{COUNT, PROFILE};
ghost use Rattle.ompt_calls.specs.Line.{parts_of};
ghost use Rattle.ompt_calls.specs.Number.{number_of};
ghost use Rattle.ompt_calls.specs.declared.call.Call.{Call};
ghost use Rattle.ompt_calls.specs.declared.event.EventRecord.{EventRecord};
ghost use Rattle.tool_report.specs.Counts.{counts_of};
ghost use Rattle.tool_report.specs.Layout.{right_in};
ghost use Rattle.tool_report.specs.Order.{AreKept};
ghost use Rattle.tool_report.specs.Profile.{callback_names, count_line, profile_of};

use crate::merging::Memory;
use crate::profile::Profile;
use omp_codes::callbacks;
use omp_codes::callbacks::COUNT;
use std::alloc::{AllocError, Global};

/// The report of what these profiles counted: a line for each callback of the profile, by its number, one for all of them, and one for each
/// thread that had a call. Part t is that of thread t. A number of calls past the greatest is answered as want of memory.
pub fn profile_text(alloc: Global, parts: &[Profile]) -> Result<Vec<u8>, Memory>
    ensures { IfOk result (λ text. (events : List EventRecord) → AreKept counts_of events parts.now →
        text.items ≡ profile_of events) }
{
    let mut text = Vec::new(alloc);
    for place in 0..COUNT {
        let line = count_line(alloc, name_at(place), count_at(parts, place)?)?;
        text.extend_from_slice(line.as_bytes())?;
    }
    let total = count_line(alloc, "total", count_of_all(parts)?)?;
    text.extend_from_slice(total.as_bytes())?;
    for thread in 0..parts.len() {
        let line = thread_line(alloc, thread, count_of_part(&parts[thread])?)?;
        text.extend_from_slice(line.as_bytes())?;
    }
    Ok(text)
}

/// The name of the callback at this place. It is short, and ASCII.
fn name_at(place: usize) -> &'static str
    requires { place < COUNT }
    ensures name { result.now ≡ slice_index_or callback_names place [] }
    ensures short { length result.now ≤ 18 }
    ensures plain { list_all (λ (byte : ℕ). nat_lt byte 128) result.now ≡ true }
{
    callbacks::name(callbacks::PROFILE[place])
}

/// A name, which is short and ASCII, and a number of calls.
fn count_line(alloc: Global, name: &str, count: u64) -> Result<String, Memory>
    requires short { length name.now ≤ 18 }
    requires plain { list_all (λ (byte : ℕ). nat_lt byte 128) name.now ≡ true }
    ensures { IfOk result (λ line. string_bytes line ≡ count_line name.now count) }
{
    format!(in alloc; "{name:<18}{count:>10}\n")
}

/// A thread, and the number of its calls: nothing where there are none.
fn thread_line(alloc: Global, thread: usize, count: u64) -> Result<String, Memory>
    ensures { IfOk result (λ line. string_bytes line ≡
        (if count == 0 then [] else codes "thread" ++ right_in 12 (decimal thread) ++ right_in 10 (decimal count) ++
        10 ∷ [])) }
{
    if count == 0 {
        return Ok(String::new(alloc));
    }
    format!(in alloc; "thread{thread:>12}{count:>10}\n")
}

/// How many calls of the callback at this place these parts counted.
fn count_at(parts: &[Profile], place: usize) -> Result<u64, Memory>
    ensures { IfOk result (λ count. count ≡ sum_by (λ (counts : List ℕ). slice_index_or counts place 0) parts.now) }
{
    let mut count = 0_u64;
    for part in parts {
        count = count.checked_add(part.count(place)).ok_or(AllocError)?;
    }
    Ok(count)
}

/// How many calls this part counted.
fn count_of_part(part: &Profile) -> Result<u64, Memory>
    ensures { IfOk result (λ count. count ≡ sum part.now) }
{
    let counts = part.counts();
    let mut total = 0_u64;
    for count in counts {
        total = total.checked_add(*count).ok_or(AllocError)?;
    }
    Ok(total)
}

/// How many calls these parts counted.
fn count_of_all(parts: &[Profile]) -> Result<u64, Memory>
    ensures { IfOk result (λ count. count ≡ sum_by (λ (counts : List ℕ). sum counts) parts.now) }
{
    let mut total = 0_u64;
    for part in parts {
        total = total.checked_add(count_of_part(part)?).ok_or(AllocError)?;
    }
    Ok(total)
}

/// A law: the name of a callback in a profile is that of its lines.
pub fn names_are_those_of_lines()
    ensures { (call : Call) (place : ℕ) → place < COUNT → slice_index_or PROFILE place 0 ≡ number_of call →
        slice_index_or callback_names place [] ≡ slice_index_or (parts_of call) 0 [] }
{}
