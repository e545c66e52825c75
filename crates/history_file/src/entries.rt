//! One entry.

ghost use Rattle.std.specs.Prelude.{◌≡◌, true, length};
ghost use Rattle.history_file.specs.Fields.Field.{Kind, Thread, TargetKind, Identity, Word};
ghost use Rattle.history_file.specs.Reading.{Gives, entry_shape, field_at, is_identity, is_kind, is_target_kind, is_thread, run, store_shape, target_in};

use crate::fields::{byte_at, long_at, pass, short_at};
use crate::kind;
use crate::reason::{HistoryFault, HistoryReason};
use crate::values::{is_identity, is_kind, is_target_kind, is_thread};
use omp_model::{Entry, What};
use ompt_calls::Target;

/// The kind of an entry, or of the end, where so many more entries may come.
pub fn kind_of(more: u32, total: usize, bytes: &[u8]) -> Result<(u8, &[u8]), HistoryFault>
    ensures { Gives (λ x. (x.0, x.1.now)) result (field_at total Kind 1 (is_kind more) bytes.now) }
{
    let (n, rest) = byte_at(total, bytes)?;
    pass(is_kind(more, n), HistoryReason::UnknownEntry, total, bytes)?;
    Ok((n, rest))
}

/// An entry of this kind, behind the kind.
#[tactic(auto, unfolding(crate::specs::Reading::entry_shape))]
pub fn entry_of(
    threads: u8,
    kind: u8,
    total: usize,
    bytes: &[u8],
) -> Result<(Entry, &[u8]), HistoryFault>
    ensures { Gives (λ x. (x.0, x.1.now)) result (run (entry_shape threads kind) total bytes.now) }
{
    let (thread, rest) = thread_of(threads, total, bytes)?;
    match kind {
        kind::PUT => store_of(threads, thread, total, rest),
        kind::GO => Ok((
            Entry {
                thread,
                what: What::Go,
            },
            rest,
        )),
        _ => Ok((
            Entry {
                thread,
                what: What::Back,
            },
            rest,
        )),
    }
}

/// The number of a thread of the run.
fn thread_of(threads: u8, total: usize, bytes: &[u8]) -> Result<(u8, &[u8]), HistoryFault>
    ensures { Gives (λ x. (x.0, x.1.now)) result (field_at total Thread 1 (is_thread threads) bytes.now) }
{
    let (n, rest) = byte_at(total, bytes)?;
    pass(is_thread(threads, n), HistoryReason::BadEntry, total, bytes)?;
    Ok((n, rest))
}

/// A store of this thread, behind the thread.
#[tactic(auto, unfolding(crate::specs::Reading::store_shape))]
fn store_of(
    threads: u8,
    thread: u8,
    total: usize,
    bytes: &[u8],
) -> Result<(Entry, &[u8]), HistoryFault>
    ensures { Gives (λ x. (x.0, x.1.now)) result (run (store_shape threads thread) total bytes.now) }
{
    let (target_kind, rest) = target_kind_of(total, bytes)?;
    let (identity, rest) = identity_of(threads, target_kind, total, rest)?;
    let (word, rest) = word_of(total, rest)?;
    let what = What::Put(target_in(target_kind, identity), word);
    Ok((Entry { thread, what }, rest))
}

/// The kind of a target.
fn target_kind_of(total: usize, bytes: &[u8]) -> Result<(u8, &[u8]), HistoryFault>
    ensures { Gives (λ x. (x.0, x.1.now)) result (field_at total TargetKind 1 is_target_kind bytes.now) }
{
    let (n, rest) = byte_at(total, bytes)?;
    pass(is_target_kind(n), HistoryReason::BadEntry, total, bytes)?;
    Ok((n, rest))
}

/// The identity of a target of this kind.
fn identity_of(
    threads: u8,
    target_kind: u8,
    total: usize,
    bytes: &[u8],
) -> Result<(u32, &[u8]), HistoryFault>
    ensures { Gives (λ x. (x.0, x.1.now)) result
        (field_at total Identity 4 (is_identity threads target_kind) bytes.now) }
{
    let (n, rest) = short_at(total, bytes)?;
    pass(
        is_identity(threads, target_kind, n),
        HistoryReason::BadEntry,
        total,
        bytes,
    )?;
    Ok((n, rest))
}

/// The number that is stored.
fn word_of(total: usize, bytes: &[u8]) -> Result<(u64, &[u8]), HistoryFault>
    ensures { Gives (λ x. (x.0, x.1.now)) result (field_at total Word 8 (λ _. true) bytes.now) }
{
    long_at(total, bytes)
}

/// The target of this kind that has the identity. A thread's identity is its number and one.
fn target_in(target_kind: u8, identity: u32) -> Target
    ensures { result ≡ target_in target_kind identity }
{
    match target_kind {
        kind::THREAD => Target::Thread(identity.saturating_sub(1)),
        kind::PARALLEL => Target::Parallel(identity),
        _ => Target::Task(identity),
    }
}
