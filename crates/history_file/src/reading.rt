//! Reading history files.

ghost use Rattle.std.specs.Prelude.{◌≡◌, ℕ, ◌⊎◌, IfOk, Ok, Err, MatchResult};
ghost use Rattle.history_file.specs.declared.file.HistoryFile.{HistoryFile};
ghost use Rattle.history_file.specs.declared.file.TheConstants.{ENTRY_LIMIT};
ghost use Rattle.history_file.specs.declared.reason.HistoryReason.{HistoryReason};
ghost use Rattle.history_file.specs.Reading.{Gives, all_of, entries_shape, file_at, made_file, run};
ghost use Rattle.history_file.specs.Refusing.{IsHistoryRefused};
ghost use Rattle.history_file.specs.Validity.{WritesHistory};

use crate::ends::end_of_file;
use crate::entries::{entry_of, kind_of};
use crate::fields::{pass, text_at};
use crate::file::{ENTRY_LIMIT, HISTORY_LIMIT, HistoryFile};
use crate::header::{End, Header};
use crate::headers::header_of;
use crate::kind;
use crate::reason::{HistoryFault, HistoryReason};
use omp_model::Entry;
use ompt_calls::Sequence;
use std::alloc::Global;

/// Reads a history file: all of the bytes.
pub fn read_history(alloc: Global, bytes: &[u8]) -> Result<HistoryFile, HistoryFault>
    // The file is written as the bytes, and each file that is written so is read, unless no memory is left.
    ensures found { IfOk result (λ file. WritesHistory file bytes.now) }
    ensures only { (file : HistoryFile) → WritesHistory file bytes.now →
        MatchResult result (λ given. given ≡ file) (λ fault. fault ≡ HistoryFault.Memory) }

    // Bytes are refused as the definition has it, and no others are.
    ensures refused { (reason : HistoryReason) (offset : ℕ) →
        result ≡ Err (HistoryFault.Refused reason offset) → IsHistoryRefused bytes.now reason offset }
    ensures exact { (reason : HistoryReason) (offset : ℕ) → IsHistoryRefused bytes.now reason offset →
        MatchResult result (λ given. ⊥)
        (λ fault. (fault ≡ HistoryFault.Memory) ⊎ (fault ≡ HistoryFault.Refused reason offset)) }
{
    whole_of(alloc, bytes)
}

/// What reading from left to right gives.
#[tactic(auto, unfolding(crate::specs::Reading::all_of))]
fn whole_of(alloc: Global, bytes: &[u8]) -> Result<HistoryFile, HistoryFault>
    ensures { Gives (λ file. file) result (all_of bytes.now) }
{
    if bytes.len() > HISTORY_LIMIT as usize {
        return Err(HistoryFault::Refused(HistoryReason::TooLong, u64::from(HISTORY_LIMIT)));
    }
    let total = bytes.len();
    let (file, rest) = file_of(alloc, total, bytes)?;
    pass(rest.is_empty(), HistoryReason::AfterEnd, total, rest)?;
    Ok(file)
}

/// The file at the front.
#[tactic(auto, unfolding(crate::specs::Reading::file_at))]
fn file_of(alloc: Global, total: usize, bytes: &[u8]) -> Result<(HistoryFile, &[u8]), HistoryFault>
    ensures { Gives (λ x. (x.0, x.1.now)) result (file_at total bytes.now) }
{
    let (header, rest) = header_of(total, bytes)?;
    let (text, rest) = text_at(total, header.text_len as usize, rest)?;
    let (entries, rest) = entries_of(alloc, header.threads, total, rest)?;
    let (end, rest) = end_of_file(entries.len(), total, rest)?;
    let file = made_file(alloc, header, text, entries, end)?;
    Ok((file, rest))
}

/// The file that was read so.
fn made_file(
    alloc: Global,
    header: Header,
    text: &[u8],
    entries: Vec<Entry>,
    end: End,
) -> Result<HistoryFile, HistoryFault>
    ensures { Gives (λ file. file) result (Ok (made_file header text.now entries.items end)) }
{
    let text = Vec::from_slice(alloc, text)?;
    Ok(HistoryFile {
        threads: header.threads,
        mask: header.mask,
        steps: header.steps,
        text: Sequence(text),
        history: Sequence(entries),
        status: end.status,
        detail: end.detail,
    })
}

/// The entries at the front, up to the kind of the end.
fn entries_of(
    alloc: Global,
    threads: u8,
    total: usize,
    bytes: &[u8],
) -> Result<(Vec<Entry>, &[u8]), HistoryFault>
    ensures { Gives (λ x. (x.0.items, x.1.now)) result (run (entries_shape threads ENTRY_LIMIT) total bytes.now) }
{
    let mut entries = Vec::with_capacity(alloc, room_for(bytes.len()))?;
    let mut rest = bytes;
    let mut more = ENTRY_LIMIT;
    loop {
        let (kind, after) = kind_of(more, total, rest)?;
        if kind == kind::END {
            return Ok((entries, after));
        }
        let (entry, after) = entry_of(threads, kind, total, after)?;
        entries.push(entry)?;
        rest = after;
        more -= 1;
    }
}

/// The length of the end, and the least of an entry.
const END_WIDTH: usize = 10;

const LEAST_ENTRY: usize = 2;

/// How many entries so many bytes can have at most.
fn room_for(len: usize) -> usize {
    (len.saturating_sub(END_WIDTH) / LEAST_ENTRY).min(ENTRY_LIMIT as usize)
}
