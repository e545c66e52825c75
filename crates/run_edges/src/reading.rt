//! Reading a source to its end.
ghost use Rattle.std.specs.Prelude.{◌≡◌, ◌≢◌, ◌≤◌, vec_len, IfOk, IfSome, OnOk};
ghost use Rattle.std.specs.Io.KnownBytes.{Consumes, IsAtEnd};
ghost use Rattle.run_edges.specs.Edges.{Rose, ConsumesAtMost, ConsumesMore};

use super::source::{Got, Source};
use std::alloc::Global;
use thiserror::Error;

/// Why a source was not read to its end.
#[derive(Clone, Copy, Debug, PartialEq, Eq, Error)]
pub enum ReadAllFault {
    /// A read failed.
    #[error("read fault")]
    ReadFault,
    /// The source gave more bytes than the limit.
    #[error("too long")]
    TooLong,
    /// No memory was left for the bytes.
    #[error("memory")]
    Memory,
}

// How many bytes one read may give.
const CHUNK: usize = 4096;

/// Reads all bytes up to the end of `source`, at most `limit` of them.
pub fn read_all<S: Source>(
    alloc: Global,
    source: &mut S,
    limit: u32,
) -> Result<Vec<u8>, ReadAllFault>
    // At the end, the bytes are what the source gave.
    ensures bytes { IfOk result (λ bytes.
        Consumes (S.left source.old) (S.left source.new) bytes.items) }
    // A source that told its bytes has none left.
    ensures whole { OnOk result (IfSome (S.left source.old) (λ _. IsAtEnd (S.left source.new))) }
    ensures short { IfOk result (λ bytes. vec_len bytes ≤ limit) }

    // Where the source tells its bytes, they are too long exactly where more than `limit` were given.
    ensures long { result ≡ Err ReadAllFault.TooLong →
        ConsumesMore (S.left source.old) (S.left source.new) limit }
    ensures held_back { result ≢ Err ReadAllFault.TooLong →
        ConsumesAtMost (S.left source.old) (S.left source.new) limit }

    // A read that failed was counted and is answered, and the count never falls.
    ensures fault { result ≡ Err ReadAllFault.ReadFault →
        Rose (S.faults source.old) (S.faults source.new) }
    ensures counted { S.faults source.old ≤ S.faults source.new }
    ensures steady { result ≢ Err ReadAllFault.ReadFault → S.faults source.new ≡ S.faults source.old }
{
    let mut bytes = Vec::new(alloc);
    let mut buf = [0; CHUNK];
    loop {
        match source.read(&mut buf) {
            Got::End => return Ok(bytes),
            Got::Failed => return Err(ReadAllFault::ReadFault),
            Got::Bytes(count) => {
                if count > limit as usize - bytes.len() {
                    return Err(ReadAllFault::TooLong);
                }
                bytes
                    .extend_from_slice(&buf[..count])
                    .map_err(|_| ReadAllFault::Memory)?;
            }
        }
    }
}
