//! Writing a whole piece to a sink.
ghost use Rattle.std.specs.Prelude.{◌≡◌, ◌≤◌, [], IsOk, OnOk, OnErr};
ghost use Rattle.std.specs.Io.KnownBytes.{Appends};
ghost use Rattle.run_edges.specs.Edges.{Rose, AppendsFront};

use super::sink::{Sink, Took};
use thiserror::Error;

/// A write failed, and the sink took some front of the piece.
#[derive(Clone, Copy, Debug, PartialEq, Eq, Error)]
#[error("write fault")]
pub struct WriteFault;

/// Writes all of `piece`, in as many writes as the sink needs. An empty piece makes no write.
pub fn write_all<O: Sink>(sink: &mut O, piece: &[u8]) -> Result<(), WriteFault>
    ensures whole { OnOk result (Appends (O.held sink.old) (O.held sink.new) piece.now) }
    ensures fault { OnErr result (Rose (O.faults sink.old) (O.faults sink.new)) }
    ensures part { OnErr result (AppendsFront (O.held sink.old) (O.held sink.new) piece.now) }
    ensures counted { O.faults sink.old ≤ O.faults sink.new }
    ensures steady { OnOk result (O.faults sink.new ≡ O.faults sink.old) }
    ensures idle { piece.now ≡ [] → IsOk result × (sink.new ≡ sink.old) }
{
    let mut taken = 0;
    while taken < piece.len() {
        match sink.write(&piece[taken..]) {
            Took::Bytes(count) => taken += count,
            Took::Failed => return Err(WriteFault),
        }
    }
    Ok(())
}
