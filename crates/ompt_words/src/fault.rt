//! Why words make no request.

ghost use Rattle.std.specs.Prelude.{◌≢◌};
ghost use Rattle.clap.specs.Words.{kind_of};
ghost use Rattle.ompt_words.specs.Answers.{IsAnswerTo};

use clap::error::ErrorKind;
use std::alloc::{AllocError, Global};
use thiserror::Error;

/// Why words make no request.
#[derive(Debug, Drop, Error)]
pub enum WordsFault {
    /// They are refused.
    #[error("wrong words")]
    Usage,
    /// They ask for help or for the version, which is this text.
    #[error("help or the version")]
    Shown(String),
    /// There was no memory.
    #[error("memory")]
    Memory,
}

impl From<AllocError> for WordsFault {
    ghost use Rattle.std.specs.Prelude.{◌≡◌};
    ghost use Rattle.ompt_words.specs.declared.fault.WordsFault.TheVariants.{Memory};

    ghost from_gives = { λ _ fault. fault ≡ Memory };

    fn from(_error: AllocError) -> WordsFault {
        WordsFault::Memory
    }
}

/// What clap's error says: a text that is asked for, want of memory, or a mistake in the words.
pub(crate) fn fault_of(alloc: Global, error: &clap::Error) -> WordsFault
    ensures { IsAnswerTo (kind_of error.now) result }
{
    match error.kind() {
        ErrorKind::DisplayHelp | ErrorKind::DisplayVersion => shown(alloc, error),
        ErrorKind::OutOfMemory => WordsFault::Memory,
        _ => WordsFault::Usage,
    }
}

/// The text that the words ask for.
fn shown(alloc: Global, error: &clap::Error) -> WordsFault
    ensures { result ≢ WordsFault.Usage }
{
    match format!(in alloc; "{error}") {
        Ok(text) => WordsFault::Shown(text),
        Err(_) => WordsFault::Memory,
    }
}
