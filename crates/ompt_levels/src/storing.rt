//! What guests store, and the word that asks for it.

use omp_codes::endpoints;
use ompt_calls::{Call, Reply, WordAt};

/// The word that makes the guests store positions.
const STORE: &str = "--store";

/// What the guests store.
#[derive(Clone, Copy)]
pub(crate) enum Storing {
    /// Nothing.
    Nothing,
    /// The position of an event, into the word of the region or the task that begins by it.
    Positions,
}

impl Storing {
    /// What the words ask for. The word `--store` is taken off them.
    pub fn take(words: &mut Vec<String>) -> Storing {
        match words.iter().position(|word| word.as_str() == STORE) {
            Some(place) => {
                words.remove(place);
                Storing::Positions
            }
            None => Storing::Nothing,
        }
    }

    /// What is stored at this call.
    pub fn reply_to(self, seq: u32, call: &Call) -> Reply {
        let place = match self {
            Storing::Nothing => None,
            Storing::Positions => begun_word(call),
        };
        match place {
            Some(place) => Reply::store(place, u64::from(seq)),
            None => Reply::none(),
        }
    }
}

/// The word of the region or the task that begins by this call, if one does.
fn begun_word(call: &Call) -> Option<WordAt> {
    match *call {
        Call::ParallelBegin { .. } | Call::TaskCreate { .. } => Some(WordAt::Fresh),
        Call::ImplicitTask {
            endpoint: endpoints::BEGIN,
            ..
        } => Some(WordAt::Task(0)),
        _ => None,
    }
}
