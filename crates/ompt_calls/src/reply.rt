//! What a tool answers to a call: the words that it stores.

ghost use Rattle.std.specs.Prelude.{◌≡◌, [], None, Some};
ghost use Rattle.ompt_calls.specs.Snapshot.{stored, stores_of, target_of};
ghost use Rattle.ompt_calls.specs.declared.snapshot.Snapshot.{Snapshot};

/// The place of a data word, as a call's tool names it.
#[derive(Clone, Copy, PartialEq, Eq)]
pub enum WordAt {
    /// The word of the thread on which the event occurs.
    Thread,
    /// The word of the parallel region at this level, counted from 0, the innermost.
    Parallel(u32),
    /// The word of the task at this level, counted from 0, the current one.
    Task(u32),
    /// The word of the region or the task that the event makes.
    Fresh,
}

/// A store into a data word.
#[derive(Clone, Copy, PartialEq, Eq)]
pub struct Store {
    /// Where. A store at a place that isn't there takes no effect.
    pub place: WordAt,
    /// What is stored.
    pub word: u64,
}

/// What a tool answers to a call: at most three stores, which take effect in this order.
#[derive(Clone, Copy, PartialEq, Eq)]
pub struct Reply {
    /// The first store.
    pub first: Option<Store>,
    /// The second store.
    pub second: Option<Store>,
    /// The third store.
    pub third: Option<Store>,
}

impl Reply {
    /// Nothing is stored.
    pub fn none() -> Reply
        ensures reply { result ≡ record { first = None; second = None; third = None } }
        ensures stores { (snapshot : Snapshot) → stores_of result snapshot ≡ [] }
    {
        Reply {
            first: None,
            second: None,
            third: None,
        }
    }

    /// One word is stored, at this place.
    pub fn store(place: WordAt, word: u64) -> Reply
        ensures reply { result ≡ record {
          first = Some (record { place = place; word = word });
          second = None;
          third = None;
        } }
        ensures stores { (snapshot : Snapshot) → stores_of result snapshot ≡ stored word (target_of snapshot place) }
    {
        Reply {
            first: Some(Store { place, word }),
            second: None,
            third: None,
        }
    }
}
