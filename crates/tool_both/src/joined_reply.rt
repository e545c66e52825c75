//! One reply of two.

ghost use Rattle.std.specs.Prelude.{◌≡◌, ◌++◌, List};
ghost use Rattle.ompt_calls.specs.Snapshot.{Stored, stored_of, stores_of};
ghost use Rattle.tool_both.specs.BothStores.{IsPacked, occurs, counting_stores, both_stores};

use ompt_calls::{Reply, Snapshot, Store, Target};

/// The reply of a tool that stores nothing.
pub const NOTHING: Reply = Reply {
    first: None,
    second: None,
    third: None,
};

/// The stores of both replies, without each whose word is stored again later, and of these the last three.
pub fn joined(first: Reply, second: Reply, snapshot: &Snapshot) -> Reply
    ensures { stores_of result snapshot.now ≡
        both_stores (stores_of first snapshot.now) (stores_of second snapshot.now) }
{
    let later = with_all_before(NOTHING, second, snapshot);
    with_all_before(later, first, snapshot)
}

/// The stores that count where those of this reply come before the kept ones.
fn with_all_before(kept: Reply, reply: Reply, snapshot: &Snapshot) -> Reply
    requires { IsPacked kept snapshot.now }
    ensures packed { IsPacked result snapshot.now }
    ensures counts { (later : List Stored) → stores_of kept snapshot.now ≡ counting_stores later →
        stores_of result snapshot.now ≡ counting_stores (stores_of reply snapshot.now ++ later) }
{
    let kept = with_before(kept, reply.third, snapshot);
    let kept = with_before(kept, reply.second, snapshot);
    with_before(kept, reply.first, snapshot)
}

/// The stores that count where this one comes before the kept ones.
fn with_before(kept: Reply, store: Option<Store>, snapshot: &Snapshot) -> Reply
    requires { IsPacked kept snapshot.now }
    ensures packed { IsPacked result snapshot.now }
    ensures counts { (later : List Stored) → stores_of kept snapshot.now ≡ counting_stores later →
        stores_of result snapshot.now ≡ counting_stores (stored_of snapshot.now store ++ later) }
{
    let Some(given) = store else {
        return kept;
    };
    let Some(target) = snapshot.target(given.place) else {
        return kept;
    };
    if kept.third.is_some() {
        return kept;
    }
    if goes_to(kept, target, snapshot) {
        return kept;
    }
    Reply {
        first: store,
        second: kept.first,
        third: kept.second,
    }
}

/// Whether some store of the reply goes to this word.
fn goes_to(reply: Reply, target: Target, snapshot: &Snapshot) -> bool
    ensures { result ≡ occurs target (stores_of reply snapshot.now) }
{
    store_goes_to(reply.first, target, snapshot)
        || store_goes_to(reply.second, target, snapshot)
        || store_goes_to(reply.third, target, snapshot)
}

/// Whether the store goes to this word.
fn store_goes_to(store: Option<Store>, target: Target, snapshot: &Snapshot) -> bool
    ensures { result ≡ occurs target (stored_of snapshot.now store) }
{
    match store {
        Some(given) => snapshot.target(given.place) == Some(target),
        None => false,
    }
}
