//! What the tests have in common. An assertion is a function, since one in line costs seconds to prove, and a call a fraction.

ghost use Rattle.std.specs.Prelude.{◌≡◌, ◌≤◌, length};

use kc_model::{Footprint, PlainStore, Reply};
use kc_xt::{Transact, Tried, commit};
use std::process::Abort;

/// Asserts what comes of a transaction that is committed.
pub(crate) fn comes<T: Transact>(
    rt: &impl Abort,
    store: &mut PlainStore,
    transaction: &T,
    want: Tried,
)
    requires fit { T.is_fit transaction.now }
    requires within { T.end transaction.now ≤ length store.old }
    ensures size { length store.new ≡ length store.old }
{
    let mut footprint = Footprint::new();
    let tried = commit(store, transaction, &mut footprint);
    assert_eq!(rt; tried, want);
}

/// Asserts what a transaction that is committed replies.
pub(crate) fn replies<T: Transact>(
    rt: &impl Abort,
    store: &mut PlainStore,
    transaction: &T,
    want: Reply,
)
    requires fit { T.is_fit transaction.now }
    requires within { T.end transaction.now ≤ length store.old }
    ensures size { length store.new ≡ length store.old }
{
    comes(rt, store, transaction, Tried::Done(want));
}

/// Asserts that a transaction waits.
pub(crate) fn waits<T: Transact>(rt: &impl Abort, store: &mut PlainStore, transaction: &T)
    requires fit { T.is_fit transaction.now }
    requires within { T.end transaction.now ≤ length store.old }
    ensures size { length store.new ≡ length store.old }
{
    comes(rt, store, transaction, Tried::Later);
}
