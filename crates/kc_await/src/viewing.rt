//! Views that wait.

ghost use Rattle.std.specs.Prelude.{◌≡◌, ◌≤◌, true};
ghost use Rattle.kc_await.specs.Viewing.{HangsThenViews, IsViewedAtLast, is_put_off};
ghost use Rattle.kc_model.specs.Footprint.{IsBelow};
ghost use Rattle.kc_store.specs.Knows.{Remembers};
ghost use Rattle.kc_store.specs.Viewing.{has_reads};
ghost use Rattle.kc_xt.specs.Meaning.{limited};

use crate::waiting::commit_waiting_into;
use kc_model::Footprint;
use kc_store::{Caller, Glimpse, Store, Viewed, viewed_on};
use kc_xt::Transact;
use std::sync::Wait;

/// Views a transaction, as a view of the store does. Where that would answer Later, it waits until something that it read may have
/// changed, and views again; so it never answers Later, and what it waits for leaves no entry. Where what it reads changes too often,
/// it is committed, by a commit that waits. The footprint is filled as by the last try. It takes no memory.
pub fn view_waiting_into<R: Wait, T: Transact>(
    rt: &R,
    store: &Store,
    caller: &mut Caller,
    transaction: &T,
    footprint: &mut Footprint,
) -> Viewed
    requires caller { caller.old.of ≡ store.now }
    requires fit { T.is_fit transaction.now }
    requires within { T.end transaction.now ≤ store.now.locations }
    ensures viewed { IsViewedAtLast (limited (T.most transaction.now) (T.meaning transaction.now)) result caller.old footprint.new caller.new }
    ensures hangs { HangsThenViews (limited (T.most transaction.now) (T.meaning transaction.now)) result caller.old footprint.new caller.new }
    ensures within { has_reads result ≡ true → IsBelow (T.end transaction.now) footprint.new }
    ensures remembers { Remembers caller.old caller.new }
{
    for _ in rt.forever() {
        let glimpse = store.try_views_into(caller, transaction, footprint);
        if !is_put_off(&glimpse) {
            if let Some(viewed) = viewed_on(glimpse) {
                return viewed;
            }
            return Viewed::Committed(commit_waiting_into(
                rt,
                store,
                caller,
                transaction,
                footprint,
            ));
        }
        store.wait_for_a_change(rt, caller, footprint);
    }
    unreachable!()
}

// Whether it would wait.
fn is_put_off(glimpse: &Glimpse) -> bool
    ensures { result ≡ is_put_off glimpse.now }
{
    matches!(glimpse, Glimpse::Later)
}
