//! The future of a commit, by a caller of its own.

ghost use Rattle.std.specs.Prelude.{◌≡◌, ◌≤◌, None, Some};
ghost use Rattle.kc_async.specs.Futures.{GivesAnswer, IsUnderWay};
ghost use Rattle.kc_xt.specs.Meaning.{limited};

use crate::attempt::{Came, attempt};
use crate::bells::{Bell, Bells};
use crate::committed::Committed;
use crate::waiting::Waiting;
use futures::Future;
use futures::task::{Context, Poll};
use kc_callers::Borrowed;
use kc_model::Footprint;
use kc_xt::Transact;
use std::mem;

/// A commit that waits, as a future. It never answers Later: where it has to wait for what it read, its task rests until some of that
/// may have changed. It has its caller until it is over, and so no more of these wait than there are callers.
pub struct Committing<'a, T: Transact + Drop> {
    bells: &'a Bells,
    waiting: Waiting<'a>,
    transaction: T,
    footprint: Footprint,
    // None once it is over.
    one: Option<Borrowed<'a>>,
}

impl<T: Transact + Drop> Drop for Committing<'_, T> {
    fn drop(self) {
        let Committing {
            bells: _,
            waiting,
            transaction: _,
            footprint: _,
            one,
        } = self;
        waiting.leave();
        if let Some(one) = one {
            one.give_back();
        }
    }
}

impl<'a, T: Transact + Drop> Committing<'a, T> {
    /// The commit of a transaction by a caller that was lent. It waits at this of the bells.
    pub fn new(
        bells: &'a Bells,
        number: usize,
        one: Borrowed<'a>,
        transaction: T,
    ) -> Committing<'a, T>
        requires fit { T.is_fit transaction }
        requires within { T.end transaction ≤ one.caller.of.locations }
        ensures one { result.one ≡ Some one.entry }
        ensures transaction { result.transaction ≡ transaction }
        ensures begins { IsUnderWay (T.is_fit result.transaction) (T.end result.transaction) result.one }
    {
        Committing {
            bells,
            waiting: Waiting::at(bells.at(number)),
            transaction,
            footprint: Footprint::new(),
            one: Some(one),
        }
    }
}

impl<'a, T: Transact + Drop> Future for Committing<'a, T> {
    type Output = Committed<'a>;

    ghost can_poll = { λ f. IsUnderWay (T.is_fit f.transaction) (T.end f.transaction) f.one };

    ghost needs = { λ f s. s ≡ f.waiting.bell.now.source.id };

    ghost gives = { λ f out. GivesAnswer (limited (T.most f.transaction) (T.meaning f.transaction)) (T.end f.transaction) f.one out };

    fn poll(&mut self, cx: &mut Context<'_>) -> Poll<Committed<'a>> {
        let Some(mut one) = self.one.take() else {
            unreachable!()
        };
        let parked = self.waiting.park(cx);
        match attempt(self.bells, &mut one, &self.transaction, &mut self.footprint) {
            Came::Ends(answered) => {
                let footprint = mem::replace(&mut self.footprint, Footprint::new());
                Poll::Ready(Committed {
                    one,
                    answered,
                    footprint,
                })
            }
            Came::Again => {
                keep(one, &mut self.one);
                cx.yield_now()
            }
            Came::Waits => {
                keep(one, &mut self.one);
                self.waiting.rest(cx, parked, &self.footprint)
            }
        }
    }
}

// Puts a caller where none is.
fn keep<'a>(one: Borrowed<'a>, at: &mut Option<Borrowed<'a>>)
    requires { at.old ≡ None }
    ensures { at.new ≡ Some one.entry }
{
    match mem::replace(at, Some(one)) {
        None => {}
        Some(_) => unreachable!(),
    }
}
