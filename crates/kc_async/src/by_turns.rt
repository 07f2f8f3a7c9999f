//! The future of a commit, by a caller that is borrowed for each look.

ghost use Rattle.std.specs.Prelude.{◌≡◌, ◌≤◌};
ghost use Rattle.kc_async.specs.Futures.{AnswersByTurns, IsYetToEnd};
ghost use Rattle.kc_xt.specs.Meaning.{limited};

use crate::attempt::{Came, attempt};
use crate::bells::{Bell, Bells};
use crate::committed::Committed;
use crate::waiting::Waiting;
use futures::Future;
use futures::task::{Context, Poll};
use kc_callers::{Borrowed, Callers};
use kc_model::Footprint;
use kc_xt::Transact;
use std::mem;

/// A commit that waits, as a future that has no caller while it waits. So more of these may wait than there are callers: each
/// borrows one as it is polled, and where all are out it is polled again.
pub struct ByTurns<'a, T: Transact + Drop> {
    callers: &'a Callers,
    bells: &'a Bells,
    number: usize,
    waiting: Waiting<'a>,
    transaction: T,
    footprint: Footprint,
    is_over: bool,
}

impl<T: Transact + Drop> Drop for ByTurns<'_, T> {
    fn drop(self) {
        let ByTurns {
            callers: _,
            bells: _,
            number: _,
            waiting,
            transaction: _,
            footprint: _,
            is_over: _,
        } = self;
        waiting.leave();
    }
}

impl<'a, T: Transact + Drop> ByTurns<'a, T> {
    /// The commit of a transaction. It looks for a caller from the place of this number on, and waits at the bell of this number.
    pub fn new(
        callers: &'a Callers,
        bells: &'a Bells,
        number: usize,
        transaction: T,
    ) -> ByTurns<'a, T>
        requires fit { T.is_fit transaction }
        requires within { T.end transaction ≤ callers.now.store.locations }
        ensures callers { result.callers.now ≡ callers.now }
        ensures transaction { result.transaction ≡ transaction }
        ensures begins { IsYetToEnd (T.is_fit result.transaction) (T.end result.transaction) result.callers.now result.is_over }
    {
        ByTurns {
            callers,
            bells,
            number,
            waiting: Waiting::at(bells.at(number)),
            transaction,
            footprint: Footprint::new(),
            is_over: false,
        }
    }
}

impl<'a, T: Transact + Drop> Future for ByTurns<'a, T> {
    type Output = Committed<'a>;

    ghost can_poll = { λ f. IsYetToEnd (T.is_fit f.transaction) (T.end f.transaction) f.callers.now f.is_over };

    ghost needs = { λ f s. s ≡ f.waiting.bell.now.source.id };

    ghost gives = { λ f out. AnswersByTurns (limited (T.most f.transaction) (T.meaning f.transaction)) (T.end f.transaction) f.callers.now out };

    fn poll(&mut self, cx: &mut Context<'_>) -> Poll<Committed<'a>> {
        let Some(mut one) = Borrowed::of(self.callers, self.number) else {
            return cx.yield_now();
        };
        let parked = self.waiting.park(cx);
        match attempt(self.bells, &mut one, &self.transaction, &mut self.footprint) {
            Came::Ends(answered) => {
                self.is_over = true;
                let footprint = mem::replace(&mut self.footprint, Footprint::new());
                Poll::Ready(Committed {
                    one,
                    answered,
                    footprint,
                })
            }
            Came::Again => {
                one.give_back();
                cx.yield_now()
            }
            Came::Waits => {
                one.give_back();
                self.waiting.rest(cx, parked, &self.footprint)
            }
        }
    }
}
