//! Tasks that are dropped while they wait.

ghost use Rattle.std.specs.Prelude.{◌<◌, IfSome};
ghost use Rattle.kc_async.specs.Futures.{IsUnderWay, IsYetToEnd};

use futures::Future;
use futures::executor::block_on;
use futures::task::{Context, Poll};
use kc_async::{Bells, ByTurns, Committing};
use kc_callers::{Borrowed, Callers, Closed};
use kc_loc::{LocOp, Rel};
use kc_model::Loc;
use kc_store::Store;
use kc_xt::Transact;
use std::alloc::{AllocGlobal, Global};
use std::random::RandomSource;
use std::sync::Wait;
use std::test::Fail;

// A commit that has its own caller: it is polled so often, whether it was woken or not, and then given up.
#[derive(Drop)]
struct WithOwn<'a, T: Transact + Drop> {
    waiting: Committing<'a, T>,
    polls: u32,
}

impl<'a, T: Transact + Drop> Future for WithOwn<'a, T> {
    type Output = ();

    ghost can_poll = { λ o. IsUnderWay (T.is_fit o.waiting.transaction) (T.end o.waiting.transaction) o.waiting.one };

    fn poll(&mut self, cx: &mut Context<'_>) -> Poll<()> {
        if self.polls == 0 {
            return Poll::Ready(());
        }
        self.polls -= 1;
        match self.waiting.poll(cx) {
            Poll::Ready(done) => {
                done.into_answered();
                Poll::Ready(())
            }
            Poll::Pending => cx.yield_now(),
        }
    }
}

// Likewise one that borrows a caller for each look.
#[derive(Drop)]
struct InTurn<'a, T: Transact + Drop> {
    waiting: ByTurns<'a, T>,
    polls: u32,
}

impl<'a, T: Transact + Drop> Future for InTurn<'a, T> {
    type Output = ();

    ghost can_poll = { λ o. IsYetToEnd (T.is_fit o.waiting.transaction) (T.end o.waiting.transaction) o.waiting.callers.now o.waiting.is_over };

    fn poll(&mut self, cx: &mut Context<'_>) -> Poll<()> {
        if self.polls == 0 {
            return Poll::Ready(());
        }
        self.polls -= 1;
        match self.waiting.poll(cx) {
            Poll::Ready(done) => {
                done.into_answered();
                Poll::Ready(())
            }
            Poll::Pending => cx.yield_now(),
        }
    }
}

const NEVER: LocOp = LocOp::Check(Loc(0), Rel::Eq, 7);

fn opened(alloc: Global) -> Option<(Callers, Bells)>
    ensures { IfSome result (λ t. 0 < t.0.store.locations) }
{
    let (store, given) = Store::open(alloc, &[0], 2).ok()?;
    let callers = Callers::open(alloc, store, given).ok()?;
    Some((callers, Bells::new(alloc, 1).ok()?))
}

fn are_back(callers: Callers, alloc: Global) -> bool {
    matches!(callers.close(alloc), Closed::All { .. })
}

// Whether both callers are back where a commit that has its own is given up behind so many polls.
fn own<R: Wait + RandomSource + AllocGlobal>(rt: &R, alloc: Global, polls: u32) -> Option<bool> {
    let (callers, bells) = opened(alloc)?;
    let one = Borrowed::of(&callers, 0)?;
    let waiting = Committing::new(&bells, 0, one, NEVER);
    block_on(rt, WithOwn { waiting, polls }).ok()?;
    Some(are_back(callers, alloc))
}

// Likewise where it borrows one for each look.
fn by_turns<R: Wait + RandomSource + AllocGlobal>(
    rt: &R,
    alloc: Global,
    polls: u32,
) -> Option<bool> {
    let (callers, bells) = opened(alloc)?;
    let waiting = ByTurns::new(&callers, &bells, 0, NEVER);
    block_on(rt, InTurn { waiting, polls }).ok()?;
    Some(are_back(callers, alloc))
}

#[test]
fn a_commit_is_given_up_and_its_caller_is_back(rt: HostRuntime) -> Result<(), Fail> {
    for polls in 0..4 {
        assert_eq!(rt;
            (
                own(&rt, rt.alloc(), polls),
                by_turns(&rt, rt.alloc(), polls)
            ),
            (Some(true), Some(true))
        );
    }
    Ok(())
}
