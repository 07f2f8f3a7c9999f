//! What threads do with the limiter, each in one step.

ghost use Rattle.std.specs.Prelude.{◌≡◌, ◌<◌};
ghost use Rattle.kc_limiter.specs.Asking.{are_in_a_store, asks_in, asks_permit, asks_until_given, turns_window};
ghost use Rattle.kc_limiter.specs.Limits.{IsLimiterLaid};
ghost use Rattle.kc_limiter.specs.declared.limiter.TheConstants.{CLIENTS};

use crate::limiter::{CLIENTS, LAST_WINDOW, Limiter, PERMITS};
use kc_compose::{Both, Fed, Feed, Say, Sort, WaitOn, When, enq_wait};
use kc_loc::LocOp;
use kc_model::{Loc, Reply};
use kc_queue::{Queue, QueueOp};

/// Counts, and puts the client into the line.
pub type Counted = Both<LocOp, WaitOn<QueueOp>>;

/// Gives a client a permit in the window whose number is fed, if it may have one.
#[derive(Clone, Copy)]
pub struct InWindow {
    pub seen: Loc,
    pub count: Loc,
    pub granted: Queue,
    pub client: u32,
}

impl Feed for InWindow {
    type Next = When<LocOp, When<LocOp, Say, Counted>, Both<LocOp, Counted>>;

    ghost fed = { asks_in };

    ghost is_ready = { are_in_a_store };

    fn feed(&self, window: u32) -> When<LocOp, When<LocOp, Say, Counted>, Both<LocOp, Counted>> {
        let one_more = When {
            ask: LocOp::Get(self.count),
            is: Sort::Is(PERMITS),
            then: Say {
                reply: Reply::Bool(false),
            },
            otherwise: Both {
                first: LocOp::Incr(self.count),
                second: enq_wait(self.granted, self.client),
            },
        };
        let the_first = Both {
            first: LocOp::Set(self.count, 1),
            second: enq_wait(self.granted, self.client),
        };
        When {
            ask: LocOp::Get(self.seen),
            is: Sort::Is(window),
            then: one_more,
            otherwise: Both {
                first: LocOp::Set(self.seen, window),
                second: the_first,
            },
        }
    }
}

impl Limiter {
    /// Gives a client a permit in this window and puts it into the line, or replies `false` where it has had all of them.
    pub fn permit(&self, client: u32) -> Fed<LocOp, InWindow>
        requires laid { IsLimiterLaid self.now }
        requires client { client < CLIENTS }
        ensures { result ≡ asks_permit self.now client }
    {
        Fed {
            first: LocOp::Get(self.window),
            behind: InWindow {
                seen: self.seen.at(client),
                count: self.counts.at(client),
                granted: self.granted,
                client,
            },
        }
    }

    /// The same, and where it would reply `false` it waits for the next window.
    pub fn permit_waiting(&self, client: u32) -> WaitOn<Fed<LocOp, InWindow>>
        requires laid { IsLimiterLaid self.now }
        requires client { client < CLIENTS }
        ensures { result ≡ asks_until_given self.now client }
    {
        WaitOn {
            of: self.permit(client),
            at: Sort::Refusal,
        }
    }

    /// Turns the window to the next one, or replies `false` where there is none.
    pub fn turn(&self) -> When<LocOp, Say, LocOp>
        ensures { result ≡ turns_window self.now }
    {
        When {
            ask: LocOp::Get(self.window),
            is: Sort::Is(LAST_WINDOW),
            then: Say {
                reply: Reply::Bool(false),
            },
            otherwise: LocOp::Incr(self.window),
        }
    }
}
