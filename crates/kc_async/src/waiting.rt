//! A task's place at a bell.

ghost use Rattle.std.specs.Prelude.{◌≡◌, true};
ghost use Rattle.futures.specs.Task.{Covers, Keeps};

use crate::bells::{Bell, read_in};
use futures::task::{Context, Poll};
use futures::util::wait_list::Ticket;
use kc_model::Footprint;

/// What a task waits for, and where.
pub struct Waiting<'a> {
    bell: &'a Bell,
    // The bits of what its last look read; 0 before the first.
    awaited: u64,
    place: Option<Ticket>,
}

impl<'a> Waiting<'a> {
    pub(crate) fn at(bell: &'a Bell) -> Waiting<'a> {
        Waiting {
            bell,
            awaited: 0,
            place: None,
        }
    }

    // Leaves the task's waker, before the task looks. False: it hasn't looked before, or there was no memory.
    pub(crate) fn park(&mut self, cx: &mut Context<'_>) -> bool
        ensures covers { result ≡ true → Covers cx.new (λ s. s ≡ self.new.bell.now.source.id) }
        ensures kept { Keeps cx.old cx.new }
        ensures bell { self.new.bell.now ≡ self.old.bell.now }
    {
        if self.awaited == 0 {
            return false;
        }
        self.bell.park(cx, &mut self.place, self.awaited)
    }

    // Behind a look that has to wait. The task rests where its waker lay there for all that was read before it was read; else it
    // is polled again.
    pub(crate) fn rest<T>(
        &mut self,
        cx: &mut Context<'_>,
        parked: bool,
        footprint: &Footprint,
    ) -> Poll<T>
        requires { parked ≡ true → Covers cx.old (λ s. s ≡ self.old.bell.now.source.id) }
        ensures pending { result ≡ Poll.Pending }
        ensures covers { Covers cx.new (λ s. s ≡ self.new.bell.now.source.id) }
        ensures kept { Keeps cx.old cx.new }
        ensures bell { self.new.bell.now ≡ self.old.bell.now }
    {
        let read = read_in(footprint);
        if parked && read & !self.awaited == 0 {
            return Poll::Pending;
        }
        self.awaited = read;
        cx.yield_now()
    }

    // Takes the place back.
    pub(crate) fn leave(self) {
        let Waiting {
            bell,
            awaited: _,
            place,
        } = self;
        bell.leave(place);
    }
}
