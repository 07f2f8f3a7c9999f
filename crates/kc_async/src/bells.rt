//! Where tasks wait for locations.

ghost use Rattle.std.specs.Prelude.{◌≡◌, ◌<◌, true, length};
ghost use Rattle.futures.specs.Task.{Covers, Keeps};

use futures::spin::{lock, lock_or_give_up};
use futures::task::{Context, Source};
use futures::util::wait_list::{Ticket, WaitList};
use kc_model::{Footprint, Loc};
use std::alloc::{AllocError, Global};
use std::sync::Mutex;
use std::sync::atomic::{AtomicU64, Ordering};

/// Where tasks wait. One leaves here what it waits for and its waker, and looks behind that whether it still has to wait; who puts
/// looks behind it what is awaited. So the look sees the put, or the ring finds the waker.
#[derive(Drop)]
pub struct Bell {
    pub(crate) source: Source,
    // The bits of the locations that some task here waits for, and maybe more.
    awaited: AtomicU64,
    tasks: Mutex<WaitList<()>>,
}

impl Bell {
    fn new(alloc: Global) -> Result<Bell, AllocError> {
        Ok(Bell {
            source: Source::new(),
            awaited: AtomicU64::new(0),
            tasks: Mutex::new(WaitList::new(alloc)?),
        })
    }

    // Wakes all tasks here, where one waits for what was put.
    fn ring(&self, put: u64) {
        if self.awaited.load(Ordering::SeqCst) & put == 0 {
            return;
        }
        if let Some(mut tasks) = lock(&self.tasks) {
            self.awaited.store(0, Ordering::SeqCst);
            tasks.wake_all();
        }
    }

    // Leaves a task's waker here until it is woken, and what it waits for. False: there was no memory for its place.
    pub(crate) fn park(
        &self,
        cx: &mut Context<'_>,
        place: &mut Option<Ticket>,
        awaited: u64,
    ) -> bool
        ensures covers { result ≡ true → Covers cx.new (λ s. s ≡ self.now.source.id) }
        ensures kept { Keeps cx.old cx.new }
    {
        let Some(mut tasks) = lock(&self.tasks) else {
            return false;
        };
        self.awaited.fetch_or(awaited, Ordering::SeqCst);
        tasks.park(cx, &self.source, place, ()).is_pending()
    }

    // Takes a task's place back.
    pub(crate) fn leave(&self, place: Option<Ticket>) {
        let Some(ticket) = place else {
            return;
        };
        match lock_or_give_up(&self.tasks) {
            Ok(mut tasks) => tasks.leave(Some(ticket)),
            Err(gave_up) => ticket.abandon(gave_up),
        }
    }
}

/// The bells of a store. Tasks at one bell are woken together, so many tasks want several.
#[derive(Drop)]
pub struct Bells {
    bells: Vec<Bell>,
    ghost some: { 0 < length bells.items },
}

impl Bells {
    /// So many.
    pub fn new(alloc: Global, many: usize) -> Result<Bells, AllocError>
        requires { 0 < many }
    {
        let mut bells = Vec::with_capacity(alloc, many)?;
        bells.push_reserved(Bell::new(alloc)?);
        for _ in 1..many {
            bells.push(Bell::new(alloc)?)?;
        }
        Ok(Bells { bells })
    }

    /// The bell of a task, by a number that it picks.
    pub fn at(&self, number: usize) -> &Bell {
        &self.bells[number % self.bells.len()]
    }

    /// Wakes tasks that wait for what a commit put. It is called behind each commit of the store that was Done; these futures do so
    /// themselves.
    pub fn ring(&self, footprint: &Footprint) {
        let mut put = 0u64;
        for each in footprint.puts.as_slice() {
            put |= bit_of(each.loc);
        }
        if put == 0 {
            return;
        }
        for bell in self.bells.as_slice() {
            bell.ring(put);
        }
    }
}

// Locations share 64 bits.
fn bit_of(loc: Loc) -> u64 {
    1u64 << (loc.0 % 64)
}

// The bits of what was read.
pub(crate) fn read_in(footprint: &Footprint) -> u64 {
    let mut read = 0u64;
    for each in footprint.reads.as_slice() {
        read |= bit_of(each.loc);
    }
    read
}
