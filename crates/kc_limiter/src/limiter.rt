//! A limiter, where its parts lie, and what holds of it.

ghost use Rattle.std.specs.Prelude.{◌≤◌, IfOk, length};
ghost use Rattle.kc_lay.specs.Placed.{HoldsAtOpening};
ghost use Rattle.kc_limiter.specs.Limits.{GivesSo, HasCounts, CountsGo, IsLimiterLaid};
ghost use Rattle.kc_queue.specs.Meaning.{queue_cells_end};

use kc_keep::{Invariant, Stepping};
use kc_lay::{Layout, Locations, stays_under_additions};
use kc_model::Loc;
use kc_queue::Queue;
use std::alloc::{AllocError, Global};

/// How many clients there are: they are numbered from 0.
pub const CLIENTS: u32 = 2;

/// How many permits a client is given in a window, at most.
pub const PERMITS: u32 = 3;

/// The number of the last window, which doesn't end.
pub const LAST_WINDOW: u32 = u32::MAX;

/// The number of the window; for each client the window of its latest permit, and how many it was given in that; and the line of
/// the clients that were given one. They lie one behind another.
#[derive(Clone, Copy)]
pub struct Limiter {
    pub window: Loc,
    pub seen: Locations,
    pub counts: Locations,
    pub granted: Queue,
}

/// No client has more permits in the window than it may.
impl Invariant for Limiter {
    ghost holds = { HasCounts };

    ghost is_one = { GivesSo };

    fn is_kept(&self) {}
}

/// Who comes into the line is counted, and the window's number rises by one or stays.
impl Stepping for Limiter {
    ghost steps = { CountsGo };

    fn is_stepped(&self) {}
}

/// A limiter in whose first window nobody has a permit, and the layout in which it lies.
///
/// # Errors
///
/// - AllocError: there is no memory for the layout
pub fn lay_limiter(alloc: Global) -> Result<(Limiter, Layout), AllocError>
    ensures laid { IfOk result (λ t. IsLimiterLaid t.0) }
    ensures within { IfOk result (λ t. queue_cells_end t.0.granted ≤ length t.1) }
    ensures opens { IfOk result (λ t. HoldsAtOpening (HasCounts t.0) t.1) }
{
    stays_under_additions();
    let mut layout = Layout::new(alloc);
    let window = layout.loc(0)?;
    let seen = layout.locations(CLIENTS, 0)?;
    let counts = layout.locations(CLIENTS, 0)?;
    let granted = layout.queue(CLIENTS * PERMITS)?;
    let limiter = Limiter {
        window,
        seen,
        counts,
        granted,
    };
    Ok((limiter, layout))
}
