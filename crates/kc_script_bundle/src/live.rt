//! What the location of live threads holds: their number, and a flag for each thread, which says that its next command
//! that would wait is cancelled.

ghost use Rattle.std.specs.Prelude.{◌≡◌};
ghost use Rattle.kc_script_bundle.specs.Live.{IsThreadNumber, live_threads, flag_of, is_flagged, cleared};

/// How many bits have the number of live threads, the lowest ones. The flags lie above, that of thread 1 first.
pub const LIVE_BITS: u32 = 16;

// The flag of a thread.
pub(crate) fn flag_of(thread: u32) -> u32
    requires { IsThreadNumber thread }
    ensures { result ≡ flag_of thread }
{
    1 << (LIVE_BITS - 1 + thread)
}

/// How many threads live, by the location's value.
pub fn live_threads(value: u32) -> u32
    ensures { result ≡ live_threads value }
{
    value % (1 << LIVE_BITS)
}

/// Whether the flag of a thread is set. Threads have numbers from 1 to `MOST_THREADS`.
pub fn is_flagged(thread: u32, value: u32) -> bool
    requires { IsThreadNumber thread }
    ensures { result ≡ is_flagged thread value }
{
    value & flag_of(thread) != 0
}

/// The value with the flag of a thread cleared. Threads have numbers from 1 to `MOST_THREADS`.
pub fn cleared(thread: u32, value: u32) -> u32
    requires { IsThreadNumber thread }
    ensures { result ≡ cleared thread value }
{
    value & !flag_of(thread)
}
