//! At which line of a text something stands.

ghost use Rattle.std.specs.Prelude.{◌≡◌, ◌≤◌, ◌+◌, ◌*◌, All, length, map};
ghost use Rattle.kc_check.specs.Parts.{commands_in, places_in};
ghost use Rattle.kc_check.specs.Replays.{commands_of};

use kc_script_bundle::{Command, MOST_COMMANDS, MOST_THREADS};

/// How many commands the threads have.
pub(crate) fn commands_in(threads: &[Vec<Command>]) -> u32
    requires threads { length threads.now ≤ MOST_THREADS }
    requires commands { All (λ v. length v.items ≤ MOST_COMMANDS) threads.now }
    ensures count { result ≡ commands_in (commands_of threads.now) }
    ensures few { result ≤ MOST_COMMANDS * length threads.now }
{
    let mut count = 0;
    for i in 0..threads.len() {
        count += threads[i].len() as u32;
    }
    count
}

/// How many records the threads have: one for each command and each end.
pub(crate) fn places_in(threads: &[Vec<Command>]) -> u32
    requires threads { length threads.now ≤ MOST_THREADS }
    requires commands { All (λ v. length v.items ≤ MOST_COMMANDS) threads.now }
    ensures { result ≡ places_in (commands_of threads.now) }
{
    commands_in(threads) + threads.len() as u32
}
