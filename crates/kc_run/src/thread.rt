//! One thread's commands on a shared store.

ghost use Rattle.std.specs.Prelude.{◌≡◌, ◌+◌, ◌<◌, ◌≤◌, All, length};
ghost use Rattle.kc_model.specs.declared.footprint.TheConstants.{MOST};
ghost use Rattle.kc_script_bundle.specs.declared.bundle.TheConstants.{MOST_THREADS};
ghost use Rattle.kc_run.specs.Jobs.{JobRan, JobReady, row_at};
ghost use Rattle.kc_run.specs.Run.{CanRunAll};
ghost use Rattle.kc_run.specs.Shared.{commit_gives};

use crate::gate::Gate;
use crate::job::Job;
use crate::shared::Shared;
use kc_history::Mark;
use kc_loc::LocOp;
use kc_model::{Footprint, Loc};
use kc_script_bundle::Command;
use kc_script_runs::Ask;
use std::sync::Wait;

// The location of live threads.
const LIVE: Loc = Loc(0);

/// Makes a commit for each command of the thread at this place and one for its end, and adds their records. They share
/// one footprint, whose lines are copied behind each commit.
pub fn run_thread<S: Shared, R: Wait, G: Gate>(
    rt: &R,
    shared: &S,
    gate: &G,
    threads: &[Vec<Command>],
    limit: u32,
    place: usize,
    job: &mut Job<S::Pass>,
)
    requires limit { (0 < limit) × (limit ≤ MOST) }
    requires thread { (place < length threads.now) × (length threads.now ≤ MOST_THREADS) }
    requires locations { 0 < length (S.opening shared.now) }
    requires commands { All (λ v. CanRunAll (length (S.opening shared.now)) v.items) threads.now }
    requires ready { JobReady S.belongs S.number S.left S.own limit shared.now place (row_at threads.now place) job.old }
    ensures { JobRan limit (commit_gives S.enters_looks) S.belongs S.number S.own S.opening shared.now place (row_at threads.now place) job.new }
{
    let commands = threads[place].as_slice();
    let thread = place as u32 + 1;
    let mut footprint = Footprint::new();
    for i in 0..commands.len() {
        let number = i as u32 + 1;
        gate.before(thread, number);
        let ask = Ask {
            command: &commands[i],
            live: LIVE,
            thread,
            limit,
        };
        let answer = shared.commit_command(rt, &mut job.pass, &ask, &mut footprint);
        job.records
            .add(thread, Mark::Command(number), answer, &footprint);
        gate.after(thread, number);
    }
    let answer = shared.commit_command(rt, &mut job.pass, &LocOp::Decr(LIVE), &mut footprint);
    job.records.add(thread, Mark::End, answer, &footprint);
}
