//! The command of a thread.

ghost use Rattle.std.specs.Prelude.{◌≡◌, ◌≤◌, ◌<◌, ◌+◌, ◌↔◌, Err, IsTrue, length};
ghost use Rattle.kc_model.specs.declared.footprint.TheConstants.{MOST};
ghost use Rattle.kc_model.specs.declared.plain_store.TheConstants.{MOST_LOCATIONS};
ghost use Rattle.kc_xt.specs.Law.{Obeys};
ghost use Rattle.kc_xt.specs.Steps.{Does};
ghost use Rattle.kc_script_bundle.specs.Live.{IsThreadNumber};
ghost use Rattle.kc_script_bundle.specs.Meaning.{CommandIsFit, thread_meaning};
ghost use Rattle.kc_script_runs.specs.Ask.{ask_alone_program, ask_end};

use kc_model::{Loc, MOST, Reply};
use kc_script_bundle::{Command, cleared, is_flagged, live_threads};
use kc_xt::{FEW, Peek, Stop, Transact, Xt};

/// A thread's command, with the location of live threads. Where the command would wait, its puts are forgotten and that
/// location is read. Where the thread's flag is set there, the command is cancelled: the flag is cleared, and nothing
/// else is put. Else, alone among the live threads, the thread is stranded. Else it waits. It is fit where the command
/// is, the location is below 65,536, the thread's number is 1 to `MOST_THREADS`, and the limit is 1 to `MOST`.
#[derive(Drop)]
pub struct Ask<'a> {
    pub command: &'a Command,
    pub live: Loc,
    /// The number of the thread.
    pub thread: u32,
    /// How many locations it may touch.
    pub limit: u32,
}

impl<'a> Transact for Ask<'a> {
    ghost meaning = { λ ask. thread_meaning ask.live.0 ask.thread ask.command.now };

    ghost is_fit = { λ ask. CommandIsFit ask.command.now × (ask.live.0 + 1 ≤ MOST_LOCATIONS) × IsThreadNumber ask.thread × (0 < ask.limit) × (ask.limit ≤ MOST) };

    ghost most = { λ ask. ask.limit };

    ghost end = { λ ask. ask_end ask.live.0 ask.command.now };

    fn bound(&self) -> u32 {
        self.command.bound().max(self.live.0.saturating_add(1))
    }

    fn limit(&self) -> u32 {
        self.limit
    }

    fn run<P: Peek>(&self, xt: &mut Xt<P>) -> Result<Reply, Stop> {
        if xt.count() <= FEW {
            run_asked::<P, { FEW }>(self.command, self.live, self.thread, xt)
        } else {
            run_asked::<P, { MOST }>(self.command, self.live, self.thread, xt)
        }
    }
}

// Runs the command, with a snapshot that has room for so many lines.
fn run_asked<P: Peek, const N: usize>(
    command: &Command,
    live: Loc,
    thread: u32,
    xt: &mut Xt<P>,
) -> Result<Reply, Stop>
    requires fit { CommandIsFit command.now }
    requires thread { IsThreadNumber thread }
    requires live { live.0 + 1 ≤ MOST_LOCATIONS }
    requires within { ask_end live.0 command.now ≤ P.locations xt.old.peek }
    requires few { N ≤ MOST }
    requires room { length xt.old.lines ≤ N }
    ensures law { Obeys P.peek_gives (thread_meaning live.0 thread command.now) (ask_end live.0 command.now) xt.old result xt.new }
    ensures size { P.locations xt.new.peek ≡ P.locations xt.old.peek }
{
    let start = xt.snapshot::<N>();
    let tried = command.run(xt);
    if !is_retry(&tried) {
        return tried;
    }
    xt.rollback(&start);
    run_alone(live, thread, xt)
}

fn is_retry(tried: &Result<Reply, Stop>) -> bool
    ensures { IsTrue result ↔ (tried.now ≡ Err Stop.Retry) }
{
    matches!(tried, Err(Stop::Retry))
}

// What comes of a command that would wait.
fn run_alone<P: Peek>(live: Loc, thread: u32, xt: &mut Xt<P>) -> Result<Reply, Stop>
    requires thread { IsThreadNumber thread }
    requires within { live.0 + 1 ≤ P.locations xt.old.peek }
    ensures goes { Does P.peek_gives (ask_alone_program live.0 thread) xt.old result xt.new }
    ensures size { P.locations xt.new.peek ≡ P.locations xt.old.peek }
{
    let value = xt.get(live)?;
    if is_flagged(thread, value) {
        xt.set(live, cleared(thread, value))?;
        return Ok(Reply::Cancelled);
    }
    if live_threads(value) == 1 {
        return Ok(Reply::Stranded);
    }
    Err(Stop::Retry)
}
