ghost use Rattle.std.specs.Prelude.{◌≡◌, ◌<◌, ◌≤◌, All, IfOk, length};
ghost use Rattle.kc_script_bundle.specs.Meaning.{OpIsFit, op_end};
ghost use Rattle.kc_script_bundle.specs.declared.bundle.TheConstants.{MOST_THREADS};
ghost use Rattle.kc_run.specs.Run.{CanRunAll};

use kc_history::Records;
use kc_loc::{LocOp, Rel};
use kc_model::{Answer, Loc, MOST, NoMemory, OpenError, Reply};
use kc_queue::{Queue, QueueAct, QueueOp};
use kc_run::{KcShared, OpenGate, open_kcas, open_locked, run_threads};
use kc_script_bundle::{Cancel, Command, Op};
use std::alloc::Global;
use std::process::Abort;
use std::sync::Wait;
use std::test::Fail;
use std::thread::Threads;

// So many commands of this operation.
fn same(alloc: Global, op: Op, count: usize) -> Result<Vec<Command>, NoMemory>
    requires { OpIsFit op × (op_end op ≤ 64) × (count ≤ 4096) }
    ensures { IfOk result (λ v. CanRunAll 64 v.items) }
{
    let mut commands = Vec::with_capacity(alloc, count)?;
    for i in 0..count {
        commands.push(Command::One(op))?;
    }
    Ok(commands)
}

// So many times two operations, one behind the other.
fn in_turn(alloc: Global, first: Op, second: Op, count: usize) -> Result<Vec<Command>, NoMemory>
    requires first { OpIsFit first × (op_end first ≤ 64) }
    requires second { OpIsFit second × (op_end second ≤ 64) }
    requires few { count ≤ 2048 }
    ensures { IfOk result (λ v. CanRunAll 64 v.items) }
{
    let mut commands = Vec::with_capacity(alloc, 2 * count)?;
    for i in 0..count {
        commands.push(Command::One(first))?;
        commands.push(Command::One(second))?;
    }
    Ok(commands)
}

// So many threads of them.
fn team(alloc: Global, op: Op, count: usize, threads: usize) -> Result<Vec<Vec<Command>>, NoMemory>
    requires { OpIsFit op × (op_end op ≤ 64) × (count ≤ 4096) }
    ensures len { IfOk result (λ v. length v.items ≡ threads) }
    ensures commands { IfOk result (λ v. All (λ w. CanRunAll 64 w.items) v.items) }
{
    let mut team = Vec::with_capacity(alloc, threads)?;
    for i in 0..threads {
        team.push(same(alloc, op, count)?)?;
    }
    Ok(team)
}

// The opening values of a store of 64 locations: they are zero but for the number of threads.
fn opening(alloc: Global, threads: &[Vec<Command>]) -> Result<Vec<u32>, NoMemory>
    requires { length threads.now ≤ 64 }
    ensures { IfOk result (λ v. length v.items ≡ 64) }
{
    let mut values = vec![in alloc; 0; 64]?;
    values[0] = threads.len() as u32;
    Ok(values)
}

// The records of these threads on the store behind one lock.
fn run_locked<R: Threads + Wait + Sync>(
    rt: &R,
    alloc: Global,
    threads: &[Vec<Command>],
) -> Result<Vec<Records>, NoMemory>
    requires threads { (0 < length threads.now) × (length threads.now ≤ MOST_THREADS) }
    requires commands { All (λ v. CanRunAll 64 v.items) threads.now }
{
    let values = opening(alloc, threads)?;
    let (store, passes) = open_locked(alloc, &values, threads)?;
    match run_threads(rt, alloc, threads, MOST as u32, store, passes, &OpenGate) {
        Ok((records, _)) => Ok(records),
        Err(_) => Err(NoMemory),
    }
}

// The records of these threads on the lock-free store.
fn run_kcas<R: Threads + Wait + Sync>(
    rt: &R,
    alloc: Global,
    threads: &[Vec<Command>],
) -> Result<Vec<Records>, NoMemory>
    requires threads { (0 < length threads.now) × (length threads.now ≤ MOST_THREADS) }
    requires commands { All (λ v. CanRunAll 64 v.items) threads.now }
{
    let values = opening(alloc, threads)?;
    let (store, passes) = open_kcas(alloc, &values, threads)?;
    match run_threads(rt, alloc, threads, MOST as u32, store, passes, &OpenGate) {
        Ok((records, _)) => Ok(records),
        Err(_) => Err(NoMemory),
    }
}

// How many different numbers below so many the records reply.
fn replies(alloc: Global, records: &[Records], most: usize) -> Result<usize, NoMemory> {
    let mut seen = vec![in alloc; false; most]?;
    for list in records {
        for i in 0..list.len() {
            if let Answer::Reply(Reply::Value(value)) = list.head(i).answer
                && let Some(place) = seen.get_mut(value as usize)
            {
                *place = true;
            }
        }
    }
    Ok(seen.iter().filter(|s| **s).count())
}

// How many records reply this.
fn count(records: &[Records], reply: Reply) -> usize {
    let answer = Answer::Reply(reply);
    let mut count = 0_usize;
    for list in records {
        for i in 0..list.len() {
            if list.head(i).answer == answer {
                count = count.saturating_add(1);
            }
        }
    }
    count
}

// Asserts a number. In line that costs seconds to prove, and a call a fraction.
fn is(rt: &impl Abort, number: usize, want: usize) {
    assert_eq!(rt; number, want);
}

#[test]
fn two_threads_add_to_one_location(rt: HostRuntime) -> Result<(), Fail> {
    let alloc = rt.alloc();
    let threads = team(alloc, Op::Loc(LocOp::FetchAdd(Loc(1), 1)), 500, 2)?;
    let locked = run_locked(&rt, alloc, &threads)?;
    is(&rt, replies(alloc, &locked, 1000)?, 1000);
    let free = run_kcas(&rt, alloc, &threads)?;
    is(&rt, replies(alloc, &free, 1000)?, 1000);
    Ok(())
}

#[test]
fn sixteen_threads_add_to_one_location(rt: HostRuntime) -> Result<(), Fail> {
    let alloc = rt.alloc();
    let threads = team(alloc, Op::Loc(LocOp::FetchAdd(Loc(1), 1)), 100, 16)?;
    let locked = run_locked(&rt, alloc, &threads)?;
    is(&rt, replies(alloc, &locked, 1600)?, 1600);
    let free = run_kcas(&rt, alloc, &threads)?;
    is(&rt, replies(alloc, &free, 1600)?, 1600);
    Ok(())
}

#[test]
fn a_queue_is_handed_over_by_a_wait(rt: HostRuntime) -> Result<(), Fail> {
    let alloc = rt.alloc();
    let queue = Queue::layout(Loc(1), 2);
    let take = QueueAct::DeqWait;
    let mut threads = Vec::with_capacity(alloc, 2)?;
    threads.push(same(alloc, Op::Queue(QueueOp { queue, act: take }), 1)?)?;
    let put = QueueAct::Enq(7);
    threads.push(same(alloc, Op::Queue(QueueOp { queue, act: put }), 1)?)?;
    let locked = run_locked(&rt, alloc, &threads)?;
    is(&rt, replies(alloc, &locked, 8)?, 1);
    let free = run_kcas(&rt, alloc, &threads)?;
    is(&rt, replies(alloc, &free, 8)?, 1);
    Ok(())
}

// A thread that waits for what never comes is cancelled a thousand times, each time when it has told of the time before.
#[test]
fn a_thread_is_cancelled_a_thousand_times(rt: HostRuntime) -> Result<(), Fail> {
    let alloc = rt.alloc();
    let queue = Queue::layout(Loc(2), 1);
    let wait = Op::Loc(LocOp::Check(Loc(1), Rel::Eq, 1));
    let tell = Op::Queue(QueueOp {
        queue,
        act: QueueAct::Enq(7),
    });
    let cancel = Op::Cancel(Cancel {
        live: Loc(0),
        thread: 1,
    });
    let hear = Op::Queue(QueueOp {
        queue,
        act: QueueAct::DeqWait,
    });
    let mut threads = Vec::with_capacity(alloc, 2)?;
    threads.push(in_turn(alloc, wait, tell, 1000)?)?;
    threads.push(in_turn(alloc, cancel, hear, 1000)?)?;
    let locked = run_locked(&rt, alloc, &threads)?;
    is(&rt, count(&locked, Reply::Cancelled), 1000);
    is(&rt, count(&locked, Reply::Value(7)), 1000);
    is(&rt, count(&locked, Reply::Full), 0);
    let free = run_kcas(&rt, alloc, &threads)?;
    is(&rt, count(&free, Reply::Cancelled), 1000);
    is(&rt, count(&free, Reply::Value(7)), 1000);
    is(&rt, count(&free, Reply::Full), 0);
    Ok(())
}

#[test]
fn a_lock_free_store_opens_within_its_limits(rt: HostRuntime) -> Result<(), Fail> {
    let alloc = rt.alloc();
    let many = vec![in alloc; 0u32; 65_537]?;
    assert!(rt;
        matches!(
            &KcShared::open(alloc, &many, 2),
            Err(OpenError::TooManyLocs)
        )
    );
    assert!(rt;
        matches!(
            &KcShared::open(alloc, &[7, 8, 9], 65),
            Err(OpenError::TooManyCallers)
        )
    );
    assert!(rt;
        matches!(
            &KcShared::open(alloc, &[7, 8, 9], 0),
            Err(OpenError::TooManyCallers)
        )
    );
    assert!(rt; KcShared::open(alloc, &[7, 8, 9], 2).is_ok());
    Ok(())
}
