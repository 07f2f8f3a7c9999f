//! The library in use, as one program that grows: a little server of jobs. README and the tour quote it; the gate proves
//! it, runs it, and compares what it prints.
#![tactic(auto)]

ghost use Rattle.std.specs.Prelude.{◌≡◌, ◌≤◌, ⊤, IfOk, length};
ghost use Rattle.kc_queue.specs.Meaning.{queue_meaning};
ghost use Rattle.kc_term.specs.Fit.{AreFit};
ghost use Rattle.kc_term.specs.Tree.{first, op, operations};
ghost use Rattle.kc_uses.specs.Serving.{HasServer};

mod finish;
mod server;
mod shared;
mod stop;
mod told;

use finish::finish_job;
use kc_cache::{CacheAct, CacheOp};
use kc_loc::LocOp;
use kc_model::{Footprint, PlainStore};
use kc_queue::{Queue, QueueAct, QueueOp, touches_its_own_cells as each_replies_one_item};
use kc_term::Term;
use kc_xt::{Transact, Tried, commit};
use server::{Server, lay_server, open};
use shared::serve;
use std::alloc::Global;
use std::io;
use told::tell;

fn main(rt: HostRuntime) -> io::Result<()> {
    let (server, layout) = lay_server(rt.alloc())?;
    let mut store = open(rt.alloc(), &layout)?;
    count_a_request(&rt, &server, &mut store)?;
    queue_a_job(&rt, &server, &mut store)?;
    finish_a_job(&rt, &server, &mut store)?;
    read_a_result(&rt, &server, &mut store)?;
    wait_for_a_job(&rt, &server, &mut store)?;
    take_the_first_job(&rt, rt.alloc(), &server, &mut store)?;
    serve(&rt, rt.alloc(), &server, &layout)?;
    tell(&rt, rt.alloc())
}

// Commits a transaction, and prints what came of it.
fn run<T: Transact>(
    rt: &impl Print,
    what: &str,
    store: &mut PlainStore,
    transaction: &T,
) -> io::Result<()>
    requires fit { T.is_fit transaction.now }
    requires within { T.end transaction.now ≤ length store.old }
    ensures { length store.new ≡ length store.old }
{
    let mut footprint = Footprint::new();
    let tried = commit(store, transaction, &mut footprint);
    println!(rt; "{what}: {tried:?}")
}

// One location.
fn count_a_request(rt: &impl Print, server: &Server, store: &mut PlainStore) -> io::Result<()>
    requires { HasServer server.now (length store.old) }
    ensures { length store.new ≡ length store.old }
{
    run(rt, "a request came", store, &LocOp::Incr(server.requests))?;
    println!(rt; "requests: {:?}", store.get(server.requests))
}

fn on(queue: Queue, act: QueueAct) -> QueueOp
    ensures queue { result.queue ≡ queue }
{
    QueueOp { queue, act }
}

// One structure.
fn queue_a_job(rt: &impl Print, server: &Server, store: &mut PlainStore) -> io::Result<()>
    requires { HasServer server.now (length store.old) }
    ensures { length store.new ≡ length store.old }
{
    run(rt, "job 7 waits", store, &on(server.jobs, QueueAct::Enq(7)))
}

// Two structures in one step.
fn finish_a_job(rt: &impl Print, server: &Server, store: &mut PlainStore) -> io::Result<()>
    requires { HasServer server.now (length store.old) }
    ensures { length store.new ≡ length store.old }
{
    run(rt, "a job is finished", store, &finish_job(server))
}

fn read_a_result(rt: &impl Print, server: &Server, store: &mut PlainStore) -> io::Result<()>
    requires { HasServer server.now (length store.old) }
    ensures { length store.new ≡ length store.old }
{
    let read = CacheOp {
        cache: server.results,
        act: CacheAct::CGet(7),
    };
    run(rt, "the result of job 7", store, &read)
}

// A transaction that has to wait says what for.
fn wait_for_a_job(rt: &impl Print, server: &Server, store: &mut PlainStore) -> io::Result<()>
    requires { HasServer server.now (length store.old) }
    ensures { length store.new ≡ length store.old }
{
    let mut footprint = Footprint::new();
    let tried = commit(store, &finish_job(server), &mut footprint);
    println!(rt; "no job waits: {tried:?}")?;
    for read in footprint.reads.as_slice() {
        println!(rt; "try again when location {} changes", read.loc.0)?;
    }
    Ok(())
}

// Alternatives: an urgent job, or else any job.
fn take_the_first_job(
    rt: &impl Print,
    alloc: Global,
    server: &Server,
    store: &mut PlainStore,
) -> io::Result<()>
    requires { HasServer server.now (length store.old) }
    ensures { length store.new ≡ length store.old }
{
    run(rt, "job 8 waits", store, &on(server.jobs, QueueAct::Enq(8)))?;
    let urgent = on(server.urgent, QueueAct::DeqWait);
    let any = on(server.jobs, QueueAct::DeqWait);
    let first = one_or_other(alloc, urgent, any)?;
    run(rt, "an urgent job, or any", store, &first)
}

// Where the first would wait, the second runs.
fn one_or_other(alloc: Global, a: QueueOp, b: QueueOp) -> io::Result<Term<QueueOp>>
    ensures tree { IfOk result (λ term. term ≡ first (op a) (op b)) }
    ensures fit { IfOk result (λ term. AreFit (λ o. ⊤) queue_meaning (operations term)) }
{
    each_replies_one_item();
    let Ok(term) = Term::first(alloc, Term::op(a), Term::op(b)) else {
        return Err(io::ErrorKind::OutOfMemory.into());
    };
    Ok(term)
}
