//! The same server on a store that threads share without a lock: a worker, and a client.

ghost use Rattle.std.specs.Prelude.{◌≡◌, length};
ghost use Rattle.kc_uses.specs.Serving.{HasServer};

use crate::finish::finish_job;
use crate::server::Server;
use crate::stop::finish_or_stop;
use kc_cache::{CacheAct, CacheOp};
use kc_keep::{commit_replied, open_for_two};
use kc_lay::Layout;
use kc_loc::LocOp;
use kc_queue::{QueueAct, QueueOp};
use kc_store::{Caller, Store};
use std::alloc::Global;
use std::io::Print;
use std::sync::Wait;
use std::thread::Threads;
use std::{io, thread};

// How many jobs the client queues, and the worker finishes.
const JOBS: u32 = 3;

/// The client queues jobs while the worker finishes each as it comes. Then the client learns what the worker knew, and
/// reads the last result. At last the worker waits for another job, and the client closes the server, which ends the wait.
pub fn serve<R: Print + Threads + Wait + Sync>(
    rt: &R,
    alloc: Global,
    server: &Server,
    layout: &Layout,
) -> io::Result<()>
    requires { HasServer server.now (length layout.now) }
{
    let (store, worker, client) = open_for_two(alloc, layout)?;
    let shared = &store;
    let (mut worker, mut client) = thread::join(
        rt,
        move || work(rt, shared, worker, server),
        move || queue_jobs(rt, shared, client, server),
    );
    let note = store.note(&mut worker);
    store.learn(&mut client, note);
    let last = CacheOp {
        cache: server.results,
        act: CacheAct::CGet(JOBS),
    };
    let reply = commit_replied(rt, &store, &mut client, &last);
    println!(rt; "the result of job {JOBS}, by another thread: {reply:?}")?;
    let (mut worker, _client) = thread::join(
        rt,
        move || wait_for_more(rt, shared, worker, server),
        move || close(rt, shared, client, server),
    );
    let reply = commit_replied(rt, &store, &mut worker, &finish_or_stop(server));
    println!(rt; "once the server is closed: {reply:?}")
}

// Waits for a job that never comes, until the server is closed.
fn wait_for_more<R: Wait>(rt: &R, store: &Store, mut worker: Caller, server: &Server) -> Caller
    requires worker { worker.of ≡ store.now }
    requires server { HasServer server.now store.now.locations }
    ensures { result.of ≡ store.now }
{
    commit_replied(rt, store, &mut worker, &finish_or_stop(server));
    worker
}

fn close<R: Wait>(rt: &R, store: &Store, mut client: Caller, server: &Server) -> Caller
    requires client { client.of ≡ store.now }
    requires server { HasServer server.now store.now.locations }
    ensures { result.of ≡ store.now }
{
    commit_replied(rt, store, &mut client, &LocOp::Set(server.closed, 1));
    client
}

// Finishes as many jobs as the client queues, and waits where there is none.
fn work<R: Wait>(rt: &R, store: &Store, mut worker: Caller, server: &Server) -> Caller
    requires worker { worker.of ≡ store.now }
    requires server { HasServer server.now store.now.locations }
    ensures { result.of ≡ store.now }
{
    for _ in 0..JOBS {
        commit_replied(rt, store, &mut worker, &finish_job(server));
    }
    worker
}

fn queue_jobs<R: Wait>(rt: &R, store: &Store, mut client: Caller, server: &Server) -> Caller
    requires client { client.of ≡ store.now }
    requires server { HasServer server.now store.now.locations }
    ensures { result.of ≡ store.now }
{
    for job in 1..JOBS + 1 {
        let queue = QueueOp {
            queue: server.jobs,
            act: QueueAct::Enq(job),
        };
        commit_replied(rt, store, &mut client, &queue);
    }
    client
}
