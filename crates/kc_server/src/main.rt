//! A server whose requests are texts. Four threads of a pool ask: each puts its texts on a shelf, and their tickets into a queue.
//! Four serve: each waits a while for a ticket, and has its text. They have three callers among them.
#![tactic(auto)]

mod server;

use kc_callers::Callers;
use kc_model::Loc;
use kc_queue::Queue;
use kc_shelf::{Pool, Shelf};
use kc_store::Store;
use server::{Server, Text, ask, next};
use std::alloc::Global;
use std::sync::Wait;
use std::sync::atomic::AtomicUsize;
use std::sync::atomic::Ordering::SeqCst;
use std::time::Clock;
use std::{io, thread};

const CALLERS: u32 = 3;

const SLOTS: u32 = 16;

const THREADS: usize = 8;

// By each thread that asks.
const REQUESTS: u32 = 250;

// None: there is no memory for it.
fn open(alloc: Global) -> Option<Server> {
    let shelf = Shelf::layout(Loc(0), SLOTS);
    let requests = Queue::layout(Loc(shelf.end()), SLOTS);
    let cells = shelf.cells() + requests.cells();
    let mut values = vec![in alloc; 0u32; cells as usize].ok()?;
    for index in 0..shelf.cells() {
        values[index as usize] = shelf.opening(index);
    }
    let (store, callers) = Store::open(alloc, &values, CALLERS).ok()?;
    let texts = Pool::open(alloc, &store, shelf).ok()?;
    Some(Server {
        callers: Callers::open(alloc, store, callers).ok()?,
        texts,
        requests,
        asking: AtomicUsize::new(THREADS / 2),
    })
}

// Asks until a slot is free for the text.
fn ask_on<R: Wait>(rt: &R, server: &Server, number: usize, text: Text) {
    let mut text = text;
    'tries: for _ in rt.forever() {
        match ask(rt, server, number, text) {
            Ok(_) => return,
            Err(back) => text = back,
        }
        thread::yield_now();
    }
}

fn ask_all<R: Wait>(rt: &R, alloc: Global, server: &Server, number: usize) -> Option<()> {
    'requests: for i in 0..REQUESTS {
        let text = format!(in alloc; "request {i}").ok()?;
        ask_on(rt, server, number, Box::new(alloc, text).ok()?);
    }
    Some(())
}

// How many requests were served, and their bytes.
fn serve_all<R: Wait + Clock>(rt: &R, server: &Server, number: usize) -> (usize, usize) {
    let mut served = (0usize, 0usize);
    'requests: for _ in rt.forever() {
        let asking = server.asking.load(SeqCst);
        match next(rt, server, number) {
            Some(text) => {
                served.0 = served.0.saturating_add(1);
                served.1 = served.1.saturating_add(text.len());
            }
            None => {
                if asking == 0 {
                    break;
                }
            }
        }
    }
    served
}

fn by_thread<R: Wait + Clock>(
    rt: &R,
    alloc: Global,
    server: &Server,
    number: usize,
) -> (usize, usize) {
    if number % 2 == 1 {
        return serve_all(rt, server, number);
    }
    ask_all(rt, alloc, server, number);
    server.asking.fetch_sub(1, SeqCst);
    (0, 0)
}

// How many texts the shelf takes at the end, of which none is taken out.
fn free_slots<R: Wait>(rt: &R, alloc: Global, server: &Server) -> Option<u32> {
    let mut free = 0u32;
    'slots: for _ in 0..SLOTS {
        let text = Box::new(alloc, String::new(alloc)).ok()?;
        if ask(rt, server, 0, text) == Ok(true) {
            free = free.saturating_add(1);
        }
    }
    Some(free)
}

fn main(rt: HostRuntime) -> io::Result<()> {
    let Some(server) = open(rt.alloc()) else {
        return Err(io::ErrorKind::OutOfMemory.into());
    };
    let (run, alloc, shared) = (&rt, rt.alloc(), &server);
    let served = thread::map_indices(
        run,
        alloc,
        THREADS,
        &|number: usize| { by_thread(run, alloc, shared, number) },
    )?;
    let (mut requests, mut bytes) = (0usize, 0usize);
    for each in served.iter() {
        requests = requests.saturating_add(each.0);
        bytes = bytes.saturating_add(each.1);
    }
    let free = free_slots(run, alloc, shared).unwrap_or(0);
    println!(rt; "served: {requests} requests, {bytes} bytes; free slots: {free} of {SLOTS}")
}
