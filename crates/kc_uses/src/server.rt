//! What the server keeps, and where.

ghost use Rattle.std.specs.Prelude.{◌≡◌, IfOk, length};
ghost use Rattle.kc_uses.specs.Serving.{HasServer};

use kc_cache::Cache;
use kc_lay::Layout;
use kc_model::{Loc, PlainStore};
use kc_queue::Queue;
use std::alloc::{AllocError, Global};
use std::io;

/// How many requests came, the jobs that wait, urgent ones apart, the results of the jobs asked for last, and whether the
/// server is closed: 0 while it isn't.
#[derive(Clone, Copy)]
pub struct Server {
    pub requests: Loc,
    pub jobs: Queue,
    pub urgent: Queue,
    pub results: Cache,
    pub closed: Loc,
}

/// A server with room for 8 jobs, 4 urgent ones and 16 results, and the layout in which it lies.
pub fn lay_server(alloc: Global) -> Result<(Server, Layout), AllocError>
    ensures lies { IfOk result (λ t. HasServer t.0 (length t.1)) }
    ensures jobs { IfOk result (λ t. t.0.jobs.cap ≡ 8) }
    ensures urgent { IfOk result (λ t. t.0.urgent.cap ≡ 4) }
    ensures results { IfOk result (λ t. (t.0.results.buckets ≡ 4) × (t.0.results.cap ≡ 16)) }
{
    let mut layout = Layout::new(alloc);
    let requests = layout.loc(0)?;
    let jobs = layout.queue(8)?;
    let urgent = layout.queue(4)?;
    let results = layout.cache(4, 16)?;
    let closed = layout.loc(0)?;
    let server = Server {
        requests,
        jobs,
        urgent,
        results,
        closed,
    };
    Ok((server, layout))
}

/// A store that opens as it was laid out.
pub fn open(alloc: Global, layout: &Layout) -> io::Result<PlainStore>
    ensures { IfOk result (λ store. length store ≡ length layout.now) }
{
    PlainStore::open(alloc, layout.values()).map_err(|_| io::ErrorKind::OutOfMemory.into())
}
