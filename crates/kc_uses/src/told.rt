//! What jobs say: texts that threads share. A worker reads one where it lies, and buries it when nothing names it any more.

ghost use Rattle.std.specs.Prelude.{◌≡◌, ◌≤◌, IfOk, length};
ghost use Rattle.kc_text.specs.Meaning.{IsFitAct, texts_cells_end};

use kc_model::{Loc, Reply};
use kc_store::{Caller, Outcome, Store};
use kc_text::{Buried, Text, TextAct, TextOp, TextPool, TextRead, Texts, bury_text, read_text};
use std::alloc::Global;
use std::io::Print;
use std::sync::Wait;
use std::{io, str};

// How many jobs there are, each with a text, and how many locations one place and these texts take.
const JOBS: u32 = 2;

const CELLS: usize = 5;

/// The client says by a place what is to be done; the worker reads it there. When the client has cleared the place, the worker
/// buries the text, and has it back.
pub fn tell<R: Print + Wait>(rt: &R, alloc: Global) -> io::Result<()> {
    let texts = Texts::layout(Loc(0), 1, JOBS);
    let pool = pool(alloc)?;
    let (store, mut client, mut worker) = share(alloc)?;
    run(rt, &store, &mut client, texts, TextAct::Name(0, 2));
    let read = read_text(
        rt,
        &store,
        &mut worker,
        &pool,
        &texts,
        0,
        |text| text.bytes().len(),
    );
    if let TextRead::Read { number, result, .. } = read {
        println!(rt; "job {number} says so in {result} bytes")?;
    }
    let early = bury_text(rt, &store, &mut worker, &pool, &texts, 2);
    println!(rt; "buried while a place names it: {}", is_gone(&early))?;
    run(rt, &store, &mut client, texts, TextAct::Clear(0));
    if let Buried::Gone { text, .. } = bury_text(rt, &store, &mut worker, &pool, &texts, 2) {
        println!(rt; "done: {}", str::from_utf8(text.bytes()).unwrap_or("?"))?;
    }
    Ok(())
}

fn is_gone(buried: &Buried) -> bool {
    matches!(buried, Buried::Gone { .. })
}

// The texts of all jobs, numbered from 1.
fn pool(alloc: Global) -> io::Result<TextPool>
    ensures { IfOk result (λ pool. length pool ≡ JOBS) }
{
    let mut texts = Vec::with_capacity(alloc, JOBS as usize)?;
    texts.push_reserved(text(b"paint the fence"));
    texts.push_reserved(text(b"mow the lawn"));
    TextPool::open(alloc, texts).map_err(|_| io::ErrorKind::OutOfMemory.into())
}

fn text(bytes: &[u8]) -> Text
    requires { length bytes.now ≤ 64 }
{
    match Text::new(bytes) {
        Some(text) => text,
        None => unreachable!("it is short"),
    }
}

// A store of zeros for the texts' cells, and its two callers.
fn share(alloc: Global) -> io::Result<(Store, Caller, Caller)>
    ensures cells { IfOk result (λ t. CELLS ≤ t.0.locations) }
    ensures client { IfOk result (λ t. t.1.of ≡ t.0) }
    ensures worker { IfOk result (λ t. t.2.of ≡ t.0) }
{
    let Ok((store, mut callers)) = Store::open(alloc, &[0; CELLS], 2) else {
        return Err(io::ErrorKind::OutOfMemory.into());
    };
    let (Some(worker), Some(client)) = (callers.pop(), callers.pop()) else {
        unreachable!("a store has as many callers as it was opened for");
    };
    Ok((store, client, worker))
}

// What an operation on the texts replies.
fn run<R: Wait>(
    rt: &R,
    store: &Store,
    caller: &mut Caller,
    texts: Texts,
    act: TextAct,
) -> Option<Reply>
    requires caller { caller.old.of ≡ store.now }
    requires fit { IsFitAct texts act }
    requires within { texts_cells_end texts ≤ store.now.locations }
    ensures { caller.new.of ≡ store.now }
{
    match store.commit(rt, caller, &TextOp { texts, act }) {
        Outcome::Done {
            reply,
            footprint: _,
        } => Some(reply),
        _ => None,
    }
}
