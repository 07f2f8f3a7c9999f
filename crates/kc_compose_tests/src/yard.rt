//! Where the tests' structures lie: a layout gives the locations.

ghost use Rattle.std.specs.Prelude.{◌≡◌, ◌≤◌, ◌<◌, ◌+◌, ⊤, IfOk, length};
ghost use Rattle.kc_cells.specs.Promise.{promise_cells_end};
ghost use Rattle.kc_hash.specs.Meaning.{hash_cells_end};
ghost use Rattle.kc_queue.specs.Meaning.{queue_cells_end};
ghost use Rattle.kc_stack.specs.Meaning.{stack_cells_end};

use kc_cells::Promise;
use kc_hash::Hash;
use kc_lay::Layout;
use kc_model::{Loc, PlainStore};
use kc_queue::Queue;
use kc_stack::Stack;
use std::alloc::{AllocError, Global};
use std::test::Fail;

/// The jobs that wait in line and those that may run, what the table says of each, the end of one, the results, free
/// seats, and a sum.
#[derive(Clone, Copy)]
pub(crate) struct Yard {
    pub(crate) line: Queue,
    pub(crate) ready: Queue,
    pub(crate) states: Hash,
    pub(crate) end: Promise,
    pub(crate) results: Hash,
    pub(crate) seats: Stack,
    pub(crate) sum: Loc,
}

/// A yard, and the layout in which it lies: no two of its parts share a location.
fn lay(alloc: Global) -> Result<(Yard, Layout), AllocError>
    ensures line { IfOk result (λ t. queue_cells_end t.0.line ≤ t.0.ready.base.0) }
    ensures ready { IfOk result (λ t. queue_cells_end t.0.ready ≤ t.0.states.base.0) }
    ensures states { IfOk result (λ t. hash_cells_end t.0.states ≤ t.0.end.base.0) }
    ensures end { IfOk result (λ t. promise_cells_end t.0.end ≤ t.0.results.base.0) }
    ensures results { IfOk result (λ t. hash_cells_end t.0.results ≤ t.0.seats.base.0) }
    ensures seats { IfOk result (λ t. stack_cells_end t.0.seats ≤ t.0.sum.0) }
    ensures sum { IfOk result (λ t. t.0.sum.0 < length t.1) }
    ensures most { IfOk result (λ t. length t.1 ≤ 100) }
{
    let mut layout = Layout::new(alloc);
    let line = layout.queue(2)?;
    let ready = layout.queue(1)?;
    let states = layout.hash(1, 2)?;
    let end = layout.promise()?;
    let results = layout.hash(2, 1)?;
    let seats = layout.stack(1)?;
    let sum = layout.loc(5)?;
    let yard = Yard {
        line,
        ready,
        states,
        end,
        results,
        seats,
        sum,
    };
    Ok((yard, layout))
}

/// A yard, and a store that opens with it.
pub(crate) fn open(alloc: Global) -> Result<(Yard, PlainStore), Fail>
    ensures line { IfOk result (λ t. queue_cells_end t.0.line ≤ length t.1) }
    ensures ready { IfOk result (λ t. queue_cells_end t.0.ready ≤ length t.1) }
    ensures states { IfOk result (λ t. hash_cells_end t.0.states ≤ length t.1) }
    ensures end { IfOk result (λ t. promise_cells_end t.0.end ≤ length t.1) }
    ensures results { IfOk result (λ t. hash_cells_end t.0.results ≤ length t.1) }
    ensures seats { IfOk result (λ t. stack_cells_end t.0.seats ≤ length t.1) }
    ensures sum { IfOk result (λ t. t.0.sum.0 < length t.1) }
    ensures most { IfOk result (λ t. t.0.sum.0 < 100) }
{
    let (yard, layout) = lay(alloc)?;
    match PlainStore::open(alloc, layout.values()) {
        Ok(store) => Ok((yard, store)),
        Err(_) => Err(Fail::from("no memory")),
    }
}
