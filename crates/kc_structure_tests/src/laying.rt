//! Structures of every kind, laid by a layout.

ghost use Rattle.std.specs.Prelude.{◌≡◌, ◌≤◌, ◌<◌, ◌+◌, [], None, IfOk, length};
ghost use Rattle.kc_cache.specs.Content.{CacheStandsFor};
ghost use Rattle.kc_cells.specs.Accumulator.{AccStandsFor, acc_cells_end};
ghost use Rattle.kc_cells.specs.Mvar.{MvarStandsFor};
ghost use Rattle.kc_cells.specs.Promise.{PromiseStandsFor, promise_cells_end};
ghost use Rattle.kc_dllist.specs.Content.{ListStandsFor, list_opening_content};
ghost use Rattle.kc_grow.specs.Content.{GrowStands};
ghost use Rattle.kc_hash.specs.Content.{HashStandsFor};
ghost use Rattle.kc_lay.specs.Placed.{HoldsAtOpening, StaysLaid};
ghost use Rattle.kc_queue.specs.Meaning.{QueueStandsFor, queue_cells_end};
ghost use Rattle.kc_stack.specs.Content.{StackStandsFor};
ghost use Rattle.kc_stack.specs.Meaning.{stack_cells_end};

use crate::asserts::{holds, is, tells};
use kc_cache::Cache;
use kc_cells::{Accumulator, Mvar, Promise};
use kc_dllist::Dllist;
use kc_grow::Grow;
use kc_hash::Hash;
use kc_lay::Layout;
use kc_model::{Loc, MOST, PlainStore, Reply};
use kc_queue::{Queue, QueueAct, QueueOp};
use kc_stack::Stack;
use kc_xt::{PlainPeek, Room, Xt};
use std::alloc::{AllocError, Global};
use std::test::Fail;

// What is small.
#[derive(Clone, Copy)]
struct Flags {
    closed: Loc,
    turn: Mvar,
    end: Promise,
    total: Accumulator,
    seats: Stack,
}

// What has rooms for many.
#[derive(Clone, Copy)]
struct Tables {
    jobs: Queue,
    order: Dllist,
    states: Hash,
    names: Grow,
    results: Cache,
}

#[tactic(auto, using(kc_lay::proofs::Later::still_opens))]
fn lay_flags(layout: &mut Layout) -> Result<Flags, AllocError>
    requires { length layout.old ≤ 1000 }
    ensures room { IfOk result (λ _. length layout.new ≤ 1012) }
    ensures stays { StaysLaid layout.old layout.new }
    ensures closed { IfOk result (λ x. HoldsAtOpening (λ m. m x.closed.0 ≡ 1) layout.new) }
    ensures turn { IfOk result (λ x. HoldsAtOpening (λ m. MvarStandsFor x.turn m None) layout.new) }
    ensures end { IfOk result (λ x. HoldsAtOpening (λ m. PromiseStandsFor x.end m None) layout.new) }
    ensures total { IfOk result (λ x. HoldsAtOpening (λ m. AccStandsFor x.total m 0) layout.new) }
    ensures seats { IfOk result (λ x. HoldsAtOpening (λ m. StackStandsFor x.seats m []) layout.new) }
    ensures within { IfOk result (λ x. stack_cells_end x.seats ≤ length layout.new) }
{
    let closed = layout.loc(1)?;
    let turn = layout.mvar()?;
    let end = layout.promise()?;
    let total = layout.accumulator(2)?;
    let seats = layout.stack(4)?;
    Ok(Flags {
        closed,
        turn,
        end,
        total,
        seats,
    })
}

#[tactic(auto, using(kc_lay::proofs::Later::still_opens))]
fn lay_tables(layout: &mut Layout) -> Result<Tables, AllocError>
    requires { length layout.old ≤ 2000 }
    ensures stays { StaysLaid layout.old layout.new }
    ensures jobs { IfOk result (λ x. HoldsAtOpening (λ m. QueueStandsFor x.jobs m []) layout.new) }
    ensures order { IfOk result (λ x. HoldsAtOpening (λ m. ListStandsFor x.order m (list_opening_content x.order)) layout.new) }
    ensures states { IfOk result (λ x. HoldsAtOpening (λ m. HashStandsFor x.states m []) layout.new) }
    ensures names { IfOk result (λ x. HoldsAtOpening (λ m. GrowStands x.names m []) layout.new) }
    ensures results { IfOk result (λ x. HoldsAtOpening (λ m. CacheStandsFor x.results m []) layout.new) }
    ensures within { IfOk result (λ x. queue_cells_end x.jobs ≤ length layout.new) }
{
    let jobs = layout.queue(8)?;
    let order = layout.dllist(3)?;
    let states = layout.hash(2, 4)?;
    let names = layout.grow(4)?;
    let results = layout.cache(4, 16)?;
    Ok(Tables {
        jobs,
        order,
        states,
        names,
        results,
    })
}

// One of each, and the layout: what opened before the tables were laid still opens.
#[tactic(auto, using(kc_lay::proofs::Later::still_opens))]
fn lay(alloc: Global) -> Result<(Flags, Tables, Layout), AllocError>
    ensures closed { IfOk result (λ t. HoldsAtOpening (λ m. m t.0.closed.0 ≡ 1) t.2) }
    ensures seats { IfOk result (λ t. HoldsAtOpening (λ m. StackStandsFor t.0.seats m []) t.2) }
    ensures jobs { IfOk result (λ t. HoldsAtOpening (λ m. QueueStandsFor t.1.jobs m []) t.2) }
    ensures first { IfOk result (λ t. stack_cells_end t.0.seats ≤ length t.2) }
    ensures second { IfOk result (λ t. queue_cells_end t.1.jobs ≤ length t.2) }
{
    let mut layout = Layout::new(alloc);
    let flags = lay_flags(&mut layout)?;
    let tables = lay_tables(&mut layout)?;
    Ok((flags, tables, layout))
}

fn open(alloc: Global, layout: &Layout) -> Result<PlainStore, Fail>
    ensures { IfOk result (λ store. length store ≡ length layout.now) }
{
    match layout.open(alloc) {
        Ok(store) => Ok(store),
        Err(_) => Err(Fail::from("no memory")),
    }
}

#[test]
fn each_lies_behind_the_one_before_and_opens_empty(rt: HostRuntime) -> Result<(), Fail> {
    let (flags, tables, layout) = lay(rt.alloc())?;
    let store = open(rt.alloc(), &layout)?;
    is(&rt, flags.closed.0, 0);
    holds(&rt, store.get(flags.closed), Some(1));
    is(&rt, flags.turn.base().0, 1);
    is(&rt, flags.end.base().0, 3);
    is(&rt, flags.total.base().0, 5);
    is(&rt, flags.seats.base().0, 7);
    is(&rt, flags.seats.count(&store), 0);
    is(&rt, tables.jobs.base().0, 12);
    is(&rt, tables.jobs.count(&store), 0);
    is(&rt, tables.order.base().0, 22);
    is(&rt, tables.states.base().0, 34);
    is(&rt, tables.names.base().0, 50);
    is(&rt, tables.results.base().0, 69);
    is(&rt, store.len(), 191);
    Ok(())
}

fn on(queue: Queue, act: QueueAct) -> QueueOp
    ensures { result.queue ≡ queue }
{
    QueueOp { queue, act }
}

#[test]
fn what_is_done_to_one_of_an_array_leaves_the_others(rt: HostRuntime) -> Result<(), Fail> {
    let mut layout = Layout::new(rt.alloc());
    let queues = layout.array(3, &Queue::layout(Loc(0), 2))?;
    let store = open(rt.alloc(), &layout)?;
    let (first, second) = (queues.at(0), queues.at(1));
    is(&rt, second.base().0, 4);
    is(&rt, store.len(), 12);
    let mut room = Room::new();
    let mut xt = Xt::new(PlainPeek::new(&store), &mut room, MOST as u32);
    tells(&rt, &mut xt, &on(second, QueueAct::Enq(7)), Ok(Reply::Unit));
    tells(&rt, &mut xt, &on(first, QueueAct::Len), Ok(Reply::Value(0)));
    tells(
        &rt,
        &mut xt,
        &on(second, QueueAct::Deq),
        Ok(Reply::Value(7)),
    );
    Ok(())
}
