//! Threads that share a holder whose value they couldn't share.

ghost use Rattle.std.specs.Prelude.{◌≡◌, ◌≤◌, ◌<◌};

use counted_slot::Fits;
use kc_holder::Holder;
use std::cell::Cell;
use std::sync::Wait;
use std::test::Fail;
use std::thread;
use std::thread::Threads;

const EACH: u32 = 5_000;

const MOST: u32 = 20_000;

// A count, and what may cross threads but not be shared by them.
#[derive(Drop)]
struct Count {
    made: u32,
    alone: Cell<u32>,
}

impl Fits for Count {
    type Tag = u32;

    ghost fits = { λ most c. c.made ≤ most };
}

// Adds one so often, each time to what it finds, and no more than the holder's tag.
fn add<R: Wait>(rt: &R, count: &Holder<Count>)
    requires { count.now.tag ≡ MOST }
{
    for _ in 0..EACH {
        let (mut held, taken) = count.take(rt);
        if held.made < MOST {
            held.made += 1;
        }
        held.alone.set(held.made);
        count.give(taken, held);
    }
}

fn add_by_two<R: Threads + Wait + Sync>(rt: &R, count: &Holder<Count>)
    requires { count.now.tag ≡ MOST }
{
    thread::join(rt, || add(rt, count), || add(rt, count));
}

fn is_free(count: &Holder<Count>) -> bool {
    match count.try_take() {
        Some((held, taken)) => {
            count.give(taken, held);
            true
        }
        None => false,
    }
}

// One has it while the others wait, and nothing is lost.
#[test]
fn four_threads_take_a_value_in_turn(rt: HostRuntime) -> Result<(), Fail> {
    let count = Count {
        made: 0,
        alone: Cell::new(0),
    };
    let holder = Holder::new(rt.alloc(), count, &MOST)?;
    let (rt, shared) = (&rt, &holder);
    thread::join(rt, || add_by_two(rt, shared), || add_by_two(rt, shared));
    let (held, taken) = holder.take(rt);
    let came = (held.made, held.alone.get());
    let again = is_free(&holder);
    holder.give(taken, held);
    assert_eq!(rt;
        (came, again, is_free(&holder)),
        ((20_000, 20_000), false, true)
    );
    Ok(())
}
