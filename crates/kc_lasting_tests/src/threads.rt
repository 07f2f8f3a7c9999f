//! Threads that commit and wait while their store is renewed.

use crate::acts::{Wear, add, opened, put, read, swap, wait_for};
use crate::asserts::{equal, holds};
use kc_lasting::LastingCaller;
use kc_model::LAST_VERSION;
use kc_store::LAST_GENERATION;
use std::alloc::Global;
use std::process::Abort;
use std::sync::Wait;
use std::thread::{Threads, join};

const ADDS: u32 = 2_500;

const VALUES: [u32; 4] = [0, 0, 5, 9];

// What a thread did.
#[derive(Clone, Copy, Debug, Drop, PartialEq, Eq)]
struct Did {
    adds: u32,
    // Of what stood before each add.
    sum: u64,
    others: u32,
    eras: u64,
}

// Adds one so often. After each seventh it swaps two locations, after each hundredth it waits for its turn and hands it on.
fn work<R: Wait>(rt: &R, mut caller: LastingCaller, mine: u32) -> Did {
    let mut did = Did {
        adds: 0,
        sum: 0,
        others: 0,
        eras: 0,
    };
    for i in 0..ADDS {
        if let Some(before) = add(rt, &mut caller, 0) {
            did.sum = did.sum.wrapping_add(before as u64);
            did.adds = did.adds.wrapping_add(1);
        }
        if i % 7 == 0 && swap(rt, &mut caller) {
            did.others = did.others.wrapping_add(1);
        }
        if i % 100 == 0 && take_turn(rt, &mut caller, mine) {
            did.others = did.others.wrapping_add(1);
        }
    }
    did.eras = caller.era();
    did
}

fn take_turn<R: Wait>(rt: &R, caller: &mut LastingCaller, mine: u32) -> bool {
    wait_for(rt, caller, 1, mine) && put(rt, caller, 1, mine.wrapping_add(1) % 4)
}

// Four threads work; a fifth handle is idle meanwhile, and reads at the end what stands.
fn by_four<R: Threads + Wait + Abort + AllocGlobal + Sync>(rt: &R, wear: Wear) -> u64 {
    let mut callers = opened(rt, &VALUES, 5, wear);
    let (Some(mut idle), Some(d), Some(c), Some(b), Some(a)) = (
        callers.pop(),
        callers.pop(),
        callers.pop(),
        callers.pop(),
        callers.pop(),
    ) else {
        return None.expect(rt, "not five");
    };
    let ((a, b), (c, d)) = join(
        rt,
        move || join(rt, move || work(rt, a, 0), move || work(rt, b, 1)),
        move || join(rt, move || work(rt, c, 2), move || work(rt, d, 3)),
    );
    all_came(rt, [a, b, c, d]);
    all_stands(rt, &mut idle);
    idle.era()
}

// Nothing was lost, and nothing was done twice.
fn all_came(rt: &impl Abort, did: [Did; 4]) {
    let mut adds: u32 = 0;
    let mut sum: u64 = 0;
    let mut others: u32 = 0;
    for one in did {
        adds = adds.wrapping_add(one.adds);
        sum = sum.wrapping_add(one.sum);
        others = others.wrapping_add(one.others);
    }
    // 0 + 1 + .. + 9,999; of each thread 358 swaps and 25 turns
    equal(rt, (adds, sum, others), (10_000, 49_995_000, 1_532));
}

fn all_stands<R: Wait + Abort>(rt: &R, idle: &mut LastingCaller) {
    equal(rt, read(rt, idle, 0), Some(10_000));
    equal(rt, read(rt, idle, 1), Some(0));
    // An even number of swaps.
    equal(rt, read(rt, idle, 2), Some(5));
    equal(rt, read(rt, idle, 3), Some(9));
}

#[test]
fn four_threads_outlast_the_versions_of_a_location(rt: HostRuntime) {
    let wear = Wear {
        version: LAST_VERSION - 10,
        generation: 0,
        first: 10_000,
        share: 10_000,
    };
    holds(&rt, by_four(&rt, wear) >= 1);
}

#[test]
fn four_threads_outlast_the_lives_of_descriptors(rt: HostRuntime) {
    let wear = Wear {
        version: 0,
        generation: LAST_GENERATION - 2,
        first: 1_000_000_000,
        share: 1_000_000_000,
    };
    holds(&rt, by_four(&rt, wear) >= 1);
}

#[test]
fn four_threads_lose_nothing_where_eras_are_short(rt: HostRuntime) {
    let wear = Wear {
        version: LAST_VERSION - 100,
        generation: 0,
        first: 40,
        share: 100,
    };
    holds(&rt, by_four(&rt, wear) >= 25);
}
