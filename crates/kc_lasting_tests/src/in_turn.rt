//! Handles that commit in turn while their store is renewed.

use crate::acts::{Wear, add, opened, read, swap};
use crate::asserts::{equal, holds};
use kc_lasting::LastingCaller;
use kc_model::LAST_VERSION;
use kc_store::LAST_GENERATION;
use std::alloc::Global;
use std::process::Abort;
use std::sync::Wait;

const ADDS: u32 = 2_000;

const VALUES: [u32; 4] = [0, 0, 5, 9];

// Adds one, and after each seventh add swaps two locations: how many adds found what the ones before had left.
fn add_in_turn<R: Wait>(rt: &R, callers: &mut Vec<LastingCaller>) -> u32 {
    let mut found: u32 = 0;
    for i in 0..ADDS {
        if let Some(caller) = callers.get_mut((i % 4) as usize) {
            if add(rt, caller, 0) == Some(i) {
                found = found.wrapping_add(1);
            }
            if i % 7 == 0 {
                swap(rt, caller);
            }
        }
    }
    found
}

// Four handles do so; a fifth one is idle meanwhile, and then reads what stands.
fn by_four<R: Wait + Abort + AllocGlobal>(rt: &R, wear: Wear) -> u64 {
    let mut callers = opened(rt, &VALUES, 5, wear);
    let Some(mut idle) = callers.pop() else {
        return None.expect(rt, "none");
    };
    equal(rt, add_in_turn(rt, &mut callers), ADDS);
    equal(rt, read(rt, &mut idle, 0), Some(ADDS));
    // 286 swaps.
    equal(rt, read(rt, &mut idle, 2), Some(5));
    equal(rt, read(rt, &mut idle, 3), Some(9));
    idle.era()
}

#[test]
fn locations_near_their_last_version_do_not_wear_out(rt: HostRuntime) {
    let wear = Wear {
        version: LAST_VERSION - 10,
        generation: 0,
        first: 10_000,
        share: 10_000,
    };
    holds(&rt, by_four(&rt, wear) >= 1);
}

#[test]
fn descriptors_near_their_last_life_do_not_wear_out(rt: HostRuntime) {
    let wear = Wear {
        version: 0,
        generation: LAST_GENERATION - 2,
        first: 1_000_000_000,
        share: 1_000_000_000,
    };
    holds(&rt, by_four(&rt, wear) >= 1);
}

#[test]
fn nothing_is_lost_where_eras_are_short(rt: HostRuntime) {
    let wear = Wear {
        version: LAST_VERSION - 100,
        generation: 0,
        first: 3,
        share: 7,
    };
    holds(&rt, by_four(&rt, wear) >= 60);
}
