//! What the bank is, and what holds of it.

ghost use Rattle.std.specs.Prelude.{◌≡◌, IfOk, replicate};
ghost use Rattle.kc_store.specs.Knows.{OpensWith};
ghost use Rattle.kc_store.specs.Views.{opened_caller};
ghost use Rattle.kc_sums.specs.Sums.{HasTotal, IsOfBank};

use kc_keep::Invariant;
use kc_store::{Caller, Store};
use std::alloc::Global;
use std::io;

/// So many accounts, from location 0 on, each of which opens with so much.
#[derive(Clone, Copy)]
pub struct Bank {
    pub accounts: u32,
    pub each: u32,
}

/// All accounts together have what they opened with, whatever is transferred or viewed.
impl Invariant for Bank {
    ghost holds = { HasTotal };

    ghost is_one = { IsOfBank };

    fn is_kept(&self) {}
}

impl Bank {
    /// Its store, and two callers.
    pub fn open(&self, alloc: Global) -> io::Result<(Store, Caller, Caller)>
        ensures first { IfOk result (λ t. t.1 ≡ opened_caller t.0 0) }
        ensures second { IfOk result (λ t. t.2 ≡ opened_caller t.0 1) }
        ensures callers { IfOk result (λ t. t.0.callers ≡ 2) }
        ensures opens { IfOk result (λ t. OpensWith (replicate self.now.accounts self.now.each) (replicate self.now.accounts 0) 2 t.0) }
    {
        let values = self.values(alloc)?;
        let Ok((store, mut callers)) = Store::open(alloc, &values, 2) else {
            return Err(io::ErrorKind::OutOfMemory.into());
        };
        let (Some(second), Some(first)) = (callers.pop(), callers.pop()) else {
            unreachable!("a store has as many callers as it was opened for");
        };
        Ok((store, first, second))
    }

    // What all its locations open with.
    fn values(&self, alloc: Global) -> io::Result<Vec<u32>>
        ensures { IfOk result (λ values. values.items ≡ replicate self.now.accounts self.now.each) }
    {
        let mut values = Vec::new(alloc);
        for i in 0..self.accounts {
            let _ = i;
            values.push(self.each)?;
        }
        Ok(values)
    }
}
