//! What C reads beside transactions.

ghost use Rattle.std.specs.Prelude.{◌≡◌, ◌≤◌, ◌<◌, ◌++◌, false, true, drop, length, map, min, take};
ghost use Rattle.kc_c.specs.Reads.{IsReadByCaller, read_told};
ghost use Rattle.kc_c.specs.Standings.{rests};

use crate::answers::{BAD_OPS, BUSY, DONE, NOT_NOW};
use crate::client::Client;
use crate::standing::Standing;
use kc_model::{Loc, Seen};

/// A location, and what stood there.
#[repr(C)]
#[derive(Clone, Copy)]
pub struct KcasSeen {
    pub location: u32,
    pub version: u32,
    pub value: u32,
}

impl Client {
    /// What stands at a location, with its version, read without a transaction.
    pub(crate) fn read(&mut self, location: u32, value: &mut u32, version: &mut u32) -> u32
        ensures not_now { rests self.old.standing ≡ false → (result ≡ NOT_NOW) × (self.new ≡ self.old) × (value.new ≡ value.old) × (version.new ≡ version.old) }
        ensures outside { rests self.old.standing ≡ true → self.old.locations ≤ location → (result ≡ BAD_OPS) × (self.new ≡ self.old) × (value.new ≡ value.old) × (version.new ≡ version.old) }
        ensures read { rests self.old.standing ≡ true → location < self.old.locations → IsReadByCaller location self.old result self.new value.old version.old value.new version.new }
    {
        let Client {
            store,
            standing,
            locations,
            ..
        } = self;
        let Standing::Rests(caller) = standing else {
            return NOT_NOW;
        };
        if location >= *locations {
            return BAD_OPS;
        }
        let Ok(seen) = store.read(caller, Loc(location)) else {
            return BUSY;
        };
        *value = seen.value;
        *version = seen.version;
        DONE
    }
}

/// Writes the first of these reads, as many as there is room for, and answers how many.
pub(crate) fn copy_reads(reads: &[Seen], to: &mut [KcasSeen]) -> usize
    ensures count { result ≡ min (length reads.now) (length to.old) }
    ensures written { to.new ≡ map read_told (take result reads.now) ++ drop result to.old }
{
    let count = reads.len().min(to.len());
    for at in 0..count {
        let seen = reads[at];
        to[at] = KcasSeen {
            location: seen.loc.0,
            version: seen.version,
            value: seen.value,
        };
    }
    count
}
