//! An operation that tells how often it was run, and takes its time.

ghost use Rattle.std.specs.Prelude.{◌≡◌};
ghost use Rattle.kc_loc.specs.Meaning.{LocIsFit, loc_end, loc_meaning};

use kc_loc::LocOp;
use kc_model::{MOST, Reply};
use kc_xt::{Peek, Stop, Transact, Xt, rest};
use std::sync::atomic::{AtomicU32, Ordering};

/// The operation, which pauses so often before it runs.
#[derive(Drop)]
pub struct Watched {
    operation: LocOp,
    pauses: u32,
    runs: AtomicU32,
}

impl Watched {
    pub fn new(operation: LocOp, pauses: u32) -> Watched
        ensures { result.operation ≡ operation }
    {
        Watched {
            operation,
            pauses,
            runs: AtomicU32::new(0),
        }
    }

    /// How often it was run.
    pub fn runs(&self) -> u32 {
        self.runs.load(Ordering::SeqCst)
    }
}

impl Transact for Watched {
    ghost meaning = { λ w. loc_meaning w.operation };

    ghost is_fit = { λ w. LocIsFit w.operation };

    ghost end = { λ w. loc_end w.operation };

    fn bound(&self) -> u32 {
        self.operation.bound()
    }

    fn limit(&self) -> u32 {
        MOST as u32
    }

    fn run<P: Peek>(&self, xt: &mut Xt<P>) -> Result<Reply, Stop> {
        self.runs.fetch_add(1, Ordering::SeqCst);
        rest(self.pauses);
        self.operation.run(xt)
    }
}
