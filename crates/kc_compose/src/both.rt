//! One behind another.

ghost use Rattle.std.specs.Prelude.{max};
ghost use Rattle.kc_compose.specs.Meaning.{both_meaning};

use kc_model::{MOST, Reply};
use kc_xt::{Peek, Stop, Transact, Xt};

/// The first, and then the second, in one step.
///
/// It replies what the second does, whatever the first replied: a refusal of the first is forgotten, and what the first
/// put stays. Where a refusal shall end it, use `Unless` with `Sort::Refusal`. It waits where either waits.
#[derive(Clone, Copy, Drop)]
pub struct Both<A, B> {
    pub first: A,
    pub second: B,
}

impl<A: Transact, B: Transact> Transact for Both<A, B> {
    ghost meaning = { λ b. both_meaning (A.meaning b.first) (B.meaning b.second) };

    ghost is_fit = { λ b. A.is_fit b.first × B.is_fit b.second };

    ghost end = { λ b. max (A.end b.first) (B.end b.second) };

    fn bound(&self) -> u32 {
        self.first.bound().max(self.second.bound())
    }

    fn limit(&self) -> u32 {
        MOST as u32
    }

    #[inline(always)]
    fn run<P: Peek>(&self, xt: &mut Xt<P>) -> Result<Reply, Stop> {
        let told = self.first.run(xt)?;
        let _ = told;
        self.second.run(xt)
    }
}
