//! Two alternatives, where they lie.

ghost use Rattle.std.specs.Prelude.{◌≡◌, ◌≤◌, max, length};
ghost use Rattle.kc_xt.specs.Law.{Obeys};
ghost use Rattle.kc_xt.specs.Meaning.{first_meaning};
ghost use Rattle.kc_model.specs.declared.footprint.TheConstants.{MOST};
ghost use Rattle.kc_xt.specs.declared.xt.TheConstants.{FEW};

use crate::run::is_retry;
use kc_model::{MOST, Reply};
use kc_xt::{FEW, Peek, Stop, Transact, Xt};

/// The first; where it would wait, the second in its place. It takes no memory, and either may be an `Either` again.
#[derive(Drop)]
pub struct Either<A, B> {
    pub first: A,
    pub second: B,
}

/// Two alternatives are fit where each is. They may touch `MOST` locations together, whatever their own limits are.
impl<A: Transact, B: Transact> Transact for Either<A, B> {
    ghost meaning = { λ e. first_meaning (A.meaning e.first) (B.meaning e.second) };

    ghost is_fit = { λ e. A.is_fit e.first × B.is_fit e.second };

    ghost end = { λ e. max (A.end e.first) (B.end e.second) };

    fn bound(&self) -> u32 {
        self.first.bound().max(self.second.bound())
    }

    fn limit(&self) -> u32 {
        MOST as u32
    }

    fn run<P: Peek>(&self, xt: &mut Xt<P>) -> Result<Reply, Stop> {
        if xt.count() <= FEW {
            run_behind_few(&self.first, &self.second, xt)
        } else {
            run_behind_many(&self.first, &self.second, xt)
        }
    }
}

// Behind few lines.
fn run_behind_few<A: Transact, B: Transact, P: Peek>(
    first: &A,
    second: &B,
    xt: &mut Xt<P>,
) -> Result<Reply, Stop>
    requires fit { A.is_fit first.now × B.is_fit second.now }
    requires within { max (A.end first.now) (B.end second.now) ≤ P.locations xt.old.peek }
    requires room { length xt.old.lines ≤ FEW }
    ensures law { Obeys P.peek_gives (first_meaning (A.meaning first.now) (B.meaning second.now)) (max (A.end first.now) (B.end second.now)) xt.old result xt.new }
    ensures size { P.locations xt.new.peek ≡ P.locations xt.old.peek }
{
    let before = xt.snapshot::<{ FEW }>();
    let tried = first.run(xt);
    if !is_retry(&tried) {
        return tried;
    }
    xt.rollback(&before);
    second.run(xt)
}

// Behind however many: a function of its own, since the room of such a snapshot is cleared where it begins.
fn run_behind_many<A: Transact, B: Transact, P: Peek>(
    first: &A,
    second: &B,
    xt: &mut Xt<P>,
) -> Result<Reply, Stop>
    requires fit { A.is_fit first.now × B.is_fit second.now }
    requires within { max (A.end first.now) (B.end second.now) ≤ P.locations xt.old.peek }
    requires room { length xt.old.lines ≤ MOST }
    ensures law { Obeys P.peek_gives (first_meaning (A.meaning first.now) (B.meaning second.now)) (max (A.end first.now) (B.end second.now)) xt.old result xt.new }
    ensures size { P.locations xt.new.peek ≡ P.locations xt.old.peek }
{
    let start = xt.snapshot::<{ MOST }>();
    let tried = first.run(xt);
    if !is_retry(&tried) {
        return tried;
    }
    xt.rollback(&start);
    second.run(xt)
}
