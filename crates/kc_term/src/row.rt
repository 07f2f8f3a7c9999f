//! A transaction that runs operations one after another, where they lie.

ghost use Rattle.std.specs.Prelude.{◌≡◌, ◌≤◌, []};
ghost use Rattle.kc_xt.specs.Law.{Obeys};
ghost use Rattle.kc_term.specs.Fit.{AreFit};
ghost use Rattle.kc_term.specs.Meaning.{greatest_end, parts_meaning};
ghost use Rattle.kc_term.specs.Row.{row_of};
ghost use Rattle.kc_term.specs.Tree.{trees};

use crate::items::add;
use kc_model::{Items, MOST, Reply};
use kc_xt::{Peek, Stop, Transact, Xt};

/// Operations, one after another, up to one that stops. It replies what each of them replied, and takes no memory:
/// what a `Term::seq` of the same operations does, without the term.
#[derive(Drop)]
pub struct Row<'a, O> {
    pub ops: &'a [O],
}

/// A row is fit where it has at most 16 operations, each is fit, and each replies one item. It may touch `MOST`
/// locations, whatever the limits of its operations are.
impl<'a, O: Transact> Transact for Row<'a, O> {
    ghost meaning = { λ r. parts_meaning O.meaning (trees (row_of r.ops.now)) [] };

    ghost is_fit = { λ r. AreFit O.is_fit O.meaning r.ops.now };

    ghost end = { λ r. greatest_end O.end r.ops.now };

    fn bound(&self) -> u32 {
        row_bound(self.ops)
    }

    fn limit(&self) -> u32 {
        MOST as u32
    }

    fn run<P: Peek>(&self, xt: &mut Xt<P>) -> Result<Reply, Stop> {
        run_row(self.ops, xt)
    }
}

// The greatest bound of the operations.
fn row_bound<O: Transact>(ops: &[O]) -> u32
    ensures { result ≡ greatest_end O.end ops.now }
{
    let mut most = 0;
    for operation in ops {
        most = operation.bound().max(most);
    }
    most
}

fn run_row<O: Transact, P: Peek>(ops: &[O], xt: &mut Xt<P>) -> Result<Reply, Stop>
    requires fit { AreFit O.is_fit O.meaning ops.now }
    requires within { greatest_end O.end ops.now ≤ P.locations xt.old.peek }
    ensures law { Obeys P.peek_gives (parts_meaning O.meaning (trees (row_of ops.now)) []) (greatest_end O.end ops.now) xt.old result xt.new }
    ensures size { P.locations xt.new.peek ≡ P.locations xt.old.peek }
{
    let mut items = Items::new();
    for operation in ops {
        let reply = operation.run(xt)?;
        add(&mut items, reply);
    }
    Ok(Reply::Many(items))
}
