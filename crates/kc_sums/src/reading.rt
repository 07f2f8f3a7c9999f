//! A view of all accounts.

ghost use Rattle.std.specs.Prelude.{◌≡◌, ◌≤◌, IfOk, Some};
ghost use Rattle.kc_keep.specs.Only.{Serves};
ghost use Rattle.kc_model.specs.declared.reply.Reply.TheVariants as reply;
ghost use Rattle.kc_sums.specs.Sums.{IsBank, IsOfBank};
ghost use Rattle.kc_sums.specs.Views.{SawTotal};

use crate::bank::Bank;
use kc_cells::{AccAct, AccOp, Accumulator};
use kc_keep::view_kept;
use kc_model::{Loc, Reply};
use kc_store::{Caller, Store};
use std::io;
use std::sync::Wait;

/// What all accounts have together, as one view of them saw it, or the commit as which it ended.
///
/// # Errors
///
/// - Other: there was no reply, as where the view ended as a commit and no descriptor has a life left
pub fn read_all<R: Wait>(rt: &R, store: &Store, caller: &mut Caller, bank: &Bank) -> io::Result<u32>
    requires caller { caller.old.of ≡ store.now }
    requires bank { IsBank bank.now }
    requires size { bank.now.accounts ≤ store.now.locations }
    ensures serves { Serves (IsOfBank bank.now) caller.old caller.new }
    ensures saw { IfOk result (λ sum. SawTotal bank.now sum caller.old caller.new) }
{
    let accounts = Accumulator::layout(Loc(0), bank.accounts);
    let total = AccOp {
        acc: accounts,
        act: AccAct::Total,
    };
    number_of(view_kept(rt, store, caller, bank, &total))
}

// The number that was replied.
fn number_of(said: Option<Reply>) -> io::Result<u32>
    ensures { IfOk result (λ n. said ≡ Some (reply.Value n)) }
{
    match said {
        Some(Reply::Value(number)) => Ok(number),
        _ => Err(io::ErrorKind::Other.into()),
    }
}
