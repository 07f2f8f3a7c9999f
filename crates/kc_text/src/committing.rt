//! Committing an operation on texts.

ghost use Rattle.std.specs.Prelude.{◌≡◌, ◌≤◌, true, Err, IfErr, IfOk};
ghost use Rattle.kc_store.specs.Knows.{Remembers};
ghost use Rattle.kc_text.specs.Committing.{CommitsText, FailsBy};
ghost use Rattle.kc_text.specs.Meaning.{IsFitAct, texts_cells_end};

use crate::operation::{TextAct, TextOp};
use crate::texts::Texts;
use kc_model::{Footprint, Reply};
use kc_store::{Caller, Outcome, Store, Wear};
use std::sync::Wait;

/// Commits an operation: its reply, and what it read and put; or what is worn out. It doesn't wait, and is never too large.
pub(crate) fn commit_act<R: Wait>(
    rt: &R,
    store: &Store,
    caller: &mut Caller,
    texts: &Texts,
    act: TextAct,
) -> Result<(Reply, Footprint), Wear>
    requires caller { caller.old.of ≡ store.now }
    requires fit { IsFitAct texts.now act }
    requires within { texts_cells_end texts.now ≤ store.now.locations }
    ensures done { IfOk result (λ r. CommitsText texts.now act r.0 r.1 caller.old caller.new) }
    ensures fails { IfErr result (λ w. FailsBy texts.now act w caller.old caller.new) }
    ensures remembers { Remembers caller.old caller.new }
    ensures worn { caller.old.worn ≡ true → result ≡ Err Wear.Pool }
{
    match store.commit(rt, caller, &TextOp { texts: *texts, act }) {
        Outcome::Done { reply, footprint } => Ok((reply, footprint)),
        Outcome::Worn(wear) => Err(wear),
        Outcome::Later { footprint: _ } => unreachable!("it doesn't wait"),
        Outcome::TooLarge { footprint: _ } => unreachable!("it is small"),
    }
}
