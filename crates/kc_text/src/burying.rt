//! Burying a text, and taking it out.

ghost use Rattle.std.specs.Prelude.{◌≡◌, ◌≤◌, true, length};
ghost use Rattle.kc_store.specs.Knows.{Remembers};
ghost use Rattle.kc_text.specs.Meaning.{IsText, texts_cells_end};
ghost use Rattle.kc_text.specs.Reading.{Buries};

use crate::committing::commit_act;
use crate::operation::TextAct;
use crate::pool::TextPool;
use crate::text::Text;
use crate::texts::Texts;
use kc_model::{Footprint, Reply};
use kc_store::{Caller, Store, Wear};
use std::sync::Wait;

/// What burying a text answers.
#[derive(Drop)]
pub enum Buried {
    /// It is buried, and taken out.
    Gone { text: Text, footprint: Footprint },
    /// A place names it, a lease of it is open, or it was buried before.
    Named { footprint: Footprint },
    /// It isn't buried.
    Worn(Wear),
}

/// Buries a text that no place names and nobody leases, and takes it out. It may wait for the text's slot, and takes no memory.
pub fn bury_text<R: Wait>(
    rt: &R,
    store: &Store,
    caller: &mut Caller,
    pool: &TextPool,
    texts: &Texts,
    number: u32,
) -> Buried
    requires caller { caller.old.of ≡ store.now }
    requires pool { length pool.now ≡ texts.now.texts }
    requires number { IsText texts.now number }
    requires within { texts_cells_end texts.now ≤ store.now.locations }
    ensures buries { Buries pool.now texts.now number result caller.old caller.new }
    ensures remembers { Remembers caller.old caller.new }
    ensures worn { caller.old.worn ≡ true → result ≡ Buried.Worn Wear.Pool }
{
    match commit_act(rt, store, caller, texts, TextAct::Bury(number)) {
        Ok((reply, footprint)) => match reply {
            Reply::Unit => {
                let text = pool.take(rt, number);
                Buried::Gone { text, footprint }
            }
            Reply::Bool(_) => Buried::Named { footprint },
            _ => unreachable!("burying replies no such thing"),
        },
        Err(wear) => Buried::Worn(wear),
    }
}
