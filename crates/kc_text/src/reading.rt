//! Reading a text in place, under a lease.

ghost use Rattle.std.specs.Prelude.{◌≡◌, ◌≤◌, ◌<◌, true, length};
ghost use Rattle.std.specs.Fn.{FnOnceReturnsAt};
ghost use Rattle.kc_store.specs.Knows.{Remembers};
ghost use Rattle.kc_text.specs.Meaning.{IsText, texts_cells_end};
ghost use Rattle.kc_text.specs.Reading.{AnswersBehind, ReadsText};

use crate::committing::commit_act;
use crate::operation::TextAct;
use crate::pool::TextPool;
use crate::text::Text;
use crate::texts::Texts;
use kc_model::{Footprint, Reply};
use kc_store::{Caller, Store, Wear};
use std::sync::Wait;

/// What reading the text that a place names answers.
#[derive(Drop)]
pub enum TextRead<A> {
    /// The place named this text, and this is what was made of it. The lease was opened, and ended again.
    Read {
        number: u32,
        result: A,
        lease: Footprint,
        back: Footprint,
    },
    /// The place names none.
    Empty {
        footprint: Footprint,
    },
    /// No further lease of the text fits.
    Full {
        footprint: Footprint,
    },
    /// No lease was opened, and nothing was read.
    Worn(Wear),
    /// As Read, but the lease could not be ended, and stays.
    Kept {
        number: u32,
        result: A,
        lease: Footprint,
        wear: Wear,
    },
}

/// Leases the text that a place names, calls `f` on it where it lies, and ends the lease. While a lease is open the text isn't
/// buried. It may wait for the text's slot, and takes no memory.
pub fn read_text<R: Wait, A, F: FnOnce(&Text) -> A>(
    rt: &R,
    store: &Store,
    caller: &mut Caller,
    pool: &TextPool,
    texts: &Texts,
    place: u32,
    f: F,
) -> TextRead<A>
    requires caller { caller.old.of ≡ store.now }
    requires pool { length pool.now ≡ texts.now.texts }
    requires place { place < texts.now.places }
    requires within { texts_cells_end texts.now ≤ store.now.locations }
    requires callable { F.IsAlwaysCallable f }
    ensures reads { ReadsText (FnOnceReturnsAt F.FnOnce f) pool.now texts.now place result caller.old caller.new }
    ensures remembers { Remembers caller.old caller.new }
    ensures worn { caller.old.worn ≡ true → result ≡ TextRead.Worn Wear.Pool }
{
    match commit_act(rt, store, caller, texts, TextAct::Lease(place)) {
        Ok((reply, footprint)) => match reply {
            Reply::Value(number) => {
                let result = pool.read(rt, number, f);
                give_back(rt, store, caller, texts, number, result, footprint)
            }
            Reply::Empty => TextRead::Empty { footprint },
            Reply::Full => TextRead::Full { footprint },
            _ => unreachable!("a lease replies no such thing"),
        },
        Err(wear) => TextRead::Worn(wear),
    }
}

// Ends the lease under which a result was made.
fn give_back<R: Wait, A>(
    rt: &R,
    store: &Store,
    caller: &mut Caller,
    texts: &Texts,
    number: u32,
    made: A,
    lease: Footprint,
) -> TextRead<A>
    requires caller { caller.old.of ≡ store.now }
    requires number { IsText texts.now number }
    requires within { texts_cells_end texts.now ≤ store.now.locations }
    ensures gives { AnswersBehind texts.now number made lease result caller.old caller.new }
    ensures remembers { Remembers caller.old caller.new }
{
    match commit_act(rt, store, caller, texts, TextAct::Return(number)) {
        Ok((_, back)) => TextRead::Read {
            number,
            result: made,
            lease,
            back,
        },
        Err(wear) => TextRead::Kept {
            number,
            result: made,
            lease,
            wear,
        },
    }
}
