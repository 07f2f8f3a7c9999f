//! Picks: texts that a caller names at a place, one after another, and reads there.

ghost use Rattle.std.specs.Prelude.{◌≡◌, ◌≤◌, ◌<◌, [], ◌∷◌, length, All};
ghost use Rattle.kc_store.specs.Knows.{Remembers};
ghost use Rattle.kc_text.specs.Meaning.{IsText, texts_cells_end};
ghost use Rattle.kc_text.specs.Pool.{IsTextOf};
ghost use Rattle.kc_text_run.specs.Picking.{AddsPicks, AreTextsOf};

use kc_model::Reply;
use kc_store::{Caller, Outcome, Store};
use kc_text::{Text, TextAct, TextOp, TextPool, TextRead, Texts, read_text};
use std::sync::Wait;
use std::thread;

// Names a text at a place, reads it there, and gives a copy of what it read. Where the store is worn, or another text is
// named there, it doesn't return.
fn read_pick<R: Wait>(
    rt: &R,
    store: &Store,
    caller: &mut Caller,
    pool: &TextPool,
    texts: &Texts,
    place: u32,
    pick: u32,
) -> Text
    requires caller { caller.old.of ≡ store.now }
    requires pool { length pool.now ≡ texts.now.texts }
    requires place { place < texts.now.places }
    requires pick { IsText texts.now pick }
    requires within { texts_cells_end texts.now ≤ store.now.locations }
    ensures text { IsTextOf pool.now pick result }
    ensures own { AddsPicks texts.now place (pick ∷ []) caller.old caller.new }
    ensures remembers { Remembers caller.old caller.new }
{
    let name = TextOp {
        texts: *texts,
        act: TextAct::Name(place, pick),
    };
    if let Outcome::Done {
        reply: Reply::Unit,
        footprint: _,
    } = store.commit(rt, caller, &name)
    {
        if let TextRead::Read {
            number,
            result,
            lease: _,
            back: _,
        } = read_text(rt, store, caller, pool, texts, place, |text| text.copy())
        {
            if number == pick {
                return result;
            }
        }
    }
    for _ in rt.forever() {
        thread::yield_now();
    }
    unreachable!()
}

/// Names each of these texts at a place, in order, reads it there, and gives a copy of what it read. Where the store is worn, or
/// another text comes to be named at the place, it doesn't return. It takes no memory.
pub fn read_picks<R: Wait>(
    rt: &R,
    store: &Store,
    caller: &mut Caller,
    pool: &TextPool,
    texts: &Texts,
    place: u32,
    picks: &[u32],
    lines: &mut [Text],
)
    requires caller { caller.old.of ≡ store.now }
    requires pool { length pool.now ≡ texts.now.texts }
    requires place { place < texts.now.places }
    requires picks { All (IsText texts.now) picks.now }
    requires within { texts_cells_end texts.now ≤ store.now.locations }
    requires same { length lines.old ≡ length picks.now }
    ensures lines { AreTextsOf pool.now picks.now lines.new }
    ensures own { AddsPicks texts.now place picks.now caller.old caller.new }
    ensures remembers { Remembers caller.old caller.new }
{
    for i in 0..picks.len() {
        lines[i] = read_pick(rt, store, caller, pool, texts, place, picks[i]);
    }
}
