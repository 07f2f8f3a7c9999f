//! Two callers over two places and two texts, red and green.

ghost use Rattle.std.specs.Prelude.{◌≡◌, ◌≤◌, ◌<◌, length};
ghost use Rattle.kc_text.specs.Meaning.{IsFitAct, IsText, texts_cells_end};

use kc_model::{Loc, Reply};
use kc_store::{Caller, Outcome, Store};
use kc_text::{Buried, Text, TextAct, TextOp, TextPool, TextRead, Texts, bury_text, read_text};
use std::alloc::Global;
use std::sync::Wait;

#[derive(Drop)]
pub(crate) struct Library {
    pub(crate) store: Store,
    pub(crate) first: Caller,
    pub(crate) second: Caller,
    pub(crate) pool: TextPool,
    pub(crate) texts: Texts,
    ghost callers: { (first.of ≡ store) × (second.of ≡ store) },
    ghost cells: { texts_cells_end texts ≤ store.locations },
    ghost size: { (texts.places ≡ 2) × (texts.texts ≡ 2) },
    ghost pooled: { length pool ≡ 2 },
}

pub(crate) fn open(alloc: Global) -> Option<Library> {
    let texts = Texts::layout(Loc(1), 2, 2);
    let Ok((store, mut callers)) = Store::open(alloc, &[0; 7], 2) else {
        return None;
    };
    let second = callers.pop()?;
    let first = callers.pop()?;
    let mut list = Vec::with_capacity(alloc, 2).ok()?;
    list.push_reserved(Text::new(b"red")?);
    list.push_reserved(Text::new(b"green")?);
    let pool = TextPool::open(alloc, list).ok()?;
    Some(Library {
        store,
        first,
        second,
        pool,
        texts,
    })
}

/// What the first caller's operation replies.
pub(crate) fn reply<R: Wait>(rt: &R, library: &mut Library, act: TextAct) -> Option<Reply>
    requires { IsFitAct library.old.texts act }
    ensures { library.new.texts ≡ library.old.texts }
{
    let op = TextOp {
        texts: library.texts,
        act,
    };
    match library.store.commit(rt, &mut library.first, &op) {
        Outcome::Done {
            reply,
            footprint: _,
        } => Some(reply),
        _ => None,
    }
}

/// The number and the length of the text that a place names; 0 of both where it names none.
pub(crate) fn read<R: Wait>(rt: &R, library: &mut Library, place: u32) -> Option<(u32, usize)>
    requires { place < library.old.texts.places }
    ensures { library.new.texts ≡ library.old.texts }
{
    let Library {
        store,
        first,
        second: _,
        pool,
        texts,
    } = library;
    match read_text(
        rt,
        store,
        first,
        pool,
        texts,
        place,
        |text| text.bytes().len(),
    ) {
        TextRead::Read { number, result, .. } => Some((number, result)),
        TextRead::Empty { footprint: _ } => Some((0, 0)),
        _ => None,
    }
}

/// The length of a text that was buried; 0 where it was not.
pub(crate) fn bury<R: Wait>(rt: &R, library: &mut Library, number: u32) -> Option<usize>
    requires { IsText library.old.texts number }
    ensures { library.new.texts ≡ library.old.texts }
{
    let Library {
        store,
        first,
        second: _,
        pool,
        texts,
    } = library;
    match bury_text(rt, store, first, pool, texts, number) {
        Buried::Gone { text, footprint: _ } => Some(text.bytes().len()),
        Buried::Named { footprint: _ } => Some(0),
        Buried::Worn(_) => None,
    }
}
