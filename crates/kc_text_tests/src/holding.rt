//! A reader that holds a text while another caller tries to bury it.

ghost use Rattle.std.specs.Prelude.{◌≡◌, ◌≤◌};
ghost use Rattle.kc_text.specs.Meaning.{IsFitAct, texts_cells_end};

use crate::library::{Library, open, reply};
use kc_model::Reply;
use kc_store::{Caller, Outcome, Store};
use kc_text::{Text, TextAct, TextOp, TextRead, Texts, read_text};
use std::sync::Wait;
use std::test::Fail;

// What a caller's operation replies.
fn reply_of<R: Wait>(
    rt: &R,
    store: &Store,
    caller: &mut Caller,
    texts: Texts,
    act: TextAct,
) -> Option<Reply>
    requires caller { caller.old.of ≡ store.now }
    requires fit { IsFitAct texts act }
    requires within { texts_cells_end texts ≤ store.now.locations }
    ensures { caller.new.of ≡ store.now }
{
    match store.commit(rt, caller, &TextOp { texts, act }) {
        Outcome::Done {
            reply,
            footprint: _,
        } => Some(reply),
        _ => None,
    }
}

// Clears place 0 and tries to bury text 1, while a text is read: what that replied.
fn clear_and_bury<R: Wait>(
    rt: &R,
    store: &Store,
    mut caller: Caller,
    texts: Texts,
    text: &Text,
) -> (Caller, Option<Reply>)
    requires caller { caller.of ≡ store.now }
    requires size { (texts.places ≡ 2) × (texts.texts ≡ 2) }
    requires within { texts_cells_end texts ≤ store.now.locations }
    ensures { result.0.of ≡ store.now }
{
    reply_of(rt, store, &mut caller, texts, TextAct::Clear(0));
    let reply = reply_of(rt, store, &mut caller, texts, TextAct::Bury(1));
    if text.bytes().is_empty() {
        return (caller, None);
    }
    (caller, reply)
}

// Reads the text that place 0 names; meanwhile the other caller clears the place and tries to bury the text. What that
// replied, and what it replies afterwards.
fn bury_while_read<R: Wait>(rt: &R, library: Library) -> Option<(Option<Reply>, Option<Reply>)> {
    let Library {
        store,
        mut first,
        second,
        pool,
        texts,
    } = library;
    let shared = &store;
    let read = read_text(rt, &store, &mut first, &pool, &texts, 0, move |text| {
        clear_and_bury(rt, shared, second, texts, text)
    });
    match read {
        TextRead::Read { result, .. } => {
            let (mut second, during) = result;
            let behind = reply_of(rt, &store, &mut second, texts, TextAct::Bury(1));
            Some((during, behind))
        }
        _ => None,
    }
}

#[test]
fn a_text_is_not_buried_while_it_is_read(rt: HostRuntime) -> Result<(), Fail> {
    let Some(mut library) = open(rt.alloc()) else {
        return Err(Fail::from("not opened"));
    };
    assert_eq!(rt;
        reply(&rt, &mut library, TextAct::Name(0, 1)),
        Some(Reply::Unit)
    );
    assert_eq!(rt;
        bury_while_read(&rt, library),
        Some((Some(Reply::Bool(false)), Some(Reply::Unit)))
    );
    Ok(())
}
