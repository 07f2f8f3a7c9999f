use crate::library::{bury, open, read, reply};
use kc_model::{Loc, MOST, PlainStore, Reply};
use kc_text::{BURIED, PoolError, Text, TextAct, TextOp, TextPool, Texts};
use kc_xt::{PlainPeek, Room, Transact, Xt};
use std::process::Abort;
use std::test::Fail;

// Asserts which text is read, and how many bytes it has. Assertions in line cost seconds to prove, calls a fraction.
fn sees(rt: &impl Abort, seen: Option<(u32, usize)>, want: Option<(u32, usize)>) {
    assert_eq!(rt; seen, want);
}

// Asserts how many bytes were buried.
fn buries(rt: &impl Abort, bytes: Option<usize>, want: Option<usize>) {
    assert_eq!(rt; bytes, want);
}

// Asserts a reply.
fn replies(rt: &impl Abort, reply: Option<Reply>, want: Option<Reply>) {
    assert_eq!(rt; reply, want);
}

#[test]
fn a_text_is_read_while_a_place_names_it_and_then_buried(rt: HostRuntime) -> Result<(), Fail> {
    let Some(mut library) = open(rt.alloc()) else {
        return Err(Fail::from("not opened"));
    };
    let library = &mut library;
    sees(&rt, read(&rt, library, 0), Some((0, 0)));
    replies(
        &rt,
        reply(&rt, library, TextAct::Name(0, 1)),
        Some(Reply::Unit),
    );
    sees(&rt, read(&rt, library, 0), Some((1, 3)));
    buries(&rt, bury(&rt, library, 1), Some(0));
    replies(
        &rt,
        reply(&rt, library, TextAct::Clear(0)),
        Some(Reply::Unit),
    );
    buries(&rt, bury(&rt, library, 1), Some(3));
    replies(
        &rt,
        reply(&rt, library, TextAct::Name(0, 1)),
        Some(Reply::Bool(false)),
    );
    buries(&rt, bury(&rt, library, 1), Some(0));
    sees(&rt, read(&rt, library, 0), Some((0, 0)));
    Ok(())
}

#[test]
fn a_place_that_comes_to_name_another_text_gives_the_first_one_up(
    rt: HostRuntime,
) -> Result<(), Fail> {
    let Some(mut library) = open(rt.alloc()) else {
        return Err(Fail::from("not opened"));
    };
    let library = &mut library;
    replies(
        &rt,
        reply(&rt, library, TextAct::Name(0, 2)),
        Some(Reply::Unit),
    );
    replies(
        &rt,
        reply(&rt, library, TextAct::Name(1, 2)),
        Some(Reply::Unit),
    );
    replies(
        &rt,
        reply(&rt, library, TextAct::Name(0, 1)),
        Some(Reply::Unit),
    );
    sees(&rt, read(&rt, library, 0), Some((1, 3)));
    buries(&rt, bury(&rt, library, 2), Some(0));
    replies(
        &rt,
        reply(&rt, library, TextAct::Name(1, 1)),
        Some(Reply::Unit),
    );
    buries(&rt, bury(&rt, library, 2), Some(5));
    replies(
        &rt,
        reply(&rt, library, TextAct::Return(2)),
        Some(Reply::Bool(false)),
    );
    Ok(())
}

#[test]
fn names_that_would_come_to_the_number_of_a_buried_text_stay(rt: HostRuntime) -> Result<(), Fail> {
    let Ok(store) = PlainStore::open(rt.alloc(), &[0, BURIED - 1, 0]) else {
        return Err(Fail::from("no memory"));
    };
    if store.len() < 3 {
        return Err(Fail::from("too few locations"));
    }
    let op = TextOp {
        texts: Texts::layout(Loc(0), 1, 1),
        act: TextAct::Name(0, 1),
    };
    let mut room = Room::new();
    let mut xt = Xt::new(PlainPeek::new(&store), &mut room, MOST as u32);
    assert_eq!(rt; op.run(&mut xt), Ok(Reply::Unit));
    assert_eq!(rt; xt.get(Loc(1)), Ok(BURIED - 1));
    assert_eq!(rt; xt.get(Loc(0)), Ok(1));
    Ok(())
}

#[test]
fn texts_and_pools_refuse_by_number(rt: HostRuntime) -> Result<(), Fail> {
    assert!(rt; Text::new(&[0; 65]).is_none());
    assert!(rt; Text::new(&[0; 64]).is_some());
    let mut list = Vec::with_capacity(rt.alloc(), 4097)?;
    for _ in 0..4097 {
        let Some(text) = Text::new(b"x") else {
            return Err(Fail::from("not a text"));
        };
        list.push(text)?;
    }
    let Err(PoolError::TooMany { texts: mut list }) = TextPool::open(rt.alloc(), list) else {
        return Err(Fail::from("opened"));
    };
    list.pop();
    assert!(rt; TextPool::open(rt.alloc(), list).is_ok());
    Ok(())
}
