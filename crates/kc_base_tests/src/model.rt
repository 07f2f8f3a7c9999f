ghost use Rattle.std.specs.Prelude.{IsTrue};
ghost use Rattle.kc_model.specs.Forms.{are_calls};

use crate::asserts::{equal, holds};
use kc_model::*;
use std::alloc::Global;
use std::test::Fail;

#[test]
fn a_store_of_one_value_too_many_is_refused(rt: HostRuntime) -> Result<(), Fail> {
    let many = vec![in rt.alloc(); 0u32; MOST_LOCATIONS + 1]?;
    let refused = matches!(
        &PlainStore::open(rt.alloc(), &many),
        Err(ModelError::TooManyLocs)
    );
    holds(&rt, refused);
    let opened = PlainStore::open(rt.alloc(), &many[..MOST_LOCATIONS]).is_ok();
    holds(&rt, opened);
    Ok(())
}

#[test]
fn a_read_of_another_version_is_stale(rt: HostRuntime) -> Result<(), Fail> {
    let Ok(mut store) = PlainStore::open(rt.alloc(), &[5]) else {
        return Err(Fail::from("no memory"));
    };
    let mut footprint = Footprint::new();
    footprint.reads.push(Seen {
        loc: Loc(0),
        version: 1,
        value: 5,
    });
    equal(
        &rt,
        store.apply(&footprint),
        Err(Stale {
            loc: Loc(0),
            version: 0,
        }),
    );
    Ok(())
}

#[test]
fn a_put_raises_the_version_where_the_value_stays(rt: HostRuntime) -> Result<(), Fail> {
    let Ok(mut store) = PlainStore::open(rt.alloc(), &[5]) else {
        return Err(Fail::from("no memory"));
    };
    let mut footprint = Footprint::new();
    footprint.reads.push(Seen {
        loc: Loc(0),
        version: 0,
        value: 5,
    });
    footprint.puts.push(Put {
        loc: Loc(0),
        version: 0,
        after: 5,
    });
    equal(&rt, store.apply(&footprint), Ok(()));
    equal(
        &rt,
        store.seen(Loc(0)),
        Some(Seen {
            loc: Loc(0),
            version: 1,
            value: 5,
        }),
    );
    equal(&rt, store.get(Loc(1)), None);
    Ok(())
}

#[test]
fn a_word_has_its_bits(rt: HostRuntime) -> Result<(), Fail> {
    let plain = Word::Plain {
        version: 3,
        value: 7,
    };
    equal(&rt, plain.pack(), 0x0000_0003_0000_0007);
    equal(&rt, Word::unpack(0x0000_0003_0000_0007), plain);
    let reference = Word::Ref {
        generation: 1,
        descriptor: 3,
        entry: 0,
    };
    equal(&rt, reference.pack(), 0x8000_0000_0080_0300);
    equal(&rt, Word::unpack(0x8000_0000_0080_0300), reference);
    Ok(())
}

fn text(alloc: Global, text: &str) -> Result<String, Fail> {
    Ok(String::from_str(alloc, text)?)
}

// A shelf of a file `a` of three bytes and an empty file `b`.
fn shelf(alloc: Global, failing: Vec<u64>) -> Result<MemShelf, Fail>
    requires { IsTrue (are_calls failing.items) }
{
    let mut files = Vec::new(alloc);
    files.push((text(alloc, "a")?, b"one".to_vec(alloc)?))?;
    files.push((text(alloc, "b")?, Vec::new(alloc)))?;
    Ok(MemShelf::new(files, failing))
}

fn is_fetched(fetched: &Result<Vec<u8>, ShelfError>, bytes: &[u8]) -> bool {
    matches!(fetched, Ok(file) if file.as_slice() == bytes)
}

#[test]
fn a_file_of_the_limit_is_whole_and_a_longer_one_is_too_long(rt: HostRuntime) -> Result<(), Fail> {
    let alloc = rt.alloc();
    let mut shelf = shelf(alloc, Vec::new(alloc))?;
    holds(&rt, is_fetched(&shelf.fetch(alloc, "a", 3), b"one"));
    holds(
        &rt,
        matches!(&shelf.fetch(alloc, "a", 2), Err(ShelfError::TooLong)),
    );
    holds(&rt, is_fetched(&shelf.fetch(alloc, "b", 0), b""));
    holds(
        &rt,
        matches!(&shelf.fetch(alloc, "c", 3), Err(ShelfError::Failed)),
    );
    Ok(())
}

#[test]
fn a_listed_call_fails_and_no_other(rt: HostRuntime) -> Result<(), Fail> {
    let alloc = rt.alloc();
    let mut shelf = shelf(alloc, vec![in alloc; 2]?)?;
    holds(&rt, is_fetched(&shelf.fetch(alloc, "a", 3), b"one"));
    holds(
        &rt,
        matches!(&shelf.fetch(alloc, "a", 3), Err(ShelfError::Failed)),
    );
    holds(&rt, is_fetched(&shelf.fetch(alloc, "a", 3), b"one"));
    Ok(())
}

#[test]
fn files_are_fetched_up_to_the_first_that_fails(rt: HostRuntime) -> Result<(), Fail> {
    let alloc = rt.alloc();
    let names = vec![in alloc; text(alloc, "a")?, text(alloc, "b")?, text(alloc, "a")?]?;
    let mut whole = shelf(alloc, Vec::new(alloc))?;
    let files = fetch_all(alloc, &mut whole, &names, 3);
    let expected: [&[u8]; 3] = [b"one", b"", b"one"];
    holds(&rt, matches!(&files, Ok(files) if files.len() == 3));
    if let Ok(files) = files {
        for i in 0..3 {
            holds(&rt, files[i].as_slice() == expected[i]);
        }
    }
    let mut frail = shelf(alloc, vec![in alloc; 3]?)?;
    let failed = fetch_all(alloc, &mut frail, &names, 3);
    holds(&rt, matches!(&failed, Err(ShelfError::Failed)));
    let past = fetch_all(alloc, &mut whole, &names, 2);
    holds(&rt, matches!(&past, Err(ShelfError::TooLong)));
    Ok(())
}
