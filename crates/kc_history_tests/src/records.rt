//! Records, their order, and the lines that show both.

ghost use Rattle.std.specs.Prelude.{◌≡◌, ◌+◌, ◌-◌, ◌<◌, ◌≤◌, IfOk, [], length};
ghost use Rattle.kc_model.specs.declared.footprint.TheConstants.{MOST};

use crate::asserts::{equal, holds};
use kc_history::{Cycle, Mark, Place, Records, Room, are_well_made, arrange, write_text};
use kc_model::{Answer, Footprint, FrailSink, Item, Items, Loc, MOST, Put, Reply, Seen};
use std::alloc::Global;
use std::process::Abort;
use std::test::Fail;

// Room for the records of a thread.
fn open(alloc: Global) -> Result<Records, Fail>
    ensures { IfOk result (λ r. r ≡ record { items = []; spare = 4; bare = 0; limit = MOST }) }
{
    Ok(Records::open(alloc, 4, MOST as u32)?)
}

#[test]
fn an_end_has_no_reply_line(rt: HostRuntime) -> Result<(), Fail> {
    let mut list = open(rt.alloc())?;
    let footprint = Footprint::new();
    let five = Answer::Reply(Reply::Value(5));
    list.add(1, Mark::Command(1), five, &footprint);
    list.add(1, Mark::End, Answer::Reply(Reply::Unit), &footprint);
    let mut records = Vec::new(rt.alloc());
    records.push(list)?;
    let order = [
        Place {
            thread: 0,
            index: 0,
        },
        Place {
            thread: 0,
            index: 1,
        },
    ];
    let mut sink = FrailSink::new(rt.alloc(), 64, Vec::new(rt.alloc()))?;
    holds(&rt, write_text(&records, &order, &mut sink).is_ok());
    equal(&rt, sink.bytes(), b"1.1 5\norder\n1.1\n1.end\n".as_slice());
    Ok(())
}

// Asserts how a command's answer is shown.
fn shows(rt: &impl Abort, alloc: Global, answer: Answer, text: &[u8]) -> Result<(), Fail> {
    let mut list = open(alloc)?;
    list.add(1, Mark::Command(1), answer, &Footprint::new());
    let mut records = Vec::new(alloc);
    records.push(list)?;
    let mut sink = FrailSink::new(alloc, 64, Vec::new(alloc))?;
    holds(rt, write_text(&records, &[], &mut sink).is_ok());
    equal(rt, sink.bytes(), text);
    Ok(())
}

#[test]
fn items_and_too_large_in_words(rt: HostRuntime) -> Result<(), Fail> {
    let mut items = Items::new();
    shows(
        &rt,
        rt.alloc(),
        Answer::Reply(Reply::Many(items)),
        b"1.1 -\norder\n",
    )?;
    items.push(Item::Unit);
    items.push(Item::Value(4));
    shows(
        &rt,
        rt.alloc(),
        Answer::Reply(Reply::Many(items)),
        b"1.1 ok 4\norder\n",
    )?;
    shows(&rt, rt.alloc(), Answer::TooLarge, b"1.1 toolarge\norder\n")
}

// What reads location 0 at this version, and puts it or not.
fn print(version: u32, puts: bool) -> Footprint {
    let mut footprint = Footprint::new();
    let loc = Loc(0);
    let _ = footprint.reads.try_push(Seen {
        loc,
        version,
        value: 7,
    });
    if puts {
        let _ = footprint.puts.try_push(Put {
            loc,
            version,
            after: 7,
        });
    }
    footprint
}

// Adds a record of it.
fn add_version(list: &mut Records, thread: u32, number: u32, version: u32, puts: bool)
    requires { (0 < list.old.spare) × (list.old.limit ≡ MOST) }
    ensures items { length list.new.items ≡ length list.old.items + 1 }
    ensures room { (list.new.spare ≡ list.old.spare - 1) × (list.new.limit ≡ MOST) }
{
    let unit = Answer::Reply(Reply::Unit);
    list.add(thread, Mark::Command(number), unit, &print(version, puts));
}

// The records of two threads, in their order, or where that is stuck.
fn arranged(
    alloc: Global,
    first: Records,
    second: Records,
) -> Result<(Room, Result<(), Cycle>), Fail>
    requires { length first.items + length second.items ≤ 4 }
{
    let mut records = Vec::new(alloc);
    records.push(first)?;
    records.push(second)?;
    let mut room = Room::open(alloc, 2, 4)?;
    let lists = records.as_slice();
    if !are_well_made(lists) {
        return Err(Fail::from("a record isn't well made"));
    }
    let ended = arrange(lists, &mut room);
    Ok((room, ended))
}

fn at(thread: u32, index: u32) -> Place {
    Place { thread, index }
}

#[test]
fn a_later_reader_of_what_a_put_ends_stands_before_it(rt: HostRuntime) -> Result<(), Fail> {
    let mut first = open(rt.alloc())?;
    add_version(&mut first, 1, 1, 0, true);
    let mut second = open(rt.alloc())?;
    add_version(&mut second, 2, 1, 0, false);
    add_version(&mut second, 2, 2, 1, true);
    let (room, ended) = arranged(rt.alloc(), first, second)?;
    equal(&rt, ended, Ok(()));
    equal(&rt, room.order(), [at(1, 0), at(0, 0), at(1, 1)].as_slice());
    Ok(())
}

#[test]
fn a_footprint_alone_stands_as_its_record_would(rt: HostRuntime) -> Result<(), Fail> {
    let mut first = Records::open_prints(rt.alloc(), 1, MOST as u32)?;
    first.add_print(&print(0, true));
    equal(&rt, first.head(0).thread, 0);
    let mut second = open(rt.alloc())?;
    add_version(&mut second, 2, 1, 0, false);
    let (room, ended) = arranged(rt.alloc(), first, second)?;
    equal(&rt, ended, Ok(()));
    equal(&rt, room.order(), [at(1, 0), at(0, 0)].as_slice());
    Ok(())
}

#[test]
fn two_records_that_end_one_version_are_stuck(rt: HostRuntime) -> Result<(), Fail> {
    let mut first = open(rt.alloc())?;
    add_version(&mut first, 1, 1, 0, true);
    add_version(&mut first, 1, 2, 0, true);
    let (_, ended) = arranged(rt.alloc(), first, open(rt.alloc())?)?;
    let stuck = Cycle {
        thread: 1,
        number: 1,
    };
    equal(&rt, ended, Err(stuck));
    Ok(())
}
