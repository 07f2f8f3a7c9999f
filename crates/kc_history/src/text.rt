//! The lines that show the records and their order.

ghost use Rattle.std.specs.Prelude.{◌++◌, IsSome, codes, drop};
ghost use Rattle.std.specs.List.{flat_map};
ghost use Rattle.kc_model.specs.Pen.{PenPuts, Prints};
ghost use Rattle.kc_history.specs.Records.{lists_of, record_at, NamesRecords};
ghost use Rattle.kc_history.specs.Text.{bare_record, item_text, spaced_items, items_text, reply_text, answer_text, mark_text, label_text, reply_line, reply_lines, order_line, order_lines, records_text};

use crate::record::{Head, Mark, Place};
use crate::records::Records;
use kc_model::{Answer, Failed, Item, Items, Pen, Reply, Sink};

/// Puts the reply lines, thread by thread, and the order.
pub fn put_text<K: Sink>(pen: &mut Pen<K>, records: &[Records], order: &[Place])
    requires { NamesRecords (lists_of records.now) order.now }
    ensures { PenPuts K.written K.faults K.write_gives pen.old pen.new (records_text (lists_of records.now) order.now) }
{
    put_replies(pen, records);
    pen.put(b"order\n");
    put_order(pen, records, order);
}

/// Writes the reply lines, thread by thread, and the order. After a failed write no further one is made.
pub fn write_text<K: Sink>(records: &[Records], order: &[Place], sink: &mut K) -> Result<(), Failed>
    requires { NamesRecords (lists_of records.now) order.now }
    ensures { Prints K.written K.faults K.write_gives sink.old sink.new result (records_text (lists_of records.now) order.now) }
{
    let mut pen = Pen::new(sink);
    put_text(&mut pen, records, order);
    pen.end()
}

fn put_replies<K: Sink>(pen: &mut Pen<K>, records: &[Records])
    ensures { PenPuts K.written K.faults K.write_gives pen.old pen.new (reply_lines (lists_of records.now)) }
{
    for list in records {
        put_thread_replies(pen, list);
    }
}

fn put_thread_replies<K: Sink>(pen: &mut Pen<K>, list: &Records)
    ensures { PenPuts K.written K.faults K.write_gives pen.old pen.new (flat_map reply_line list.now.items) }
{
    for i in 0..list.len() {
        put_reply_line(pen, list.head(i));
    }
}

fn put_reply_line<K: Sink>(pen: &mut Pen<K>, head: &Head)
    ensures { PenPuts K.written K.faults K.write_gives pen.old pen.new (reply_line (bare_record head.now)) }
{
    match head.mark {
        Mark::Command(_) => put_command_line(pen, head),
        Mark::End => {}
    }
}

/// Writes the reply line of a command; of an end nothing. After a failed write no further one is made.
pub fn write_reply_line<K: Sink>(head: &Head, sink: &mut K) -> Result<(), Failed>
    ensures { Prints K.written K.faults K.write_gives sink.old sink.new result (reply_line (bare_record head.now)) }
{
    let mut pen = Pen::new(sink);
    put_reply_line(&mut pen, head);
    pen.end()
}

fn put_command_line<K: Sink>(pen: &mut Pen<K>, head: &Head)
    ensures { PenPuts K.written K.faults K.write_gives pen.old pen.new (label_text (bare_record head.now) ++ codes " " ++ answer_text head.now.answer ++ codes "\n") }
{
    put_label(pen, head);
    pen.put(b" ");
    put_answer(pen, &head.answer);
    pen.put(b"\n");
}

fn put_label<K: Sink>(pen: &mut Pen<K>, head: &Head)
    ensures { PenPuts K.written K.faults K.write_gives pen.old pen.new (label_text (bare_record head.now)) }
{
    pen.put_number(head.thread);
    pen.put(b".");
    put_mark(pen, head.mark);
}

fn put_mark<K: Sink>(pen: &mut Pen<K>, mark: Mark)
    ensures { PenPuts K.written K.faults K.write_gives pen.old pen.new (mark_text mark) }
{
    match mark {
        Mark::Command(number) => pen.put_number(number),
        Mark::End => pen.put(b"end"),
    }
}

fn put_answer<K: Sink>(pen: &mut Pen<K>, answer: &Answer)
    ensures { PenPuts K.written K.faults K.write_gives pen.old pen.new (answer_text answer.now) }
{
    match answer {
        Answer::Reply(reply) => put_reply(pen, reply),
        Answer::TooLarge => pen.put(b"toolarge"),
    }
}

fn put_reply<K: Sink>(pen: &mut Pen<K>, reply: &Reply)
    ensures { PenPuts K.written K.faults K.write_gives pen.old pen.new (reply_text reply.now) }
{
    match reply {
        Reply::Unit => pen.put(b"ok"),
        Reply::Value(number) => pen.put_number(*number),
        Reply::Bool(true) => pen.put(b"true"),
        Reply::Bool(false) => pen.put(b"false"),
        Reply::Empty => pen.put(b"none"),
        Reply::Full => pen.put(b"full"),
        Reply::Stranded => pen.put(b"stranded"),
        Reply::Cancelled => pen.put(b"cancelled"),
        Reply::Many(items) => put_items(pen, items),
    }
}

fn put_items<K: Sink>(pen: &mut Pen<K>, items: &Items)
    ensures { PenPuts K.written K.faults K.write_gives pen.old pen.new (items_text items.now) }
{
    if items.len() == 0 {
        pen.put(b"-");
        return;
    }
    put_item(pen, items.get(0));
    put_later_items(pen, items);
}

fn put_later_items<K: Sink>(pen: &mut Pen<K>, items: &Items)
    ensures { PenPuts K.written K.faults K.write_gives pen.old pen.new (spaced_items (drop 1 items.now)) }
{
    for i in 1..items.len() {
        pen.put(b" ");
        put_item(pen, items.get(i));
    }
}

fn put_item<K: Sink>(pen: &mut Pen<K>, item: Item)
    ensures { PenPuts K.written K.faults K.write_gives pen.old pen.new (item_text item) }
{
    match item {
        Item::Unit => pen.put(b"ok"),
        Item::Value(number) => pen.put_number(number),
        Item::Bool(true) => pen.put(b"true"),
        Item::Bool(false) => pen.put(b"false"),
        Item::Empty => pen.put(b"none"),
        Item::Full => pen.put(b"full"),
    }
}

fn put_order<K: Sink>(pen: &mut Pen<K>, records: &[Records], order: &[Place])
    requires { NamesRecords (lists_of records.now) order.now }
    ensures { PenPuts K.written K.faults K.write_gives pen.old pen.new (order_lines (lists_of records.now) order.now) }
{
    for place in order {
        put_order_line(pen, records, *place);
    }
}

fn put_order_line<K: Sink>(pen: &mut Pen<K>, records: &[Records], place: Place)
    requires { IsSome (record_at (lists_of records.now) place.thread place.index) }
    ensures { PenPuts K.written K.faults K.write_gives pen.old pen.new (order_line (record_at (lists_of records.now) place.thread place.index)) }
{
    let list = &records[place.thread as usize];
    put_label(pen, list.head(place.index as usize));
    pen.put(b"\n");
}
